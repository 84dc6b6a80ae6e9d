//! Drop copies: a session that gets a copy of every report of its listed members.
#![tactic(auto)]

mod answering;
mod bodies;
mod copying;
mod desk;
mod names;
mod plan;
mod serving;
pub mod tags;
mod turns;

pub use bodies::push_copy_body;
pub use desk::DropDesk;
pub use link_work::LinkEnd;
pub use plan::{DropPlan, drop_members};
pub use serving::{serve_drop, serve_drop_over};
pub use session_core::{EndCause, Turn};
