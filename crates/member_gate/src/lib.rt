//! The desk of a member: what comes on his connection is framed, worked by his session and read as orders, and his
//! reports go out. Books stand behind any floor.
#![tactic(auto)]

mod answering;
mod awaited;
pub mod business;
mod desk;
mod desk_cell;
mod desk_table;
mod desks;
mod names;
mod origin;
mod refusal;
mod reporting;
mod submitting;
mod worked;
mod working;

pub use awaited::Awaited;
pub use desk::Desk;
pub use desk_cell::{CellDesks, DeskCell};
pub use desk_table::DeskTable;
pub use desks::{Desks, desks_of};
pub use refusal::DeskRefusal;
pub use session_core::{EndCause, Turn};
