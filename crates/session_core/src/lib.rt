//! The session layer of FIX: what each frame, tick and report makes of a member's session. It is a pure machine: moments
//! and bytes come in as values, and frames go out as values.
#![tactic(auto)]

mod answers;
mod bodies;
mod cases;
mod checks;
mod frames;
mod logon;
pub mod lookup;
mod message;
mod message_fields;
mod message_list;
mod plan;
pub mod reasons;
mod resend;
mod resent;
mod runs;
mod sent;
mod sequence;
mod session;
mod state;
mod tables;
pub mod tags;
mod turn;

pub use checks::{FailedCheck, Form, Item, first_failed};
pub use message::{Kept, Message, Request};
pub use message_fields::MessageFields;
pub use message_list::{Body, ListedMessage, MessageList};
pub use runs::Input;
pub use session::Session;
pub use state::{EndCause, Phase, State};
pub use turn::Turn;
