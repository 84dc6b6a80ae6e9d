//! Links over sockets: a thread reads each socket and hands what it brings to the thread that serves the link. This is the
//! trusted edge: nothing is claimed of what comes, in which order, or that a ring is heard.
#![tactic(auto)]

pub mod bells;
pub mod link;
pub mod reading;

pub use bells::{Bells, Inbox, bells_of};
pub use link::SocketLink;
pub use reading::read_all;
