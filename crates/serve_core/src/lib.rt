//! Sessions over links: one connection of a member, and a file of quotes, each served over a floor of its own.
#![tactic(auto)]

pub mod greeting;
pub mod plan;
pub mod quotes;
pub mod serving;
pub mod setup;
pub mod status;
pub mod telling;
pub mod turns;

pub use link_work::LinkEnd;
pub use plan::{ServePlan, serve_words};
pub use program_words::WordFault;
pub use quotes::{QuoteEnd, serve_quotes};
pub use serving::serve_link;
pub use setup::{SetupFault, serve_setup};
pub use status::{ServeStatus, exit_code};
