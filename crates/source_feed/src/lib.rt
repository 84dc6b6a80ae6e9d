//! Live market data: one session with a source over a link, whose quotes go to a desk as lines.
#![tactic(auto)]

mod end;
mod lines;
mod serving;
mod turn;
mod watch;

pub use end::FeedEnd;
pub use lines::push_lines;
pub use serving::{Setup, serve_source};
pub use watch::{Note, Watch};
