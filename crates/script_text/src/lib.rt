//! The text of scripts: their lines, their header, their body, and why a line is refused.
#![tactic(auto)]

pub mod body;
pub mod config;
pub mod escaping;
pub mod fault;
pub mod header;
pub mod lines;
pub mod load;
pub mod words;

pub use body::{Line, read_line};
pub use config::read_header;
pub use escaping::{escape, push_escaped_text, unescape};
pub use fault::{LimitCause, LineCause, LineFault};
pub use header::Header;
pub use lines::{cut_line, first_end};
pub use load::load_line;
