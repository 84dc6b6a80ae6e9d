//! Lines of scripts, configs and feeds from a shelf, a whole config, and the text of a program's end.
#![tactic(auto)]

pub mod config_file;
pub mod ending;
pub mod over;
pub mod reader;
pub mod status_text;
pub mod window;

pub use config_file::{ConfigFault, ConfigFile, read_config};
pub use ending::{Ending, tell, told_text};
pub use over::{over_fault, weigh};
pub use reader::{LineReader, NextLine};
pub use status_text::StatusText;
