//! The listing of a venue: for each symbol the events of its journal, and behind each event the reports that it made.
#![tactic(auto)]

mod commands;
mod fields;
mod lines;
mod order;
mod part;
mod pending;

pub use commands::name_at;
pub use lines::{push_event_line, push_report_line, push_symbol_line};
pub use order::runs_are_in_order;
pub use part::{ListingFault, SymbolPart, write_part};
