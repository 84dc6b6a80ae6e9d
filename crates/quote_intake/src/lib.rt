//! Quotes as lines of text write them.
#![tactic(auto)]

mod names;
pub mod prices;
pub mod quotes;
pub mod words;

pub use names::number_in;
pub use prices::{cents, digits, price};
pub use quotes::{QuoteFault, read_quote};
pub use words::{cut_word, first_space, space_at};
