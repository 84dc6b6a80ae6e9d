//! A book over plain rows, beside which the book that ships is tried: each row has a price and a time of its own, and a quote
//! prices every one of them. And what both show of the same events, beside the plain program of the rules.
#![tactic(auto)]

pub mod book;
pub mod shown;
pub mod uncounted;

pub use book::{PlainBook, plain_book};
pub use shown::{Shown, over_groups, over_rows, plain_reports, submit, text_of};
pub use uncounted::Uncounted;
