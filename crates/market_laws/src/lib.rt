//! Laws of the market's rules: what holds of the reports and of the book after every history. Each law is a statement of
//! `specs/`, proved as the contract of a function that does nothing. A law that no crate calls is for those who rely on the rules: members,
//! operators and auditors.
#![tactic(auto)]

mod histories;
mod matching;
mod names;
mod orders;
mod replies;
mod trades;

pub use histories::history_goes_on;
pub use matching::{entering_makes_few_trades, recheck_makes_few_trades, walk_makes_few_trades};
pub use names::{ids_are_short, orders_are_named, used_names_are_told};
pub use orders::{
    book_is_sound, cum_is_sum_of_trades, new_trades_fit, quote_trades_fit, replace_trades_fit,
    rows_are_placed, rows_stand,
};
pub use replies::{new_is_answered_once, reports_are_few, reports_are_in_place};
pub use trades::{bought_shares_are_sold, trades_are_within_quote};
