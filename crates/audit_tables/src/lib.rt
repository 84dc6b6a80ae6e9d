//! Tables of what an audited day shows, and what they are made of.
#![tactic(auto)]

mod again;
pub mod answer;
pub mod asked;
pub mod cells;
pub mod counts;
mod lines;
pub mod naming;
pub mod quotes;
mod rows;
pub mod sought;
mod table;
pub mod trade_line;
mod trades;

pub use again::SymbolDay;
pub use lines::Lines;
pub use rows::{RowTable, Rows};
pub use table::{Table, tabulate};
pub use trades::{TradeRows, TradeTable};
