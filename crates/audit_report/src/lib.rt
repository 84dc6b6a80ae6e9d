//! The page of an audited day: for each symbol its trades, its orders and its refused requests, after a verdict and what is counted of the day.
#![tactic(auto)]

mod buckets;
mod cells;
mod difference;
mod facts;
mod glance;
mod kept;
mod lives;
mod members;
mod orders;
mod page;
mod parts;
mod refusals;
mod report;
mod rests;
mod rows;
mod sections;
mod style;
mod trades;
mod verdict;
mod words;

pub use kept::KeptShelf;
pub use page::Head;
pub use report::{ReportFiles, Reported, report_day};
pub use rows::{Gathered, ReportRows};
pub use verdict::Source;
