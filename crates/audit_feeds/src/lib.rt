//! Whether the journals of an audited day are what its feeds ask: each holds the commands of each feed for its symbol, once and in the
//! feed's order, and nothing else.
#![tactic(auto)]

mod alike;
mod auditing;
mod departures;
mod lists;
mod rows;
mod telling;
mod text;

pub use auditing::{FeedsRefusal, FeedsVerdict, audit_feeds};
