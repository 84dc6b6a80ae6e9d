//! The life of an order in an audited day, event by event.
#![tactic(auto)]

mod change;
mod following;
mod life;
mod rows;
mod standing;

pub use rows::{LifeAnswer, OrderRows, SoughtOrderRows};
