//! What `pegaudit` tells of an audit, and how it ends.
#![tactic(auto)]

pub mod exit;
pub mod refusals;
pub mod telling;
