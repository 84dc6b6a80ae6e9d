//! Texts of a page in HTML. Whatever bytes a member gave, they stand in their cell as text.
#![tactic(auto)]

pub mod chunks;
pub mod numbers;
pub mod texts;
