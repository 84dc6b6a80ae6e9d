//! Trials of desks and of the lines that are worked at them, over floors of their own. All of it is tests.
#![tactic(auto)]

#[cfg(test)]
mod tests;
