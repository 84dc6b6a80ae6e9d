//! Trials of gates and venues: threads that submit through seats of their own, and venues that are filled to their limits. All of
//! it is tests.
#![tactic(auto)]

#[cfg(test)]
mod tests;
