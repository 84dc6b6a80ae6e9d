//! Trials of a live day over scripts: an edge in memory brings lines in rounds, over disks in memory, and each call of either fails in
//! turn. What must come is what `replay_core` makes of the same lines. All of it is tests.
#![tactic(auto)]

#[cfg(test)]
mod tests;
