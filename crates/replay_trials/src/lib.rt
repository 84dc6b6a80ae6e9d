//! Trials of the replay: worked scripts, sessions, prices and minimums with the texts that they must give, in pieces of one byte and
//! in large ones; hostile bytes; each call of the outside failing in turn; loads; and whole days with a journal over disks in memory.
//! All of it is tests.
#![tactic(auto)]

#[cfg(test)]
mod tests;
