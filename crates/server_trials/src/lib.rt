//! Trials of connections: sessions and drop copies over links in memory, and the server over loopback. All of it is tests.
#![tactic(auto)]

#[cfg(test)]
mod tests;
