//! Trials of runs over feeds: a stored run with each call of the outside failing in turn, feeds that share a symbol or a member,
//! refused files, feeds that are held in turn, many feeds at once, and the feed of a recorded market data session; and of such a
//! session itself with each call of the outside failing in turn. All of it is tests.
#![tactic(auto)]

#[cfg(test)]
mod tests;
