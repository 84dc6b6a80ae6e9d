//! Trials of the auditor of listings: a listing with a line changed, and one with each of its bytes changed in turn. All of it is
//! tests.
#![tactic(auto)]

#[cfg(test)]
mod books;
#[cfg(test)]
mod feeds;
#[cfg(test)]
mod orders;
#[cfg(test)]
mod summaries;
#[cfg(test)]
mod tables;
#[cfg(test)]
mod tests;
