//! Trials of the book: beside a book over plain rows and the plain program of the market's rules, at its limit, under load, and
//! blocked by minimums; and of what matching stands on: move histories and the tree of a group beside plain lists, and both forms
//! of a side. All of it is tests.
#![tactic(auto)]

#[cfg(test)]
mod tests;
