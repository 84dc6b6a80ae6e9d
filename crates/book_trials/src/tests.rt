//! Tests of the book.
mod blocked;
mod comparing;
mod limits;
mod load;
mod matching;
mod orders;
mod random;
