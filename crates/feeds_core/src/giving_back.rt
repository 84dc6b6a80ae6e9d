//! Memory is given back.
use std::thread::{Threads, map_vec};
use symbol_book::Book;

/// Gives the memory of books back, each book's in a thread of its own where one can be started: the books of a long day hold so
/// much that one thread alone would be busy with it for as long as with their listing.
pub fn give_back<R: Threads + Sync>(rt: &R, books: Vec<Book>) {
    let _ = map_vec(rt, books, &|book: Book| drop(book));
}
