//! The words that a program was started with.
use crate::WordFault;
use std::alloc::{Alloc, Global};
use std::env::{self, Env};
use std::io::ErrorKind;

/// The words behind the program's name, as the system gives them. Where one of them isn't UTF-8 they are bad words.
pub fn arguments<R: Env + Alloc<A = Global>>(rt: &R) -> Result<Vec<String>, WordFault> {
    let all = match env::args(rt) {
        Ok(all) => all,
        Err(error) if error.kind() == ErrorKind::OutOfMemory => return Err(WordFault::NoMemory),
        Err(_) => return Err(WordFault::BadWords),
    };
    match all.skip(1).collect::<Vec<String>>(rt.alloc()) {
        Ok(words) => Ok(words),
        Err(_) => Err(WordFault::NoMemory),
    }
}
