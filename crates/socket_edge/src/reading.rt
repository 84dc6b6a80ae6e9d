//! A socket is read to its end.
use crate::bells::{Bells, Message};
use std::alloc::Global;
use std::io::Read;
use std::sync::Wait;

/// How many bytes are read at once, at most.
const READ_BYTES: usize = 4_096;

/// Reads until the peer gives no more or a read fails, and hands what comes to the thread of this link. Where the socket is
/// shut down it ends.
pub fn read_all<R: Wait, S: Read + Drop>(
    rt: &R,
    alloc: Global,
    mut stream: S,
    bells: &Bells,
    link: usize,
) {
    bells.begin(link);
    let mut buffer = [0u8; READ_BYTES];
    for _ in rt.forever() {
        let message = match stream.read(&mut buffer) {
            Ok(0) => Message::End,
            Ok(count) => match Vec::from_slice(alloc, &buffer[..count.min(READ_BYTES)]) {
                Ok(piece) => Message::Piece(piece),
                Err(_) => Message::Fault,
            },
            Err(_) => Message::Fault,
        };
        let is_piece = matches!(&message, Message::Piece(_));
        if !bells.hand(rt, link, message) || !is_piece {
            return;
        }
    }
}
