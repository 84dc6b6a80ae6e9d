//! The channels to the threads that serve links.
ghost use Rattle.std.specs.Prelude.{◌≡◌, length, IfOk};

use crossbeam_channel::{Receiver, Sender, unbounded};
use std::alloc::{AllocError, Global};
use std::sync::Wait;
use std::sync::atomic::{AtomicBool, Ordering};

/// What is handed to a thread that serves a link.
#[derive(Drop)]
pub enum Message {
    /// Bytes that the socket brought.
    Piece(Vec<u8>),
    /// The socket brings no more.
    End,
    /// A read failed.
    Fault,
    /// Reports may be waiting.
    Ring,
}

/// The end of a channel from which a thread takes what concerns its link.
pub type Inbox = Receiver<Message>;

/// The other end.
#[derive(Drop)]
struct Bell {
    sender: Sender<Message>,
    /// A ring is under way that was not heard yet, so that another one is needless.
    rung: AtomicBool,
    /// Something was lost for want of memory.
    lost: AtomicBool,
    /// The thread that reads the socket has begun.
    read: AtomicBool,
}

/// The bells of all links, which their threads share.
#[derive(Drop)]
pub struct Bells {
    list: Vec<Bell>,
}

/// Bells of so many links, and the inbox of each.
pub fn bells_of(alloc: Global, count: usize) -> Result<(Bells, Vec<Inbox>), AllocError>
    ensures { IfOk result (λ made. length made.1.items ≡ count) }
{
    let mut list = Vec::with_capacity(alloc, count)?;
    let mut inboxes = Vec::with_capacity(alloc, count)?;
    for link in 0..count {
        let (sender, inbox) = unbounded(alloc)?;
        list.push(Bell {
            sender,
            rung: AtomicBool::new(false),
            lost: AtomicBool::new(false),
            read: AtomicBool::new(false),
        })?;
        inboxes.push(inbox)?;
    }
    Ok((Bells { list }, inboxes))
}

impl Bells {
    /// Hands a message to the thread of a link, and says whether it went.
    pub(crate) fn hand<R: Wait>(&self, rt: &R, link: usize, message: Message) -> bool {
        let Some(bell) = self.list.get(link) else {
            return false;
        };
        if bell.sender.send(rt, message).is_ok() {
            return true;
        }
        bell.lost.store(true, Ordering::SeqCst);
        false
    }

    /// Ends a link from this side: its thread takes one more turn, and then finds the end, as if the peer gave no more. What
    /// finds no memory is dropped, and the link then fails.
    pub fn end<R: Wait>(&self, rt: &R, link: usize) {
        let _ = self.hand(rt, link, Message::Ring);
        let _ = self.hand(rt, link, Message::End);
    }

    /// Rings all links but this one. A ring that finds no memory is dropped.
    pub(crate) fn ring_others<R: Wait>(&self, rt: &R, link: usize) {
        for (other, bell) in self.list.iter().enumerate() {
            if other != link && !bell.rung.swap(true, Ordering::SeqCst) {
                let _ = bell.sender.send(rt, Message::Ring).is_ok();
            }
        }
    }

    /// A ring was heard: what is submitted from now on rings anew.
    pub(crate) fn heard(&self, link: usize) {
        if let Some(bell) = self.list.get(link) {
            bell.rung.store(false, Ordering::SeqCst);
        }
    }

    /// The socket of a link is read from now on.
    pub(crate) fn begin(&self, link: usize) {
        if let Some(bell) = self.list.get(link) {
            bell.read.store(true, Ordering::SeqCst);
        }
    }

    /// Whether the socket of a link is read, or was.
    pub(crate) fn is_read(&self, link: usize) -> bool {
        match self.list.get(link) {
            Some(bell) => bell.read.load(Ordering::SeqCst),
            None => false,
        }
    }

    /// Whether something was lost for want of memory.
    pub(crate) fn has_lost(&self, link: usize) -> bool {
        match self.list.get(link) {
            Some(bell) => bell.lost.load(Ordering::SeqCst),
            None => true,
        }
    }
}
