//! A link over a socket.
ghost use Rattle.std.specs.Prelude.{◌≡◌, ◌≤◌, ◌<◌, length, IfSome, None};
ghost use Rattle.venue_words.specs.Causes.{Rose};

use crate::bells::{Bells, Inbox, Message};
use crossbeam_channel::RecvTimeoutError;
use io_edge::{Failed, Link, Pulled};
use std::alloc::Global;
use std::io::Write;
use std::rt;
use std::sync::Wait;
use std::time::{Duration, Instant};

/// How long a pull waits before it answers that nothing is there.
const PULL_SECONDS: u64 = 1;

/// How many such waits there may be before the socket is read. Where no thread could be started for it, nothing will come.
const UNREAD_PULLS: u32 = 5;

/// How long a peer may take to log on.
const LOGON_SECONDS: u64 = 30;

/// A link over a socket that another thread reads. It tells nothing of what comes and is put. A peer is put nothing before he
/// logs on, so a link to which nothing was put within 30 seconds fails: whoever sends no Logon holds no connection for longer.
#[derive(Drop)]
pub struct SocketLink<'a, R: Wait + rt::Clock, W: Write> {
    rt: &'a R,
    out: W,
    inbox: Inbox,
    bells: &'a Bells,
    /// Its number among the bells.
    own: usize,
    /// What the last piece still has, and how many of its bytes were given.
    piece: Vec<u8>,
    given: usize,
    /// The waits in which nobody read the socket.
    unread: u32,
    /// When the link began, until something is put.
    began: Option<Instant>,
    /// How long the peer may take to log on.
    logon: Duration,
    faults: u64,
    ends: u64,
}

impl<'a, R: Wait + rt::Clock, W: Write> SocketLink<'a, R, W> {
    /// Over what the socket is written through, and the inbox of the bell of this number.
    pub fn new(
        rt: &'a R,
        alloc: Global,
        out: W,
        inbox: Inbox,
        bells: &'a Bells,
        own: usize,
    ) -> SocketLink<'a, R, W> {
        SocketLink {
            rt,
            out,
            inbox,
            bells,
            own,
            piece: Vec::new(alloc),
            given: 0,
            unread: 0,
            began: Instant::now(rt).ok(),
            logon: Duration::from_secs(LOGON_SECONDS),
            faults: 0,
            ends: 0,
        }
    }

    /// The peer may take so long to log on, in place of 30 seconds.
    pub fn set_logon_time(&mut self, logon: Duration) {
        self.logon = logon;
    }

    /// Whether the peer was put nothing in the time that he has to log on.
    fn is_late(&self) -> bool {
        let Some(began) = &self.began else {
            return false;
        };
        match began.elapsed(self.rt) {
            Ok(waited) => waited >= self.logon,
            Err(_) => false,
        }
    }

    fn fail(&mut self) -> Failed
        ensures later { self.old.faults ≤ self.new.faults }
        ensures rose { Rose self.old.faults self.new.faults }
        ensures ends { self.new.ends ≡ self.old.ends }
    {
        self.faults = self.faults.saturating_add(1);
        Failed
    }

    /// Whether something may still come after a wait in which nothing came.
    fn may_come(&mut self) -> bool
        ensures faults { self.new.faults ≡ self.old.faults }
        ensures ends { self.new.ends ≡ self.old.ends }
    {
        if self.bells.has_lost(self.own) {
            return false;
        }
        if self.bells.is_read(self.own) {
            return true;
        }
        self.unread = self.unread.saturating_add(1);
        self.unread < UNREAD_PULLS
    }

    /// Gives more of the last piece, if it has more.
    fn give(&mut self, buffer: &mut [u8]) -> Option<usize>
        ensures inside { IfSome result (λ count. (0 < count) × (count ≤ length buffer.new)) }
        ensures faults { self.new.faults ≡ self.old.faults }
        ensures ends { self.new.ends ≡ self.old.ends }
    {
        let left = self.piece.len().saturating_sub(self.given);
        let count = left.min(buffer.len());
        if count == 0 {
            return None;
        }
        let from = self.given;
        buffer[..count].copy_from_slice(&self.piece[from..from + count]);
        self.given += count;
        Some(count)
    }
}

impl<'a, R: Wait + rt::Clock, W: Write> Link for SocketLink<'a, R, W> {
    ghost use Rattle.std.specs.Prelude.{None};

    ghost faults = { λ s. s.faults };

    ghost ends = { λ s. s.ends };

    ghost told = { λ _. None };

    fn pull(&mut self, buffer: &mut [u8]) -> Result<Pulled, Failed> {
        if self.is_late() {
            return Err(self.fail());
        }
        if let Some(count) = self.give(buffer) {
            return Ok(Pulled::Bytes(count));
        }
        match self
            .inbox
            .recv_timeout(self.rt, Duration::from_secs(PULL_SECONDS))
        {
            Ok(Message::Piece(piece)) => {
                self.piece = piece;
                self.given = 0;
                match self.give(buffer) {
                    Some(count) => Ok(Pulled::Bytes(count)),
                    None => Ok(Pulled::Quiet),
                }
            }
            Ok(Message::Ring) => {
                self.bells.heard(self.own);
                Ok(Pulled::Quiet)
            }
            Ok(Message::End) => {
                self.ends = self.ends.saturating_add(1);
                Ok(Pulled::End)
            }
            Ok(Message::Fault) => Err(self.fail()),
            Err(RecvTimeoutError::Timeout) if self.may_come() => Ok(Pulled::Quiet),
            Err(_) => Err(self.fail()),
        }
    }

    fn put(&mut self, piece: &[u8]) -> Result<(), Failed> {
        self.began = None;
        if self.out.write_all(piece).is_err() {
            return Err(self.fail());
        }
        Ok(())
    }

    fn ring(&mut self) {
        self.bells.ring_others(self.rt, self.own);
    }
}
