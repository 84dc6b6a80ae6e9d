//! A link in memory.
ghost use Rattle.std.specs.Prelude.{◌≡◌, ◌<◌, ◌≤◌, ◌+◌, ◌^◌, ℕ, List, [], Some, map, drop, take, length, min, IfOk, IfSome};
ghost use Rattle.io_edge.specs.Links.{answer_of, Gives, IsInside};
ghost use Rattle.io_edge.specs.MemLinks.{answer_in, items_from};

use crate::calls::Calls;
use crate::edge::Failed;
use crate::link::{Link, Pulled};
use std::alloc::{AllocError, Global};

/// What a peer does.
#[derive(Debug, Drop)]
pub enum LinkItem {
    /// Sends these bytes. Without a byte it is as `Quiet`.
    Piece(Vec<u8>),
    /// Sends nothing for a while.
    Quiet,
    /// Sends no more.
    End,
}

/// A place among a peer's items: in one of them, behind so many of its bytes.
#[derive(Clone, Copy)]
struct Spot {
    item: usize,
    at: usize,
}

/// An answer, and the place behind it.
#[derive(Clone, Copy)]
struct Given {
    pulled: Pulled,
    spot: Spot,
}

impl Given {
    fn new(pulled: Pulled, spot: Spot) -> Given
        ensures { result ≡ record { pulled = pulled; spot = spot } }
    {
        Given { pulled, spot }
    }
}

/// Copies the first bytes that have room to the front of the buffer, and says how many.
fn copy_front(buffer: &mut [u8], bytes: &[u8]) -> usize
    ensures count { result ≡ min (length bytes.now) (length buffer.old) }
    ensures bytes { take result buffer.new ≡ take result bytes.now }
{
    let count = bytes.len().min(buffer.len());
    buffer[..count].copy_from_slice(&bytes[..count]);
    count
}

/// The answer at a place, with its bytes at the front of the buffer.
fn give(items: &[LinkItem], spot: Spot, buffer: &mut [u8]) -> Given
    requires { 0 < length buffer.old }
    ensures inside { IsInside result.pulled buffer.new }
    ensures gives { Gives (items_from spot.at (drop spot.item items.now)) (answer_of result.pulled buffer.new)
        (items_from result.spot.at (drop result.spot.item items.now)) }
{
    let behind = Spot {
        item: spot.item.saturating_add(1),
        at: 0,
    };
    match items.get(spot.item) {
        Some(LinkItem::Piece(bytes)) => {
            if bytes.len() <= spot.at {
                return Given::new(Pulled::Quiet, behind);
            }
            let rest = &bytes[spot.at..];
            let count = copy_front(buffer, rest);
            if count == rest.len() {
                return Given::new(Pulled::Bytes(count), behind);
            }
            let at = spot.at + count;
            Given::new(Pulled::Bytes(count), Spot { at, ..spot })
        }
        Some(LinkItem::Quiet) => Given::new(Pulled::Quiet, behind),
        Some(LinkItem::End) => Given::new(Pulled::End, spot),
        None => Given::new(Pulled::End, spot),
    }
}

/// An answer with its bytes.
fn keep(alloc: Global, pulled: Pulled, buffer: &[u8]) -> Result<LinkItem, AllocError>
    requires { IsInside pulled buffer.now }
    ensures { IfOk result (λ item. answer_in item ≡ answer_of pulled buffer.now) }
{
    match pulled {
        Pulled::Bytes(count) => {
            let bytes = Vec::from_slice(alloc, &buffer[..count])?;
            Ok(LinkItem::Piece(bytes))
        }
        Pulled::Quiet => Ok(LinkItem::Quiet),
        Pulled::End => Ok(LinkItem::End),
    }
}

/// Does what it was told of a peer, with calls that fail where their numbers are listed, counted from 1. It keeps
/// what it answered and what was put. Want of memory counts as a fault.
#[derive(Drop)]
pub struct MemLink {
    alloc: Global,
    items: Vec<LinkItem>,
    spot: Spot,
    answers: Vec<LinkItem>,
    put: Vec<u8>,
    calls: Calls,
    ends: u64,
}

impl MemLink {
    /// Behind the last item, and at an `End`, the peer gives no more.
    pub fn new(alloc: Global, items: Vec<LinkItem>, fails: Vec<u64>) -> MemLink
        ensures told { ⟦<MemLink as Link>⟧.told result ≡ Some (record { left = map answer_in items.items; answers = []; put = [] }) }
        ensures faults { ⟦<MemLink as Link>⟧.faults result ≡ 0 }
        ensures ends { ⟦<MemLink as Link>⟧.ends result ≡ 0 }
    {
        MemLink {
            alloc,
            items,
            spot: Spot { item: 0, at: 0 },
            answers: Vec::new(alloc),
            put: Vec::new(alloc),
            calls: Calls::new(fails),
            ends: 0,
        }
    }

    /// What was put.
    pub fn bytes(&self) -> &[u8]
        ensures { IfSome (⟦<MemLink as Link>⟧.told self.now) (λ told. told.put ≡ result.now) }
    {
        self.put.as_slice()
    }
}

impl Link for MemLink {
    ghost use Rattle.io_edge.specs.MemLinks.{answer_in, items_from};
    ghost use Rattle.std.specs.Prelude.{Some, map, drop};

    ghost faults = { λ s. s.calls.faults };

    ghost ends = { λ s. s.ends };

    ghost told = { λ s. Some (record { left = items_from s.spot.at (drop s.spot.item s.items.items); answers = map answer_in s.answers.items; put = s.put.items }) };

    fn pull(&mut self, buffer: &mut [u8]) -> Result<Pulled, Failed> {
        self.calls.call()?;
        let given = give(&self.items, self.spot, buffer);
        let kept = keep(self.alloc, given.pulled, buffer);
        let answer = self.calls.kept(kept)?;
        if self.answers.push(answer).is_err() {
            return Err(self.calls.fail());
        }
        self.spot = given.spot;
        if given.pulled == Pulled::End {
            self.ends = self.ends.saturating_add(1);
        }
        Ok(given.pulled)
    }

    fn put(&mut self, piece: &[u8]) -> Result<(), Failed> {
        self.calls.call()?;
        if self.put.extend_from_slice(piece).is_err() {
            return Err(self.calls.fail());
        }
        Ok(())
    }

    fn ring(&mut self) {}
}
