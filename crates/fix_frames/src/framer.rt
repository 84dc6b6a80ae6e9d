//! The framer: a stream comes in pieces, and its frames go out.
ghost use Rattle.std.specs.Prelude.{◌≡◌, ◌+◌, ◌*◌, ◌≤◌, ◌<◌, ◌++◌, [], length, drop, OnOk, OnErr};
ghost use Rattle.fix_frames.specs.Streams.{Skips, beginning};
ghost use Rattle.fix_frames.specs.Search.{IsFound, EndsWithin};

use crate::place::{Place, place_at};
use fix_fields::{BEGIN_STRING_SIZE, Frame};
use std::alloc::Global;
use std::marker::Model;
use venue_words::NoMemory;

/// What a framer answers.
#[derive(Debug, Drop)]
pub enum Next<'a> {
    /// The next frame, from BeginString (8) to CheckSum (10).
    Frame(Frame<'a>),
    /// There is no further frame yet.
    Wait,
    /// The next frame declares more bytes than `MAX_FRAME_BYTES` in all. The framer answers so from then on. What is
    /// fed then is still kept, so whoever feeds it ends the stream.
    TooLong,
}

/// The first place that is not passed over, and what stands there. Where it is `Passed`, fewer bytes are left than
/// BeginString has.
fn search(bytes: &[u8]) -> (usize, Place)
    ensures inside { result.0 ≤ length bytes.now }
    ensures skips { Skips bytes.now result.0 }
    ensures found { IsFound (drop result.0 bytes.now) result.1 }
    ensures fits { EndsWithin (length bytes.now) result.0 result.1 }
{
    let mut at = 0;
    while at + BEGIN_STRING_SIZE <= bytes.len() {
        match place_at(&bytes[at..]) {
            Place::Passed => at += 1,
            place => return (at, place),
        }
    }
    (at, Place::Passed)
}

/// Takes bytes from the front.
fn drop_front(bytes: &mut Vec<u8>, count: usize)
    requires { count ≤ length bytes.old.items }
    ensures { bytes.new.items ≡ drop count bytes.old.items }
{
    let _dropped = bytes.drain(..count);
}

/// Cuts a stream into frames, however its bytes come. Contracts see it as how many bytes of the stream were passed
/// over or given, the bytes behind them, which are kept, and how many bytes are held in memory.
#[derive(Debug)]
pub struct Framer {
    bytes: Vec<u8>,
    /// The first byte that is kept.
    start: usize,
    /// How many bytes of the stream stand before it.
    passed: u64,
}

// Written out, so that crates above let go of one by this theorem, and not part by part.
impl Drop for Framer {
    fn drop(self) {
        let Framer {
            bytes: _,
            start: _,
            passed: _,
        } = self;
    }
}

impl Model for Framer {
    ghost use Rattle.std.specs.Prelude.{◌+◌, ◌-◌, ◌≤◌, ◌<◌, ◌^◌, length, drop};
    ghost use Rattle.fix_frames.specs.Streams.{Stream};

    ghost Value = { Stream };

    ghost view = { λ f. record {
      passed = f.passed;
      kept = drop f.start f.bytes.items;
      held = length f.bytes.items;
    } };

    ghost invariant = { λ f. (f.start ≤ length f.bytes.items) × (f.passed + (length f.bytes.items - f.start) < 2 ^ 64) };
}

impl Framer {
    ghost use Rattle.std.specs.Borrow.{sem};
    ghost use Rattle.std.specs.Io.BufRead.{Rests};
    ghost use Rattle.fix_frames.specs.contracts.framer.Framer.{the_row};
    ghost use Rattle.fix_frames.specs.Streams.{IsNext};

    /// A framer at the beginning of a stream. This takes no memory.
    pub fn new(alloc: Global) -> Framer
        ensures { result ≡ beginning }
    {
        Framer {
            bytes: Vec::new(alloc),
            start: 0,
            passed: 0,
        }
    }

    /// Appends a piece to the stream. Behind it at most twice as many bytes are held as are kept. It is also refused
    /// where the stream would pass 2^64 - 1 bytes. A refusal leaves the stream as it was.
    pub fn feed(&mut self, piece: &[u8]) -> Result<(), NoMemory>
        ensures passed { self.new.passed ≡ self.old.passed }
        ensures kept { OnOk result (self.new.kept ≡ self.old.kept ++ piece.now) }
        ensures held { OnOk result (self.new.held ≤ 2 * length self.new.kept) }
        ensures err { OnErr result ((self.new.kept ≡ self.old.kept) × (self.new.held ≤ self.old.held)) }
    {
        let kept = self.bytes.len() - self.start;
        if piece.len() as u64 > u64::MAX - self.passed - kept as u64 {
            return Err(NoMemory);
        }
        // What is kept moves to the front only where at least as many bytes stand before it: so each byte that was
        // passed over or given pays for at most one that is moved.
        if self.start >= kept {
            drop_front(&mut self.bytes, self.start);
            self.start = 0;
        }
        match self.bytes.extend_from_slice(piece) {
            Ok(()) => Ok(()),
            Err(_) => Err(NoMemory),
        }
    }

    /// The next frame of the stream so far, the bytes before it being passed over. `Wait` comes exactly where there is
    /// none yet, and then fewer bytes are kept than `MAX_FRAME_BYTES`.
    pub fn next(&mut self) -> Next<'_>
        ensures* after { sem 𝓛 (Rests the_row self.entry (λ new. IsNext self.old result new)) }
    {
        let (at, place) = search(&self.bytes[self.start..]);
        self.start += at;
        self.passed += at as u64;
        match place {
            Place::Whole { size, front } => {
                let begin = self.start;
                self.start += size;
                self.passed += size as u64;
                Next::Frame(Frame::with_front(&self.bytes[begin..begin + size], front))
            }
            Place::Long => Next::TooLong,
            Place::Passed | Place::Unfinished => Next::Wait,
        }
    }
}
