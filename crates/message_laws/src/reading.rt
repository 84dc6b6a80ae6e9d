//! All frames of a stream that comes in given pieces.
ghost use Rattle.std.specs.Prelude.{◌≡◌, IfOk};
ghost use Rattle.std.specs.List.{flat_map};
ghost use Rattle.fix_frames.specs.Reading.{reading_of};
ghost use Rattle.message_laws.specs.Taking.{Takes, TakesAll};

use fix_frames::{Framer, Next, Reading};
use std::alloc::Global;
use venue_words::{Bytes, Items, NoMemory};

/// What a framer answered, with a copy of the frame.
#[derive(Drop)]
pub(crate) enum Taken {
    Frame(Bytes),
    Wait,
    TooLong,
}

/// Takes the next frame.
fn take_frame(alloc: Global, framer: &mut Framer) -> Result<Taken, NoMemory>
    ensures { IfOk result (λ taken. Takes framer.old taken framer.new) }
{
    match framer.next() {
        Next::Frame(frame) => {
            let frame = Bytes::copy_of(alloc, frame.as_slice())?;
            Ok(Taken::Frame(frame))
        }
        Next::Wait => Ok(Taken::Wait),
        Next::TooLong => Ok(Taken::TooLong),
    }
}

/// Takes all frames that are there, and says whether one that is too long comes behind them.
fn take_frames(
    alloc: Global,
    framer: &mut Framer,
    frames: &mut Items<Bytes>,
) -> Result<bool, NoMemory>
    ensures { IfOk result (λ too_long. TakesAll framer.old frames.old too_long framer.new frames.new) }
{
    loop {
        match take_frame(alloc, framer)? {
            Taken::Frame(frame) => frames.push(frame)?,
            Taken::Wait => return Ok(false),
            Taken::TooLong => return Ok(true),
        }
    }
}

/// The frames of the stream that comes in these pieces, however it was cut into them, and whether one that is too
/// long comes behind the last of them.
pub fn read_frames(alloc: Global, pieces: &[&[u8]]) -> Result<Reading, NoMemory>
    ensures { IfOk result (λ reading. reading ≡ reading_of (flat_map (λ piece. piece.now) pieces.now)) }
{
    let mut framer = Framer::new(alloc);
    let mut frames = Items::new(alloc);
    for piece in pieces {
        framer.feed(piece)?;
        if take_frames(alloc, &mut framer, &mut frames)? {
            return Ok(Reading {
                frames,
                too_long: true,
            });
        }
    }
    Ok(Reading {
        frames,
        too_long: false,
    })
}
