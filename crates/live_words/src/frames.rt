//! The frame that a line of a transcript has for a member.
ghost use Rattle.std.specs.Prelude.{ℕ, ◌≡◌, ◌+◌, IfOk};
ghost use Rattle.live_words.specs.Frames.{frame_in, frame_for};

use crate::setup::Setup;
use quote_intake::space_at;
use script_text::unescape;
use std::alloc::Global;
use venue_words::NoMemory;

/// A frame that a line of a transcript says, and the member whom it is for.
#[derive(Drop)]
pub struct Addressed {
    pub member: usize,
    pub frame: Vec<u8>,
}

/// The frame of a line, which begins with the name of its member; none where the line has none.
pub fn frame_of(alloc: Global, setup: &Setup, line: &[u8]) -> Result<Option<Addressed>, NoMemory>
    ensures { IfOk result (λ found. (m : ℕ) → frame_in setup.now.members m line.now ≡ frame_for found m) }
{
    let Some(space) = space_at(line) else {
        return Ok(None);
    };
    let Some(member) = setup.member(&line[..space]) else {
        return Ok(None);
    };
    match unescape(alloc, &line[space + 1..])? {
        Some(frame) => Ok(Some(Addressed { member, frame })),
        None => Ok(None),
    }
}
