//! Lines that are put in large pieces.
ghost use Rattle.std.specs.Prelude.{◌≡◌, ◌<◌, [], length, IfOk, OnOk};
ghost use Rattle.venue_words.specs.Causes.{HasCause};
ghost use Rattle.audit_core.specs.Telling.{SaysOn};
ghost use Rattle.audit_tables.specs.declared.lines.TheConstants.{PIECE};

use io_edge::{Failed, Sink};
use std::alloc::Global;
use venue_words::NoMemory;

/// So many bytes are gathered before they are put.
const PIECE: usize = 65_536;

/// Lines that were made and not put yet, and where they go.
#[derive(Drop)]
pub struct Lines<K: Drop> {
    pub bytes: Vec<u8>,
    pub out: K,
}

impl<K: Sink + Drop> Lines<K> {
    /// No lines, and room for a piece.
    pub fn new(alloc: Global, out: K) -> Result<Lines<K>, NoMemory>
        ensures none { IfOk result (λ lines. lines.bytes.items ≡ []) }
        ensures out { IfOk result (λ lines. lines.out ≡ out) }
    {
        let bytes = Vec::with_capacity(alloc, PIECE + PIECE / 4)?;
        Ok(Lines { bytes, out })
    }

    /// Puts the lines.
    pub fn put_all(&mut self) -> Result<(), Failed>
        ensures text { SaysOn (record { told = K.told self.old.out; held = self.old.bytes.items })
            (record { told = K.told self.new.out; held = self.new.bytes.items }) [] result }
        ensures none { OnOk result (self.new.bytes.items ≡ []) }
        ensures cause { HasCause (K.faults self.old.out) (K.faults self.new.out) result }
    {
        self.out.put(self.bytes.as_slice())?;
        self.bytes.clear();
        Ok(())
    }

    /// Puts the lines where they make up a piece.
    pub fn put_piece(&mut self) -> Result<(), Failed>
        ensures text { SaysOn (record { told = K.told self.old.out; held = self.old.bytes.items })
            (record { told = K.told self.new.out; held = self.new.bytes.items }) [] result }
        ensures few { OnOk result (length self.new.bytes.items < PIECE) }
        ensures cause { HasCause (K.faults self.old.out) (K.faults self.new.out) result }
    {
        if self.bytes.len() < PIECE {
            return Ok(());
        }
        self.put_all()
    }
}
