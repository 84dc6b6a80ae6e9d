//! Lines that are put in large pieces.
ghost use Rattle.std.specs.Prelude.{◌≡◌, ◌≤◌, ◌++◌, [], IfOk, OnOk};
ghost use Rattle.venue_words.specs.Causes.{HasCause};
ghost use Rattle.listing.specs.Handing.{HandsOn};
ghost use Rattle.listing.specs.Lines.{symbol_line, event_line, report_line, ended};

use crate::lines::{push_event_line, push_report_line, push_symbol_line};
use io_edge::{Failed, Sink};
use std::alloc::Global;
use std::marker::Model;
use venue_words::{Config, Event, NoMemory, Report};

/// So many bytes are gathered before they are put.
const PIECE: usize = 65_536;

/// Lines that were made and not put yet. They are seen as their bytes.
#[derive(Drop)]
pub struct Pending {
    alloc: Global,
    bytes: Vec<u8>,
    /// Room for the fields of a line that is made.
    fields: Vec<u8>,
}

impl Model for Pending {
    ghost use Rattle.std.specs.Prelude.{List, ℕ};

    ghost Value = { List ℕ };

    ghost view = { λ pending. pending.bytes.items };
}

impl Pending {
    /// No lines, and room for a piece.
    pub fn new(alloc: Global) -> Result<Pending, NoMemory>
        ensures { IfOk result (λ pending. pending ≡ []) }
    {
        let bytes = Vec::with_capacity(alloc, PIECE + PIECE / 4)?;
        Ok(Pending {
            alloc,
            bytes,
            fields: Vec::new(alloc),
        })
    }

    /// Adds the line of a symbol.
    pub fn push_symbol(
        &mut self,
        symbol: &[u8],
        events: usize,
        reports: usize,
    ) -> Result<(), NoMemory>
        ensures { OnOk result (self.new ≡ self.old ++ ended (symbol_line symbol.now events reports)) }
    {
        push_symbol_line(&mut self.bytes, symbol, events, reports)
    }

    /// Adds the line of an event.
    pub fn push_event(
        &mut self,
        config: &Config,
        symbol: u32,
        event: &Event,
    ) -> Result<(), NoMemory>
        ensures { OnOk result (self.new ≡ self.old ++ ended (event_line config.now symbol event.now)) }
    {
        push_event_line(&mut self.bytes, &mut self.fields, config, symbol, event)
    }

    /// Adds the line of a report.
    pub fn push_report(
        &mut self,
        config: &Config,
        symbol: u32,
        report: &Report,
    ) -> Result<(), NoMemory>
        ensures { OnOk result (self.new ≡ self.old ++ ended (report_line config.now symbol report.now)) }
    {
        push_report_line(self.alloc, &mut self.bytes, config, symbol, report)
    }

    /// Puts the lines.
    pub fn put_all<K: Sink>(&mut self, out: &mut K) -> Result<(), Failed>
        ensures text { HandsOn (K.told out.old) (K.told out.new) self.old self.new [] result }
        ensures none { OnOk result (self.new ≡ []) }
        ensures cause { HasCause (K.faults out.old) (K.faults out.new) result }
    {
        out.put(self.bytes.as_slice())?;
        self.bytes.clear();
        Ok(())
    }

    /// Puts the lines where they make up a piece.
    pub fn put_piece<K: Sink>(&mut self, out: &mut K) -> Result<(), Failed>
        ensures text { HandsOn (K.told out.old) (K.told out.new) self.old self.new [] result }
        ensures cause { HasCause (K.faults out.old) (K.faults out.new) result }
    {
        if self.bytes.len() < PIECE {
            return Ok(());
        }
        self.put_all(out)
    }
}
