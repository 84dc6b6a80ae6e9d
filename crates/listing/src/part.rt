//! The part of one symbol.
ghost use Rattle.std.specs.Prelude.{◌≡◌, ◌≤◌, ◌++◌, [], Err, length, take, drop};
ghost use Rattle.std.specs.List.{flat_map};
ghost use Rattle.venue_words.specs.Causes.{Rose};
ghost use Rattle.io_edge.specs.Grows.{Puts};
ghost use Rattle.listing.specs.declared.part.ListingFault.TheVariants.{WriteFault};
ghost use Rattle.listing.specs.Handing.{HandsOn};
ghost use Rattle.listing.specs.Listing.{IsInOrder, event_text, part_text};
ghost use Rattle.listing.specs.Lines.{report_line, ended};
ghost use Rattle.listing.specs.Walking.{count_of, walked};

use crate::commands::name_at;
use crate::pending::Pending;
use io_edge::{Failed, Sink};
use std::alloc::Global;
use venue_words::{Config, Event, NoMemory, Report};

/// A symbol's journal and the reports that it made.
#[derive(Clone, Copy, Debug)]
pub struct SymbolPart<'a> {
    pub config: &'a Config,
    /// The symbol's number in the config.
    pub symbol: u32,
    pub journal: &'a [Event],
    pub reports: &'a [Report],
}

/// Why a listing was not written to its end. A beginning of it was put.
#[derive(Clone, Copy, Debug, PartialEq, Eq, Drop)]
pub enum ListingFault {
    /// A put failed.
    WriteFault,
    NoMemory,
}

impl From<NoMemory> for ListingFault {
    ghost use Rattle.std.specs.Prelude.{◌≡◌};
    ghost use Rattle.listing.specs.declared.part.ListingFault.TheVariants.{NoMemory};

    ghost from_gives = { λ _ fault. fault ≡ NoMemory };

    fn from(_error: NoMemory) -> ListingFault {
        ListingFault::NoMemory
    }
}

impl From<Failed> for ListingFault {
    ghost use Rattle.std.specs.Prelude.{◌≡◌};
    ghost use Rattle.listing.specs.declared.part.ListingFault.TheVariants.{WriteFault};

    ghost from_gives = { λ _ fault. fault ≡ WriteFault };

    fn from(_error: Failed) -> ListingFault {
        ListingFault::WriteFault
    }
}

/// How many of the first reports are of the event with this number.
fn count_of(number: u32, reports: &[Report]) -> usize
    ensures value { result ≡ count_of number reports.now }
    ensures within { result ≤ length reports.now }
{
    reports
        .iter()
        .take_while(|report| report.event == number)
        .count()
}

/// Writes reports, each in a line.
fn write_reports<K: Sink>(
    pending: &mut Pending,
    part: &SymbolPart<'_>,
    told: &[Report],
    out: &mut K,
) -> Result<(), ListingFault>
    ensures text { HandsOn (K.told out.old) (K.told out.new) pending.old pending.new
        (flat_map (λ report. ended (report_line part.now.config.now part.now.symbol report)) told.now) result }
    ensures later { K.faults out.old ≤ K.faults out.new }
    ensures cause { result ≡ Err WriteFault → Rose (K.faults out.old) (K.faults out.new) }
{
    for report in told {
        pending.push_report(part.config, part.symbol, report)?;
        pending.put_piece(out)?;
    }
    Ok(())
}

/// Writes an event, and behind it the reports that it made.
#[tactic(auto, unfolding(crate::specs::Listing::event_text))]
fn write_event<K: Sink>(
    pending: &mut Pending,
    part: &SymbolPart<'_>,
    event: &Event,
    told: &[Report],
    out: &mut K,
) -> Result<(), ListingFault>
    ensures text { HandsOn (K.told out.old) (K.told out.new) pending.old pending.new
        (event_text part.now.config.now part.now.symbol event.now told.now) result }
    ensures later { K.faults out.old ≤ K.faults out.new }
    ensures cause { result ≡ Err WriteFault → Rose (K.faults out.old) (K.faults out.new) }
{
    pending.push_event(part.config, part.symbol, event)?;
    pending.put_piece(out)?;
    write_reports(pending, part, told, out)
}

/// Writes each event with its reports.
fn write_events<K: Sink>(
    pending: &mut Pending,
    part: &SymbolPart<'_>,
    out: &mut K,
) -> Result<(), ListingFault>
    ensures text { HandsOn (K.told out.old) (K.told out.new) pending.old pending.new
        (walked part.now.config.now part.now.symbol part.now.journal.now part.now.reports.now) result }
    ensures later { K.faults out.old ≤ K.faults out.new }
    ensures cause { result ≡ Err WriteFault → Rose (K.faults out.old) (K.faults out.new) }
{
    let mut rest = part.reports;
    for event in part.journal {
        let (told, later) = rest.split_at(count_of(event.number, rest));
        write_event(pending, part, event, told, out)?;
        rest = later;
    }
    Ok(())
}

/// Writes the part of a symbol: how many events and reports there are, and then each event with its reports behind it. It
/// goes out in pieces of about 64 KiB. After a fault a beginning of it was put.
pub fn write_part<K: Sink>(
    alloc: Global,
    part: &SymbolPart<'_>,
    out: &mut K,
) -> Result<(), ListingFault>
    requires { IsInOrder part.now.journal.now part.now.reports.now }
    ensures text { Puts (K.told out.old) (K.told out.new) result
        (part_text part.now.config.now part.now.symbol part.now.journal.now part.now.reports.now) }
    ensures later { K.faults out.old ≤ K.faults out.new }
    ensures cause { result ≡ Err WriteFault → Rose (K.faults out.old) (K.faults out.new) }
{
    let mut pending = Pending::new(alloc)?;
    let symbol = name_at(part.config.symbols.as_slice(), part.symbol);
    pending.push_symbol(symbol, part.journal.len(), part.reports.len())?;
    write_events(&mut pending, part, out)?;
    pending.put_all(out)?;
    Ok(())
}
