//! Days over disks, edges and machines in memory.
ghost use Rattle.std.specs.Prelude.{◌≡◌, All, None, IfOk};
ghost use Rattle.day_journal.specs.Log.{IsShortLine};
ghost use Rattle.day_journal.specs.MemDisks.{name_in};

mod lines;
mod mem_edge;
mod random;

use day_journal::{Disk, MemDisk, open};
use io_edge::{MemShelf, MemSink};
use lines::{HEADER, random_lines};
use live_core::{DayEnd, LiveEnd, serve_day};
use live_machine::{BookMachine, PhaseMachine};
use mem_edge::MemEdge;
use replay_core::replay::replay;
use std::alloc::Global;
use std::marker::Brand;
use std::sync::ledger::{Blank, Ledger};
use std::test::Fail;
use venue_words::limits::MAX_LINE_BYTES;
use venue_words::{Bytes, Steps};

/// How a day ended, the lines of its journal as a text, and what it put.
#[derive(Drop)]
struct Outcome {
    end: DayEnd,
    journal: Vec<u8>,
    kept: Vec<u8>,
    put: Vec<u8>,
}

/// Which call of a day fails, counted from 1; none is 0.
#[derive(Clone, Copy, Debug)]
struct Fails {
    disk: u64,
    edge: u64,
}

const NONE: Fails = Fails { disk: 0, edge: 0 };

/// The lines of a text.
fn lines_of(alloc: Global, text: &[u8]) -> Result<Vec<Bytes>, Fail>
    ensures { IfOk result (λ lines. All IsShortLine lines.items) }
{
    let mut lines = Vec::new(alloc);
    for line in text.split(|byte| *byte == b'\n') {
        if line.len() > MAX_LINE_BYTES {
            return Err("a long line".into());
        }
        if !line.is_empty() {
            lines.push(Bytes::copy_of(alloc, line)?)?;
        }
    }
    Ok(lines)
}

/// The lines of a journal of these bytes, each with an LF.
fn text_of(alloc: Global, journal: &[u8]) -> Result<Vec<u8>, Fail> {
    let mut disk = MemDisk::new(journal.to_vec(alloc)?, Vec::new(alloc));
    if disk.begin("j").is_err() {
        return Err("not begun".into());
    }
    let Ok((_, lines)) = open(alloc, disk) else {
        return Err("not opened".into());
    };
    let mut text = Vec::new(alloc);
    for line in &lines {
        text.extend_from_slice(line.as_slice())?;
        text.push(b'\n')?;
    }
    Ok(text)
}

/// A text after another.
fn joined(alloc: Global, first: &[u8], second: &[u8]) -> Result<Vec<u8>, Fail> {
    let mut text = first.to_vec(alloc)?;
    text.extend_from_slice(second)?;
    Ok(text)
}

fn replayed<L: Ledger>(alloc: Global, text: &[u8], blank: Blank) -> Result<Vec<u8>, Fail>
    requires blank { (blank.name ≡ L.name) × (blank.parts ≡ L.parts) × (L.parts ≡ 1) }
{
    let mut files = Vec::new(alloc);
    files.push((String::from_str(alloc, "s")?, text.to_vec(alloc)?))?;
    let mut shelf = MemShelf::new(files, 4096, Vec::new(alloc));
    let mut words = Vec::new(alloc);
    words.push(String::from_str(alloc, "s")?)?;
    let mut out = MemSink::new(alloc, Vec::new(alloc));
    let mut err = MemSink::new(alloc, Vec::new(alloc));
    let mut steps: Steps<L> = Steps::start(blank);
    replay(
        alloc,
        words.as_slice(),
        &mut shelf,
        &mut out,
        &mut err,
        &mut steps,
    );
    Ok(out.bytes().to_vec(alloc)?)
}

/// What a replay prints of a script.
fn transcript(alloc: Global, text: &[u8]) -> Result<Vec<u8>, Fail> {
    replayed::<Brand>(alloc, text, Blank::new(1))
}

fn served<L: Ledger>(
    alloc: Global,
    head: Vec<Bytes>,
    disk: MemDisk,
    edge: &mut MemEdge,
    blank: Blank,
) -> (DayEnd, MemDisk)
    requires fresh { name_in disk ≡ None }
    requires short { All IsShortLine head.items }
    requires blank { (blank.name ≡ L.name) × (blank.parts ≡ L.parts) × (L.parts ≡ 1) }
{
    let mut machine: BookMachine<L> = PhaseMachine::new(alloc, Steps::start(blank));
    serve_day(alloc, &mut machine, head, disk, "j", edge)
}

/// A day over a journal of these bytes, whose lines come in rounds of up to forty, and one of whose calls fails.
fn day(alloc: Global, lines: &[u8], journal: &[u8], fails: Fails) -> Result<Outcome, Fail> {
    let head = lines_of(alloc, HEADER.as_bytes())?;
    let disk = MemDisk::new(journal.to_vec(alloc)?, vec![in alloc; fails.disk]?);
    let mut edge = MemEdge::new(
        alloc,
        lines_of(alloc, lines)?,
        40,
        vec![in alloc; fails.edge]?,
    );
    let (end, disk) = served::<Brand>(alloc, head, disk, &mut edge, Blank::new(1));
    Ok(Outcome {
        end,
        journal: disk.bytes().to_vec(alloc)?,
        kept: text_of(alloc, disk.bytes())?,
        put: edge.put_text().to_vec(alloc)?,
    })
}

/// A day of so many lines as a script, and what a replay prints of it.
fn script_of(alloc: Global, count: u32) -> Result<(Vec<u8>, Vec<u8>), Fail> {
    let lines = random_lines(alloc, 41, count)?;
    let script = joined(alloc, HEADER.as_bytes(), lines.as_bytes())?;
    let whole = transcript(alloc, &script)?;
    Ok((script, whole))
}

#[test]
fn a_day_in_rounds_puts_what_a_replay_prints(rt: HostRuntime) -> Result<(), Fail> {
    let alloc = rt.alloc();
    let (script, whole) = script_of(alloc, 500)?;
    assert!(rt;
        script.len() > 30_000 && whole.len() > 60_000,
        "{} {}",
        script.len(),
        whole.len()
    );
    let lived = day(alloc, &script[HEADER.len().min(script.len())..], &[], NONE)?;
    assert!(rt;
        lived.end == DayEnd::Lived(LiveEnd::Stopped),
        "{:?}",
        lived.end
    );
    assert!(rt; lived.kept == script && lived.put == whole);
    Ok(())
}

/// How a day ends one of whose calls fails, where all is well: what it put is a beginning of what its journal's lines yield, and a day
/// that is begun again over the journal, with the lines that are not in it, keeps them all and puts the rest.
fn end_of(
    alloc: Global,
    script: &[u8],
    whole: &[u8],
    fails: Fails,
) -> Result<Option<DayEnd>, Fail> {
    let broken = day(alloc, &script[HEADER.len().min(script.len())..], &[], fails)?;
    let had = transcript(alloc, &broken.kept)?;
    let begun = broken.kept.len().max(HEADER.len()).min(script.len());
    let after = day(alloc, &script[begun..], &broken.journal, NONE)?;
    let is_well = had.starts_with(&broken.put)
        && after.end == DayEnd::Lived(LiveEnd::Stopped)
        && after.kept.as_slice() == script
        && joined(alloc, &had, &after.put)?.as_slice() == whole;
    Ok(is_well.then_some(broken.end))
}

#[test]
fn a_day_that_was_cut_at_any_call_goes_on_where_its_journal_ends(
    rt: HostRuntime,
) -> Result<(), Fail> {
    let alloc = rt.alloc();
    let (script, whole) = script_of(alloc, 500)?;
    let mut stops = 0_u32;
    let mut disk_is_on = true;
    let mut edge_is_on = true;
    for call in 1..2_000_u64 {
        if !disk_is_on && !edge_is_on {
            break;
        }
        if disk_is_on {
            let end = end_of(
                alloc,
                &script,
                &whole,
                Fails {
                    disk: call,
                    edge: 0,
                },
            )?;
            assert!(rt; end.is_some(), "call {call} of the disk");
            disk_is_on = end != Some(DayEnd::Lived(LiveEnd::Stopped));
            stops = stops.saturating_add(1);
        }
        if edge_is_on {
            let end = end_of(
                alloc,
                &script,
                &whole,
                Fails {
                    disk: 0,
                    edge: call,
                },
            )?;
            assert!(rt; end.is_some(), "call {call} of the edge");
            edge_is_on = end != Some(DayEnd::Lived(LiveEnd::Stopped));
            stops = stops.saturating_add(1);
        }
    }
    assert!(rt; !disk_is_on && !edge_is_on && stops > 140, "{stops}");
    Ok(())
}

#[test]
fn a_refused_line_is_left_out_and_a_full_symbol_ends_the_day(rt: HostRuntime) -> Result<(), Fail> {
    let alloc = rt.alloc();
    let refused = day(alloc, b"Q Z N 10.00 10.01\nQ X N 10.00 10.01\n", &[], NONE)?;
    let kept = joined(alloc, HEADER.as_bytes(), b"Q X N 10.00 10.01\n")?;
    assert!(rt; refused.end == DayEnd::Lived(LiveEnd::Stopped) && refused.kept == kept);

    // The symbol takes four hundred events.
    let mut quotes = Vec::new(alloc);
    for _ in 0..401 {
        quotes.extend_from_slice(b"Q X N 1.00 1.01\n")?;
    }
    let full = day(alloc, &quotes, &[], NONE)?;
    assert!(rt;
        full.end == DayEnd::Lived(LiveEnd::Halted) && full.kept.len() < HEADER.len() + 6_400
    );
    Ok(())
}
