//! A script, explained line by line.
ghost use Rattle.std.specs.Prelude.{◌≡◌, ◌≤◌, Err};
ghost use Rattle.venue_words.specs.Causes.{Rose};
ghost use Rattle.replay_core.specs.declared.status.Status.{Status};
ghost use Rattle.replay_core.specs.declared.status.Status.TheVariants as status;

use crate::frames::push;
use crate::head::Head;
use crate::sent::push_sent;
use crate::watcher::Watcher;
use fix_write::digits::push_number;
use io_edge::Sink;
use replay_core::Status;
use replay_core::phase::{Phase, turn};
use replay_core::status::status_of;
use script_text::lines::cut_line;
use script_text::{Header, LimitCause, LineCause, LineFault};
use std::alloc::Global;
use std::marker::Model;
use std::mem::replace;
use std::sync::ledger::Ledger;
use symbol_book::Book;
use venue_core::PlainVenue;
use venue_words::limits::{MAX_LINE_BYTES, MAX_SCRIPT_BYTES};
use venue_words::{NoMemory, Steps};

/// So many bytes of a line are shown.
const SHOWN: usize = 100;

/// Who tells of the lines: of a header's nothing.
#[derive(Drop)]
enum Telling {
    Head(Head),
    Body(Watcher),
}

/// Appends a line with its number.
fn push_text(out: &mut Vec<u8>, number: u32, text: &[u8]) -> Result<(), NoMemory> {
    push_number(out, u64::from(number))?;
    push(out, " ")?;
    match text.get(..SHOWN) {
        Some(shown) => {
            out.extend_from_slice(shown)?;
            push(out, "..\n")
        }
        None => {
            out.extend_from_slice(text)?;
            push(out, "\n")
        }
    }
}

/// Tells of a line.
fn tell_line(
    alloc: Global,
    telling: &mut Telling,
    number: u32,
    text: &[u8],
    out: &mut Vec<u8>,
) -> Result<(), NoMemory> {
    match telling {
        Telling::Head(head) => {
            if let Ok(true) = head.line(alloc, number, text) {
                let whole = replace(head, Head::new(alloc));
                *telling = Telling::Body(Watcher::new(alloc, whole.into_config())?);
            }
            Ok(())
        }
        Telling::Body(watcher) => watcher.line(text, out),
    }
}

/// Works the lines of a script, and tells of each.
#[derive(Drop)]
struct Explainer {
    alloc: Global,
    phase: Phase<PlainVenue<Book>>,
    telling: Telling,
    /// How many lines were told.
    lines: u32,
    told: Vec<u8>,
    sent: Vec<u8>,
}

impl Model for Explainer {
    ghost use Rattle.std.specs.Prelude.{ℕ};
    ghost use Rattle.replay_core.specs.Phases.{IsReady};

    ghost Value = { ℕ };

    ghost view = { λ e. e.lines };

    ghost invariant = { λ e. IsReady e.phase };
}

impl Explainer {
    /// Before the first line.
    fn new(alloc: Global) -> Explainer {
        Explainer {
            alloc,
            phase: Phase::Head(Header::new(alloc)),
            telling: Telling::Head(Head::new(alloc)),
            lines: 0,
            told: Vec::new(alloc),
            sent: Vec::new(alloc),
        }
    }

    /// Whether the header has ended.
    fn is_in_body(&self) -> bool {
        match self.phase {
            Phase::Body(_) => true,
            _ => false,
        }
    }

    /// Works a line, and tells of it.
    fn work<L: Ledger>(&mut self, text: &[u8], steps: &mut Steps<L>) -> Result<(), LineFault> {
        let number = self.lines.saturating_add(1);
        self.lines = number;
        self.told.clear();
        self.sent.clear();
        if text.len() > MAX_LINE_BYTES {
            return Err(LineFault::Limit {
                line: number,
                which: LimitCause::Line,
            });
        }
        push_text(&mut self.told, number, text)?;
        tell_line(self.alloc, &mut self.telling, number, text, &mut self.told)?;
        turn(
            self.alloc,
            &mut self.phase,
            number,
            text,
            &mut self.sent,
            steps,
        )?;
        push_sent(&mut self.told, self.sent.as_slice())?;
        Ok(())
    }

    /// Works a line, and puts what is told of it.
    fn line<K: Sink, L: Ledger>(
        &mut self,
        text: &[u8],
        out: &mut K,
        steps: &mut Steps<L>,
    ) -> Result<(), Status>
        ensures later { K.faults out.old ≤ K.faults out.new }
        ensures write { result ≡ Err Status.WriteFault → Rose (K.faults out.old) (K.faults out.new) }
    {
        if let Err(fault) = self.work(text, steps) {
            return Err(status_of(fault));
        }
        match out.put(self.told.as_slice()) {
            Ok(()) => Ok(()),
            Err(_) => Err(Status::WriteFault),
        }
    }
}

/// Tells of each line of a script, and says how it ended.
fn explain_lines<K: Sink, L: Ledger>(
    explainer: &mut Explainer,
    script: &[u8],
    out: &mut K,
    steps: &mut Steps<L>,
) -> Status
    ensures later { K.faults out.old ≤ K.faults out.new }
    ensures write { result ≡ Status.WriteFault → Rose (K.faults out.old) (K.faults out.new) }
{
    let mut rest = script;
    'lines: for _ in 0..script.len() {
        let Some((line, more)) = cut_line(rest) else {
            break 'lines;
        };
        if let Err(status) = explainer.line(line, out, steps) {
            return status;
        }
        rest = more;
    }
    if explainer.is_in_body() && rest.is_empty() {
        return Status::Done;
    }
    Status::BadLine {
        line: explainer.lines.saturating_add(1),
        cause: LineCause::NoEnd,
    }
}

/// Tells of each line of a script: what it is, what a member's session makes of each message, what is sent behind it, and which rule
/// an order broke. A script of more bytes than one may have is refused at its first line. Nothing is promised of the text.
pub fn explain<K: Sink, L: Ledger>(
    alloc: Global,
    script: &[u8],
    out: &mut K,
    steps: &mut Steps<L>,
) -> Status
    ensures later { K.faults out.old ≤ K.faults out.new }
    ensures write { result ≡ Status.WriteFault → Rose (K.faults out.old) (K.faults out.new) }
{
    if script.len() as u64 > MAX_SCRIPT_BYTES {
        return Status::LimitLine {
            line: 1,
            which: LimitCause::Bytes,
        };
    }
    let mut explainer = Explainer::new(alloc);
    let status = explain_lines(&mut explainer, script, out, steps);
    drop(explainer);
    status
}
