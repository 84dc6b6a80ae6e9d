//! Works a day that outlives a crash: `pegday SCRIPT JOURNAL` keeps each line of the script in the journal before it puts the
//! line's output, and after a crash goes on from what the journal has.
#![tactic(auto)]

ghost use Rattle.std.specs.Prelude.{◌≡◌};

use day_core::DayStatus;
use day_core::day::{day, refuse_words};
use day_core::status::exit_code;
use day_journal::FileDisk;
use io_edge::{FileShelf, StreamSink};
use program_words::arguments::arguments;
use std::marker::Brand;
use std::process::ExitCode;
use std::sync::ledger::{Blank, Ledger};
use terminal_hints::{Hint, named, word_at};
use venue_words::Steps;

const USAGE: &str =
    "usage: pegday SCRIPT JOURNAL\nJOURNAL is made where it is not there; run the same words again after a crash.";

const DIFFERS: &str =
    "  the journal was kept of another script, or the script was changed there: name a new journal, or the script as it was";

const DAMAGED: &str =
    "  the journal is cut off or was changed by something else: restore it, or begin a new one";

const HELD: &str =
    "  another program works over this journal: wait until it has ended, or end it, and start again";

/// Runs over the files and streams of the system, and says whether another program holds the journal.
fn run<L: Ledger>(rt: &HostRuntime, words: &[String], blank: Blank) -> (DayStatus, bool)
    requires { (blank.name ≡ L.name) × (blank.parts ≡ L.parts) × (L.parts ≡ 1) }
{
    let mut shelf = FileShelf::new(rt);
    let mut out = StreamSink::new(rt.stdout());
    let mut err = StreamSink::new(rt.stderr());
    let mut steps: Steps<L> = Steps::start(blank);
    let (status, disk) = day(
        rt.alloc(),
        words,
        &mut shelf,
        FileDisk::new(rt),
        &mut out,
        &mut err,
        &mut steps,
    );
    (status, disk.is_held_elsewhere())
}

/// What a person is told of the status.
fn hint_of(status: DayStatus, is_held: bool, words: &[String]) -> Hint<'_> {
    let file = word_at(words, 0);
    match status {
        DayStatus::Done | DayStatus::NoMemory => Hint::Nothing,
        DayStatus::BadWords => Hint::Text(USAGE),
        DayStatus::BadLine { line, cause } => Hint::BadLine { file, line, cause },
        DayStatus::LimitLine { line, which } => Hint::LimitLine { file, line, which },
        DayStatus::Differs { .. } => Hint::Text(DIFFERS),
        DayStatus::Damaged { .. } => Hint::Text(DAMAGED),
        DayStatus::DiskFault if is_held => Hint::Text(HELD),
        DayStatus::DiskFault | DayStatus::ReadFault => Hint::Unread(named(words)),
        DayStatus::WriteFault => Hint::Unwritten,
    }
}

fn main(rt: HostRuntime) -> ExitCode {
    let status = match arguments(&rt) {
        Ok(words) => {
            let (status, is_held) = run::<Brand>(&rt, words.as_slice(), Blank::new(1));
            hint_of(status, is_held, words.as_slice()).show(&rt);
            status
        }
        Err(fault) => refuse_words(fault, &mut StreamSink::new(rt.stderr())),
    };
    ExitCode::from(exit_code(status))
}
