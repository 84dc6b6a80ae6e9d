//! A day of the lines of a file, without sockets.
ghost use Rattle.std.specs.Prelude.{◌≡◌};

use crate::config::{Head, lines_in, read_head, tell_unread};
use crate::exit::Exit;
use crate::words::Day;
use day_journal::FileDisk;
use io_edge::{Sink, StreamSink};
use live_core::{DayEnd, serve_day};
use live_edge::FileEdge;
use live_machine::{BookMachine, PhaseMachine};
use std::sync::ledger::{Blank, Ledger};
use venue_words::Steps;

/// How many lines of the file make a round.
const LINES_OF_ROUND: usize = 64;

/// Works the lines of a file as a day, and prints what members would be sent.
pub fn work<L: Ledger>(rt: &HostRuntime, day: Day<'_>, file: &str, blank: Blank) -> Exit
    requires { (blank.name ≡ L.name) × (blank.parts ≡ L.parts) × (L.parts ≡ 1) }
{
    let head = match read_head(rt, day.config) {
        Ok(Head { config: _, lines }) => lines,
        Err(exit) => return exit,
    };
    let Ok(lines) = lines_in(rt, file) else {
        return match tell_unread(rt, file) {
            Ok(()) => Exit::Unread,
            Err(_) => Exit::Unwritten,
        };
    };
    let out = StreamSink::new(rt.stdout());
    let mut edge = FileEdge::new(rt.alloc(), lines, LINES_OF_ROUND, out);
    let mut machine: BookMachine<L> = PhaseMachine::new(rt.alloc(), Steps::start(blank));
    let (end, disk) = serve_day(
        rt.alloc(),
        &mut machine,
        head,
        FileDisk::new(rt),
        day.journal,
        &mut edge,
    );
    if end == DayEnd::DiskFault && disk.is_held_elsewhere() {
        return Exit::Held;
    }
    Exit::Day(end)
}
