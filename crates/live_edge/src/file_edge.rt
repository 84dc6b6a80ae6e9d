//! A day without sockets: its lines are given, and what they yield goes to a sink.
ghost use Rattle.std.specs.Prelude.{◌≡◌, ◌≤◌, ◌<◌, ◌+◌, ◌++◌, [], length, take, All, IfOk, OnErr, true};
ghost use Rattle.day_journal.specs.Log.{IsShortLine};
ghost use Rattle.venue_words.specs.Causes.{Rose};

use crate::story::{Step, Story};
use io_edge::{Failed, Sink};
use live_core::{Edge, Going};
use live_words::push_copy;
use std::alloc::Global;
use std::marker::Model;
use venue_words::{Bytes, NoMemory};

/// The lines of a day, and how many of them were brought.
#[derive(Drop)]
struct Script {
    lines: Vec<Bytes>,
    next: usize,
}

impl Model for Script {
    ghost use Rattle.std.specs.Prelude.{◌≤◌, ℕ, List, length, All};
    ghost use Rattle.day_journal.specs.Log.{IsShortLine};

    ghost Value = { List (List ℕ) × ℕ };

    ghost view = { λ s. (s.lines.items, s.next) };

    ghost invariant = { λ s. (s.next ≤ length s.lines.items) × All IsShortLine s.lines.items };
}

impl Script {
    fn new(lines: Vec<Bytes>) -> Script
        requires { All IsShortLine lines.items }
        ensures { result ≡ (lines.items, 0) }
    {
        Script { lines, next: 0 }
    }

    /// Adds the next lines, at most so many, and says whether there were any.
    fn take(&mut self, alloc: Global, most: usize, lines: &mut Vec<Bytes>) -> Result<bool, NoMemory>
        requires empty { lines.old.items ≡ [] }
        ensures next { IfOk result (λ _. take self.new.1 self.new.0 ≡ take self.old.1 self.old.0 ++ lines.new.items) }
        ensures short { IfOk result (λ _. All IsShortLine lines.new.items) }
        ensures some { IfOk result (λ some. some ≡ true → self.old.1 < self.new.1) }
        ensures within { self.new.1 ≤ length self.new.0 }
        ensures lines { self.new.0 ≡ self.old.0 }
        ensures err { OnErr result (self.new ≡ self.old) }
    {
        let mut at = self.next;
        while at < self.lines.len() && lines.len() < most {
            push_copy(alloc, self.lines[at].as_slice(), lines)?;
            at += 1;
        }
        let some = self.next < at;
        self.next = at;
        Ok(some)
    }
}

/// A day whose lines are given: so many of them come in a round, and the last round is the end. What they yield goes to a sink.
#[derive(Drop)]
pub struct FileEdge<S: Sink> {
    alloc: Global,
    script: Script,
    each: usize,
    sink: S,
    faults: u64,
    story: Story,
}

impl<S: Sink> FileEdge<S> {
    /// Over the lines of a day, so many in each round.
    pub fn new(alloc: Global, lines: Vec<Bytes>, each: usize, sink: S) -> FileEdge<S>
        requires short { All IsShortLine lines.items }
        ensures brought { ⟦<FileEdge<S> as Edge>⟧.brought result ≡ [] }
        ensures told { ⟦<FileEdge<S> as Edge>⟧.told result ≡ [] }
    {
        FileEdge {
            alloc,
            script: Script::new(lines),
            each,
            sink,
            faults: 0,
            story: Story::new(),
        }
    }

    /// Counts a fault of this edge.
    fn fail(&mut self) -> Failed
        ensures same { self.new ≡ record self.old { faults = self.new.faults } }
        ensures later { self.old.faults ≤ self.new.faults }
        ensures rose { Rose (S.faults self.old.sink + self.old.faults) (S.faults self.new.sink + self.new.faults) }
    {
        self.faults = self.faults.saturating_add(1);
        Failed
    }
}

impl<S: Sink> Edge for FileEdge<S> {
    ghost use Rattle.std.specs.Prelude.{◌+◌, ◌-◌, take, length};
    ghost use Rattle.ports.specs.Cuts.{joined};

    ghost faults = { λ e. S.faults e.sink + e.faults };

    ghost brought = { λ e. take e.script.1 e.script.0 };

    ghost told = { λ e. joined e.story.tale.told };

    ghost rounds_left = { λ e. length e.script.0 - e.script.1 };

    fn begin(&mut self, _had: &[Bytes]) {}

    fn round(&mut self, lines: &mut Vec<Bytes>) -> Result<Going, Failed> {
        match self.script.take(self.alloc, self.each, lines) {
            Ok(true) => Ok(Going::On),
            Ok(false) => Ok(Going::Stop),
            Err(_) => Err(self.fail()),
        }
    }

    #[tactic(auto, using(crate::proofs::LineLaws::joined_more))]
    fn put(&mut self, text: &[u8]) -> Result<(), Failed> {
        match self.sink.put(text) {
            Ok(()) => {
                self.story = self.story.then(&Step::Told(text));
                Ok(())
            }
            Err(_) => Err(self.fail()),
        }
    }
}
