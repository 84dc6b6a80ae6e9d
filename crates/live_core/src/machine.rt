//! What works lines.
ghost use Rattle.std.specs.Prelude.{◌≡◌, ◌++◌, [], ℕ, List, Option, None, Err, All, IfOk};
ghost use Rattle.day_journal.specs.Log.{IsShortLine};
ghost use Rattle.live_core.specs.Lines.{Answers, kept, output, AreNotTaken, IsResumed};

use std::alloc::{AllocFailed, Global};
use venue_words::Bytes;

/// Why a machine did not work a line to its end. It has then taken part of the line, and is good for nothing more.
#[derive(Clone, Copy, Debug, PartialEq, Eq)]
pub enum Halt {
    /// Out of memory.
    NoMemory,
    /// The line is refused, and the machine can't go back: the day ends, and begins again from its journal.
    Halted,
}

impl<T: Drop> From<AllocFailed<T>> for Halt {
    ghost use Rattle.live_core.specs.declared.machine.Halt.TheVariants.{NoMemory as memory};

    ghost from_gives = { λ _ halt. halt ≡ memory };

    fn from(_error: AllocFailed<T>) -> Halt {
        Halt::NoMemory
    }
}

/// A machine that works one line after another. What a line yields is decided by the lines before it, and by it.
pub trait Machine {
    /// What a line yields after those that were taken before it; nothing, where it is refused.
    ghost yields: { List (List ℕ) → List ℕ → Option (List ℕ) };

    /// Whether a machine has taken exactly these lines.
    ghost has_taken: { Self → List (List ℕ) → Type 0 };

    /// Takes a line, and adds what it yields; or refuses it, and is as it was.
    fn line(&mut self, text: &[u8], out: &mut Vec<u8>) -> Result<bool, Halt>
        ensures answer { IfOk result (λ taken. (past : List (List ℕ)) → has_taken self.old past
            → Answers (has_taken self.new) (yields past text.now) past text.now out.old.items out.new.items taken) }
        ensures halted { result ≡ Err Halt.Halted → (past : List (List ℕ)) → has_taken self.old past → yields past text.now ≡ None };
}

/// Works lines, takes out those that are refused, and adds what the others yield.
pub(crate) fn work_all<M: Machine>(
    alloc: Global,
    machine: &mut M,
    lines: Vec<Bytes>,
    out: &mut Vec<u8>,
) -> Result<Vec<Bytes>, Halt>
    requires short { All IsShortLine lines.items }
    ensures worked { IfOk result (λ taken. (past : List (List ℕ)) → M.has_taken machine.old past →
        (taken.items ≡ kept M.yields past lines.items) × (out.new.items ≡ out.old.items ++ output M.yields past lines.items)
        × M.has_taken machine.new (past ++ taken.items)) }
    ensures halted { result ≡ Err Halt.Halted → (past : List (List ℕ)) → M.has_taken machine.old past → AreNotTaken M.yields past lines.items }
    ensures short { IfOk result (λ taken. All IsShortLine taken.items) }
{
    let mut taken = Vec::new(alloc);
    for line in lines {
        if machine.line(line.as_slice(), out)? {
            taken.push(line)?;
        }
    }
    Ok(taken)
}

/// How the lines of a journal were worked again.
#[derive(Clone, Copy, Debug, PartialEq, Eq)]
pub enum Resumed {
    /// All of them.
    Whole,
    /// The line of this number, counted from 1, was refused: the journal is of another machine.
    Refused { line: usize },
}

/// Works the lines of a journal again. Nothing is put of what they yield.
pub fn resume<M: Machine>(alloc: Global, machine: &mut M, lines: &[Bytes]) -> Result<Resumed, Halt>
    requires { M.has_taken machine.old [] }
    ensures resumed { IfOk result (IsResumed M.yields (M.has_taken machine.new) lines.now) }
    ensures halted { result ≡ Err Halt.Halted → AreNotTaken M.yields [] lines.now }
{
    let mut out = Vec::new(alloc);
    let mut number = 1;
    for line in lines {
        out.clear();
        if !machine.line(line.as_slice(), &mut out)? {
            return Ok(Resumed::Refused { line: number });
        }
        number += 1;
    }
    Ok(Resumed::Whole)
}
