//! A machine that takes the lines of a script.
ghost use Rattle.std.specs.Prelude.{◌≡◌, ◌≢◌, [], None, IfSome};
ghost use Rattle.replay_core.specs.Stages.{Kept};
ghost use Rattle.replay_core.specs.declared.phase.Phase.TheVariants.{Body};
ghost use Rattle.live_machine.specs.Taking.{HasTaken, yields};

use crate::taking::{fits, take};
use live_core::{Halt, Machine};
use replay_core::phase::Phase;
use replay_core::{PlainFloor, Player};
use script_text::Header;
use std::alloc::Global;
use std::marker::Model;
use std::sync::ledger::Ledger;
use symbol_book::Book;
use venue_core::PlainVenue;
use venue_words::Steps;

/// Takes the lines of a script, one after another, over any floor of one thread. The first lines are the header's. It counts
/// the steps of books. After a halt it is at no place of a script, and is to be dropped.
#[derive(Drop)]
pub struct PhaseMachine<F: PlainFloor, L: Ledger> {
    alloc: Global,
    phase: Phase<F>,
    /// How many lines were taken, and their bytes with their LFs.
    lines: u32,
    bytes: u64,
    /// Room for the output of a line.
    text: Vec<u8>,
    steps: Steps<L>,
}

/// The machine of a day over the venue of books.
pub type BookMachine<L> = PhaseMachine<PlainVenue<Book>, L>;

impl<F: PlainFloor, L: Ledger> Model for PhaseMachine<F, L> {
    ghost use Rattle.std.specs.Prelude.{◌≤◌};
    ghost use Rattle.venue_words.specs.declared.limits.TheConstants.{MAX_SCRIPT_BYTES};
    ghost use Rattle.replay_core.specs.Phases.{IsReady};
    ghost use Rattle.live_machine.specs.Taking.{MachineView, machine_of};

    ghost Value = { MachineView F };

    ghost view = { λ m. machine_of m.phase m.lines m.bytes m.steps };

    ghost invariant = { λ m. IsReady m.phase × (m.lines ≤ m.bytes) × (m.bytes ≤ MAX_SCRIPT_BYTES) };
}

impl<F: PlainFloor, L: Ledger> PhaseMachine<F, L> {
    /// A machine that has taken no line, and counts its steps from here on.
    pub fn new(alloc: Global, steps: Steps<L>) -> PhaseMachine<F, L>
        ensures start { HasTaken F.at result [] }
        ensures steps { result.steps ≡ steps }
    {
        PhaseMachine {
            alloc,
            phase: Phase::Head(Header::new(alloc)),
            lines: 0,
            bytes: 0,
            text: Vec::new(alloc),
            steps,
        }
    }

    /// Who plays the lines after the header; none while the header is not whole.
    pub fn player(&self) -> Option<&Player<F>>
        ensures body { IfSome result (λ player. self.now.phase ≡ Body player.now) }
        ensures head { result ≡ None → (player : Kept F) → self.now.phase ≢ Body player }
    {
        match &self.phase {
            Phase::Body(player) => Some(player),
            _ => None,
        }
    }
}

impl<F: PlainFloor, L: Ledger> Machine for PhaseMachine<F, L> {
    ghost yields = { yields };

    ghost has_taken = { HasTaken F.at };

    fn line(&mut self, text: &[u8], out: &mut Vec<u8>) -> Result<bool, Halt> {
        if !fits(self.bytes, text) {
            return Ok(false);
        }
        self.text.clear();
        match take(
            self.alloc,
            &mut self.phase,
            self.lines + 1,
            text,
            &mut self.text,
            &mut self.steps,
        ) {
            Ok(true) => {}
            Ok(false) => return Ok(false),
            Err(halt) => return Err(halt),
        }
        match out.extend_from_slice(&self.text) {
            Ok(()) => {}
            Err(_) => return Err(Halt::NoMemory),
        }
        self.lines += 1;
        self.bytes += text.len() as u64 + 1;
        Ok(true)
    }
}
