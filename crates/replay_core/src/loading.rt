//! The load script, played from its own lines, and summed up.
ghost use Rattle.std.specs.Prelude.{◌≡◌, ◌≢◌, ◌≤◌, ◌+◌, ◌⊎◌, ℕ, [], OnOk, IfErr};
ghost use Rattle.std.specs.Io.KnownBytes.{Appends};
ghost use Rattle.io_edge.specs.Grows.{AppendsPrefix};
ghost use Rattle.venue_words.specs.Causes.{Rose};
ghost use Rattle.script_text.specs.declared.fault.LineFault.TheVariants.{NoMemory as memory};
ghost use Rattle.replay_core.specs.Loading.{loaded, Loaded, LoadsTo};
ghost use Rattle.replay_core.specs.Plan.{most_load};
ghost use Rattle.replay_core.specs.Playing.{Playing};
ghost use Rattle.replay_core.specs.Stages.{StandsFor};
ghost use Rattle.replay_core.specs.Summary.{summary_of, summary_text};
ghost use Rattle.replay_core.specs.Telling.{seen};

use crate::flushing::flush_behind;
use crate::lines::{script_line, work_line};
use crate::phase::{Phase, begin_anew};
use crate::plain_floor::PlainFloor;
use crate::player::Player;
use crate::status::{Status, status_of};
use io_edge::Sink;
use script_text::{LineFault, load_line};
use std::alloc::Global;
use std::sync::ledger::Ledger;
use venue_words::Steps;

/// Plays all lines of the load script, none of which is refused. Their output is dropped.
fn play_lines<F: PlainFloor, L: Ledger>(
    alloc: Global,
    phase: &mut Phase<F>,
    orders: u32,
    quotes: u32,
    steps: &mut Steps<L>,
) -> Result<(), LineFault>
    requires orders { orders ≤ most_load }
    requires quotes { quotes ≤ most_load }
    ensures ok { OnOk result ((bytes : ℕ) ×
        LoadsTo F.at (loaded orders quotes) [] steps.old steps.new (orders + quotes + 8) bytes phase.new) }
    ensures err { IfErr result (λ fault. fault ≡ memory) }
    ensures steps { steps.new ≤ steps.old + (loaded orders quotes).steps }
{
    begin_anew(alloc, phase);
    let mut text = Vec::new(alloc);
    let mut bytes = 0u64;
    for done in 0..orders + quotes + 8 {
        let line = load_line(alloc, orders, quotes, done + 1)?;
        let line = match script_line(done + 1, line.as_slice(), bytes) {
            Ok(line) => line,
            Err(fault) => return Err(fault),
        };
        text.clear();
        match work_line(alloc, phase, line, &mut text, steps) {
            Ok(()) => bytes += line.text.len() as u64 + 1,
            Err(fault) => return Err(fault),
        }
    }
    Ok(())
}

/// Puts the line that sums a player up, and writes it.
fn put_summary<F: PlainFloor, K: Sink>(alloc: Global, player: &Player<F>, out: &mut K) -> Status
    ensures done { result ≡ Status.Done → (playing : Playing) → StandsFor F.at player.now playing
        → Appends (K.told out.old) (K.told out.new) (summary_text (summary_of playing)) }
    ensures early { result ≢ Status.Done → (playing : Playing) → StandsFor F.at player.now playing
        → AppendsPrefix (K.told out.old) (K.told out.new) (summary_text (summary_of playing)) }
    ensures status { ((result ≡ Status.Done) ⊎ (result ≡ Status.NoMemory)) ⊎ (result ≡ Status.WriteFault) }
    ensures written { K.waiting out.old ≡ [] → result ≢ Status.WriteFault → K.waiting out.new ≡ [] }
    ensures later { K.faults out.old ≤ K.faults out.new }
    ensures write { result ≡ Status.WriteFault → Rose (K.faults out.old) (K.faults out.new) }
{
    let Ok(text) = player.summary().text(alloc) else {
        return Status::NoMemory;
    };
    match out.put(text.as_bytes()) {
        Ok(()) => flush_behind(Status::Done, out),
        Err(_) => Status::WriteFault,
    }
}

/// Plays the load script of so many orders and quotes, and puts the one line that sums it up. The phase starts anew, and stays
/// as the last line left it.
pub fn play_load<F: PlainFloor, K: Sink, L: Ledger>(
    alloc: Global,
    phase: &mut Phase<F>,
    orders: u32,
    quotes: u32,
    out: &mut K,
    steps: &mut Steps<L>,
) -> Status
    requires orders { orders ≤ most_load }
    requires quotes { quotes ≤ most_load }
    ensures ran { Loaded orders quotes (seen (K.told out.old) steps.old) (seen (K.told out.new) steps.new) result }
    ensures written { K.waiting out.old ≡ [] → result ≢ Status.WriteFault → K.waiting out.new ≡ [] }
    ensures later { K.faults out.old ≤ K.faults out.new }
    ensures write { result ≡ Status.WriteFault → Rose (K.faults out.old) (K.faults out.new) }
{
    match play_lines(alloc, phase, orders, quotes, steps) {
        Ok(()) => {}
        Err(fault) => return status_of(fault),
    }
    match &*phase {
        Phase::Body(player) => put_summary(alloc, player, out),
        _ => unreachable!(),
    }
}
