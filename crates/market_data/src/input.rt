//! An input that is read piece by piece to its end.
ghost use Rattle.std.specs.Prelude.{◌≡◌, ◌≢◌, ◌<◌, ◌≤◌, ℕ, List, length, IfOk, IfErr, IfSome, IsTrue};
ghost use Rattle.std.specs.Io.KnownBytes.{Appends};
ghost use Rattle.venue_words.specs.Causes.{Rose};
ghost use Rattle.venue_words.specs.Conditions.{IsConfig};
ghost use Rattle.io_edge.specs.Faults.{IsCaused, faults};
ghost use Rattle.market_data.specs.Feeding.{unfed, StandsFor, Adds};
ghost use Rattle.market_data.specs.Outcomes.{IsRunning, Ran, StopsIn, IsStop};

use crate::feeding::MarketSession;
use crate::status::{MarketStatus, ended_by};
use io_edge::{Shelf, Sink};
use line_reader::window::{READ_BYTES, buffer_of};
use session_core::EndCause;
use std::alloc::Global;
use venue_words::{Bytes, Config};

/// The most bytes of an input.
pub const MAX_INPUT_BYTES: u64 = 536_870_912;

/// Works a piece of the input, and puts its lines. The cause comes back where the session ends in it.
fn feed_piece<K: Sink>(
    session: &mut MarketSession,
    config: &Config,
    piece: &[u8],
    text: &mut Vec<u8>,
    out: &mut K,
) -> Result<Option<EndCause>, MarketStatus>
    requires { IsConfig config.now }
    ensures put { IfOk result (λ ended. (source bytes : List ℕ) → StandsFor config.now source bytes session.old →
        (added : List ℕ) × Appends (K.told out.old) (K.told out.new) added
        × Adds config.now source bytes piece.now added ended session.new) }
    ensures stopped { IfErr result (λ status. (source bytes : List ℕ) → StandsFor config.now source bytes session.old →
        StopsIn config.now source bytes piece.now (K.told out.old) (K.told out.new)) }
    ensures status { IfErr result IsStop }
    ensures later { K.faults out.old ≤ K.faults out.new }
    ensures write { IfErr result (λ status. status ≡ MarketStatus.WriteFault → Rose (K.faults out.old) (K.faults out.new)) }
{
    text.clear();
    let Ok(ended) = session.take(config, piece, text) else {
        return Err(MarketStatus::NoMemory);
    };
    match out.put(text) {
        Ok(()) => Ok(ended),
        Err(_) => Err(MarketStatus::WriteFault),
    }
}

/// Reads the file that was begun into a buffer, piece by piece, and puts the lines of each piece before the next is read.
fn feed_pieces<H: Shelf, K: Sink>(
    config: &Config,
    session: &mut MarketSession,
    buffer: &mut [u8],
    text: &mut Vec<u8>,
    shelf: &mut H,
    out: &mut K,
) -> MarketStatus
    requires begun { IsTrue (H.begun shelf.old) }
    requires config { IsConfig config.now }
    requires room { 0 < length buffer.old }
    ensures ran { (source : List ℕ) → session.old ≡ unfed source → IfSome (H.left shelf.old) (λ bytes.
        Ran config.now source bytes (K.told out.old) (K.told out.new) (H.left shelf.new) result) }
    ensures running { IsRunning result }
    ensures caused { IsCaused MarketStatus.ReadFault MarketStatus.WriteFault (faults (H.faults shelf.old) (K.faults out.old))
        (faults (H.faults shelf.new) (K.faults out.new)) result }
    ensures sure { IsTrue (H.sure shelf.old) → result ≢ MarketStatus.ReadFault }
{
    let mut taken = 0u64;
    'pieces: loop {
        let count = match shelf.pull(buffer) {
            Ok(count) => count,
            Err(_) => return MarketStatus::ReadFault,
        };
        if count == 0 {
            return MarketStatus::Done;
        }
        let within = count.min((MAX_INPUT_BYTES - taken) as usize);
        let ended = match feed_piece(session, config, &buffer[..within], text, out) {
            Ok(ended) => ended,
            Err(status) => return status,
        };
        match ended {
            Some(cause) => return ended_by(cause),
            None => {}
        }
        if within < count {
            return MarketStatus::LimitBytes;
        }
        taken += count as u64;
    }
}

/// Reads the file that was begun to its end, or as far as it counts. No more of it is held than one piece, the frame that it ends
/// in, and what the session keeps.
pub fn feed_input<H: Shelf, K: Sink>(
    alloc: Global,
    config: &Config,
    source: Bytes,
    shelf: &mut H,
    out: &mut K,
) -> MarketStatus
    requires begun { IsTrue (H.begun shelf.old) }
    requires config { IsConfig config.now }
    ensures ran { IfSome (H.left shelf.old) (λ bytes.
        Ran config.now source bytes (K.told out.old) (K.told out.new) (H.left shelf.new) result) }
    ensures running { IsRunning result }
    ensures caused { IsCaused MarketStatus.ReadFault MarketStatus.WriteFault (faults (H.faults shelf.old) (K.faults out.old))
        (faults (H.faults shelf.new) (K.faults out.new)) result }
    ensures sure { IsTrue (H.sure shelf.old) → result ≢ MarketStatus.ReadFault }
{
    match buffer_of(alloc, READ_BYTES) {
        Ok(mut buffer) => {
            let mut session = MarketSession::new(alloc, source);
            let mut text = Vec::new(alloc);
            feed_pieces(config, &mut session, &mut buffer, &mut text, shelf, out)
        }
        Err(_) => MarketStatus::NoMemory,
    }
}
