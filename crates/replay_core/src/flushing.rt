//! What waits of a run's output is written before its status is told.
ghost use Rattle.std.specs.Prelude.{◌≡◌, ◌≢◌, ◌≤◌, ◌⊎◌, []};
ghost use Rattle.venue_words.specs.Causes.{Rose};

use crate::status::Status;
use io_edge::Sink;

/// Writes what waits of the output of a run that ended with this status. Where that fails, every status is a write fault.
pub fn flush_behind<K: Sink>(status: Status, out: &mut K) -> Status
    ensures told { K.told out.new ≡ K.told out.old }
    ensures status { (result ≡ status) ⊎ (result ≡ Status.WriteFault) }
    ensures written { result ≢ Status.WriteFault → K.waiting out.new ≡ [] }
    ensures later { K.faults out.old ≤ K.faults out.new }
    ensures write { result ≡ Status.WriteFault →
        (status ≡ Status.WriteFault) ⊎ Rose (K.faults out.old) (K.faults out.new) }
{
    match out.flush() {
        Ok(()) => status,
        Err(_) => Status::WriteFault,
    }
}
