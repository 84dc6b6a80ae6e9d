//! Whether a line of a feed is refused.
ghost use Rattle.std.specs.Prelude.{◌≡◌, ◌⊎◌, ◌||◌, ℕ, Bool, Some, IfOk, IfErr, Option};
ghost use Rattle.script_text.specs.declared.fault.LineFault.{LineFault};
ghost use Rattle.script_text.specs.declared.fault.LineFault.TheVariants.{NoMemory as memory};
ghost use Rattle.feeds_core.specs.FeedLines.{fault_of, is_member, named_in, or_else};
ghost use Rattle.feeds_core.specs.Naming.{has_name, refused_by};

use crate::naming::{Naming, note};
use line_reader::weigh;
use line_work::fault_at;
use script_text::{Line, LineFault};
use venue_words::limits::MAX_CONFIG_BYTES;

/// The place of a line in a feed: its number, counted from 1, and the bytes of all files up to its end.
#[derive(Clone, Copy, Debug)]
pub struct LinePlace {
    pub number: u32,
    pub bytes: u64,
}

/// Notes whom a line names, by what was read of it, and says whether it is refused on its own account. Whether its member is
/// taken is judged later: see `first_refused`.
pub fn look_at(
    named: &mut Vec<Naming>,
    read: Result<Line, LineFault>,
    place: LinePlace,
) -> Result<Line, LineFault>
    ensures same { IfOk result (λ line. read ≡ Ok line) }
    ensures goes { IfOk result (λ _. (taken : ℕ → Bool) (next : Option LineFault) →
        refused_by taken named.old.items (or_else (fault_of taken place.number place.bytes read) next)
        ≡ refused_by taken named.new.items next) }
    ensures names { IfOk result (λ _. (member : ℕ) →
        has_name named.new.items member ≡ (has_name named.old.items member || is_member member (named_in read))) }
    ensures stops { IfErr result (λ fault. (fault ≡ memory) ⊎ ((taken : ℕ → Bool) (next : Option LineFault) →
        refused_by taken named.old.items (or_else (fault_of taken place.number place.bytes read) next)
        ≡ refused_by taken named.new.items (Some fault))) }
    ensures memory { read ≡ Err memory → result ≡ Err memory }
{
    if let Ok(line) = &read {
        match note(named, line, place.number) {
            Ok(()) => {}
            Err(_) => {
                drop(read);
                return Err(LineFault::NoMemory);
            }
        }
    }
    match weigh(read, 1, MAX_CONFIG_BYTES < place.bytes) {
        Ok(line) => Ok(line),
        Err(fault) => Err(fault_at(place.number, fault)),
    }
}
