//! The desks of all members.
ghost use Rattle.std.specs.Prelude.{◌≡◌, ◌<◌, ◌≤◌, ℕ, List, Option, Some, None, length, map, slice_set, option_map, IfOk, IfSome, IsNone};
ghost use Rattle.venue_words.specs.Causes.{Rose};
ghost use Rattle.venue_words.specs.declared.limits.TheConstants.{MAX_MEMBERS};
ghost use Rattle.member_gate.specs.Desks.{DeskView, fresh_desks, AreInOrder, desk_at};

use crate::desk::Desk;
use std::alloc::Global;
use venue_words::{Config, NoMemory};

/// Where the desks of all members stand while no connection uses them. Each stands only at its own member.
pub trait Desks {
    /// How many members there are, numbered from 0. No call changes it.
    ghost members: { Self → ℕ };

    /// How often a desk was asked for that was not there. The count never falls, and at its last value, 2^64 - 1, it
    /// counts as risen.
    ghost refused: { Self → ℕ };

    /// The desk that stands at each member, where the desks tell it.
    ghost told: { Self → Option (List (Option DeskView)) };

    /// Takes a member's desk out. None comes only where it is not there.
    fn take(&mut self, member: u32) -> Option<Desk>
        requires { member < members self.old }
        ensures own { IfSome result (λ desk. desk.member ≡ member) }
        ensures desk { IfSome (told self.old) (λ desks. result ≡ desk_at desks member) }
        ensures told { told self.new ≡ option_map (λ desks. slice_set desks member None) (told self.old) }

        // The count of refusals.
        ensures later { refused self.old ≤ refused self.new }
        ensures rose { IsNone result → Rose (refused self.old) (refused self.new) }
        ensures members { members self.new ≡ members self.old };

    /// Puts a member's desk there. One that stands there is let go.
    fn give(&mut self, member: u32, desk: Desk)
        requires member { member < members self.old }
        requires own { desk.member ≡ member }
        ensures told { told self.new ≡ option_map (λ desks. slice_set desks member (Some desk)) (told self.old) }
        ensures refused { refused self.new ≡ refused self.old }
        ensures members { members self.new ≡ members self.old };

    /// Told desks tell of each member.
    ghost all_told: { (desks : Self) → IfSome (told desks) (λ each. length each ≡ members desks) };
}

/// A desk for each member of a config, in their order, before any connection.
#[tactic(auto, using(crate::proofs::Fresh::fresh_more))]
pub fn desks_of(alloc: Global, config: &Config) -> Result<Vec<Desk>, NoMemory>
    requires { length config.now.members ≤ MAX_MEMBERS }
    ensures desks { IfOk result (λ desks. desks.items ≡ fresh_desks config.now) }
    ensures order { IfOk result (λ desks. AreInOrder desks.items) }
    ensures each { IfOk result (λ desks. length desks.items ≡ length config.now.members) }
{
    let mut desks = Vec::new(alloc);
    let count = config.members.len() as u32;
    for number in 0..count {
        desks.push(Desk::new(alloc, number, config)?)?;
    }
    Ok(desks)
}
