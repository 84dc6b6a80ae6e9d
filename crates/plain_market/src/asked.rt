//! Who asks for something at which event.
ghost use Rattle.std.specs.Prelude.{◌≡◌};

use std::alloc::Global;

/// Who asks for something at which event, in a market of this tick, and the allocator of what is made of it.
#[derive(Clone, Copy)]
pub struct Asked {
    pub alloc: Global,
    /// In units of 0.005.
    pub tick: u32,
    /// The event's number.
    pub event: u32,
    /// The member's number.
    pub member: u32,
}

impl Asked {
    /// A member asks for something at an event.
    pub fn new(alloc: Global, tick: u32, event: u32, member: u32) -> Asked
        ensures { (result.tick ≡ tick) × (result.event ≡ event) × (result.member ≡ member) }
    {
        Asked {
            alloc,
            tick,
            event,
            member,
        }
    }
}
