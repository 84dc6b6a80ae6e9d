//! Desks in a table.
use crate::desk::Desk;
use crate::desks::Desks;
use std::alloc::Global;
use std::marker::Model;
use venue_words::NoMemory;

/// The desks of all members, by member, for one thread; none stands where it was taken out.
pub struct DeskTable {
    desks: Vec<Option<Desk>>,
    /// How often a desk was asked for that was not there.
    refused: u64,
}

// Written out, so that crates above let go of one by this theorem, and not part by part.
impl Drop for DeskTable {
    fn drop(self) {
        let DeskTable {
            desks: _,
            refused: _,
        } = self;
    }
}

impl Model for DeskTable {
    ghost use Rattle.member_gate.specs.Desks.{DeskTableView, AreOwn};

    ghost Value = { DeskTableView };

    ghost view = { λ table. record { desks = table.desks.items; refused = table.refused } };

    ghost invariant = { λ table. AreOwn table.desks.items };
}

impl DeskTable {
    ghost use Rattle.std.specs.Prelude.{◌≡◌, Some, None, length, map, slice_set, IfOk, IfSome};
    ghost use Rattle.member_gate.specs.Desks.{AreInOrder, desk_at};

    /// A table of desks, each at its own member.
    pub fn new(alloc: Global, desks: Vec<Desk>) -> Result<DeskTable, NoMemory>
        requires { AreInOrder desks.items }
        ensures { IfOk result (λ table. table ≡ record { desks = map Some desks.items; refused = 0 }) }
    {
        let mut all = Vec::with_capacity(alloc, desks.len())?;
        for desk in desks {
            all.push(Some(desk))?;
        }
        Ok(DeskTable {
            desks: all,
            refused: 0,
        })
    }

    /// How many members there are.
    pub fn members(&self) -> usize
        ensures { result ≡ length self.now.desks }
    {
        self.desks.len()
    }

    /// Takes the desk out that stands at a member, where one does.
    pub(crate) fn remove(&mut self, member: u32) -> Option<Desk>
        ensures desk { result ≡ desk_at self.old.desks member }
        ensures own { IfSome result (λ desk. desk.member ≡ member) }
        ensures table { self.new ≡ record self.old { desks = slice_set self.old.desks member None } }
    {
        let place = member as usize;
        if place < self.desks.len() {
            self.desks[place].take()
        } else {
            None
        }
    }

    /// Puts a desk at its member. Behind the last member it is let go.
    pub(crate) fn put(&mut self, member: u32, desk: Desk)
        requires { desk.member ≡ member }
        ensures { self.new ≡ record self.old { desks = slice_set self.old.desks member (Some desk) } }
    {
        let place = member as usize;
        if place < self.desks.len() {
            self.desks[place] = Some(desk);
        }
    }
}

impl Desks for DeskTable {
    ghost use Rattle.std.specs.Prelude.{Some, length, refl};

    ghost members = { λ table. length table.desks };

    ghost refused = { λ table. table.refused };

    ghost told = { λ table. Some table.desks };

    fn take(&mut self, member: u32) -> Option<Desk> {
        let desk = self.remove(member);
        if desk.is_none() {
            self.refused = self.refused.saturating_add(1);
        }
        desk
    }

    fn give(&mut self, member: u32, desk: Desk) {
        self.put(member, desk);
    }

    ghost all_told = { λ table. refl };
}
