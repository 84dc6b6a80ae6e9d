//! Desks that threads share: a lock round a table.
use crate::desk::Desk;
use crate::desk_table::DeskTable;
use crate::desks::Desks;
use std::marker::Model;
use std::sync::{Mutex, Wait};

/// A lock round a table of desks. Contracts see it as the number of its members.
pub struct DeskCell {
    table: Mutex<DeskTable>,
    members: usize,
}

// Written out, so that crates above let go of one by this theorem, and not part by part.
impl Drop for DeskCell {
    fn drop(self) {
        let DeskCell {
            table: _,
            members: _,
        } = self;
    }
}

impl Model for DeskCell {
    ghost use Rattle.std.specs.Prelude.{ℕ};

    ghost Value = { ℕ };

    ghost view = { λ cell. cell.members };
}

impl DeskCell {
    ghost use Rattle.std.specs.Prelude.{◌≡◌, length};

    /// Shares a table. This takes no memory.
    pub fn new(table: DeskTable) -> DeskCell
        ensures { result ≡ length table.desks }
    {
        let members = table.members();
        DeskCell {
            table: Mutex::new(table),
            members,
        }
    }
}

/// The desks of a cell, as one thread uses them. It tells nothing of what others took and gave.
#[derive(Drop)]
pub struct CellDesks<'a, R: Wait> {
    pub rt: &'a R,
    pub cell: &'a DeskCell,
    /// How often a desk was asked for that was not there.
    pub refused: u64,
}

impl<'a, R: Wait> Desks for CellDesks<'a, R> {
    ghost use Rattle.std.specs.Prelude.{None};

    ghost members = { λ desks. desks.cell.now };

    ghost refused = { λ desks. desks.refused };

    ghost told = { λ _. None };

    fn take(&mut self, member: u32) -> Option<Desk> {
        let cell = self.cell;
        let desk = cell.table.lock(self.rt).remove(member);
        if desk.is_none() {
            self.refused = self.refused.saturating_add(1);
        }
        desk
    }

    fn give(&mut self, member: u32, desk: Desk) {
        let cell = self.cell;
        cell.table.lock(self.rt).put(member, desk);
    }

    ghost all_told = { λ _. tt };
}
