//! The files of an audit: those of a shelf, or those of a day that was made from its journal.
ghost use Rattle.audit_journal.specs.Shelves.{in_shelf};

use io_edge::{Failed, MemShelf, Shelf};

/// Where the files of an audit are.
#[derive(Drop)]
pub enum DayShelf<H: Shelf + Drop> {
    Files(H),
    Day(MemShelf),
}

impl<H: Shelf + Drop> Shelf for DayShelf<H> {
    ghost faults = { λ s. in_shelf H.faults ⟦<MemShelf as Shelf>⟧.faults s };

    ghost told = { λ s. in_shelf H.told ⟦<MemShelf as Shelf>⟧.told s };

    ghost left = { λ s. in_shelf H.left ⟦<MemShelf as Shelf>⟧.left s };

    ghost begun = { λ s. in_shelf H.begun ⟦<MemShelf as Shelf>⟧.begun s };

    ghost sure = { λ s. in_shelf H.sure ⟦<MemShelf as Shelf>⟧.sure s };

    fn begin(&mut self, name: &str) -> Result<(), Failed> {
        match self {
            DayShelf::Files(shelf) => shelf.begin(name),
            DayShelf::Day(shelf) => shelf.begin(name),
        }
    }

    fn pull(&mut self, buffer: &mut [u8]) -> Result<usize, Failed> {
        match self {
            DayShelf::Files(shelf) => shelf.pull(buffer),
            DayShelf::Day(shelf) => shelf.pull(buffer),
        }
    }
}
