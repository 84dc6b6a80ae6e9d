//! A line of progress for a person at a terminal.
use io_edge::{Failed, FileShelf, Shelf};
use std::io::IsTerminal;

/// So many bytes are read between two lines.
const STRIDE: u64 = 67_108_864;

/// A shelf that tells on standard error, where that is a terminal, how much of large files was read.
#[derive(Drop)]
pub struct ProgressShelf<'a, H: Drop> {
    rt: &'a HostRuntime,
    inner: H,
    is_shown: bool,
    bytes: u64,
    next: u64,
}

/// The files of the system, with lines of progress.
pub fn shelf_of<'a>(rt: &'a HostRuntime) -> ProgressShelf<'a, FileShelf<'a, HostRuntime>> {
    ProgressShelf {
        rt,
        inner: FileShelf::new(rt),
        is_shown: rt.stderr().is_terminal(),
        bytes: 0,
        next: STRIDE,
    }
}

/// Tells how much was read. A line that cannot be put is dropped.
fn show(rt: &HostRuntime, bytes: u64) {
    let megabytes = bytes / 1_048_576;
    let _shown = eprintln!(rt; "pegaudit: {megabytes} MB read");
}

impl<'a, H: Shelf + Drop> Shelf for ProgressShelf<'a, H> {
    ghost faults = { λ s. H.faults s.inner };

    ghost told = { λ s. H.told s.inner };

    ghost left = { λ s. H.left s.inner };

    ghost begun = { λ s. H.begun s.inner };

    ghost sure = { λ s. H.sure s.inner };

    fn begin(&mut self, name: &str) -> Result<(), Failed> {
        self.inner.begin(name)
    }

    fn pull(&mut self, buffer: &mut [u8]) -> Result<usize, Failed> {
        let count = self.inner.pull(buffer)?;
        self.bytes = self.bytes.saturating_add(count as u64);
        if self.is_shown && self.next <= self.bytes {
            show(self.rt, self.bytes);
            self.next = self.bytes.saturating_add(STRIDE);
        }
        Ok(count)
    }
}
