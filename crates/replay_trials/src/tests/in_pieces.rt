//! A long script is read piece by piece: its output comes before its last bytes are read, and is flushed at its end.
use super::run;
use io_edge::{Failed, Shelf, Sink, SureShelf, SureSink};
use std::cell::Cell;
use std::test::Fail;

/// A shelf that notes when it was pulled last, counted in calls of the shelf and of a sink.
#[derive(Drop)]
struct NotingShelf<'a, H: Shelf> {
    shelf: H,
    calls: &'a Cell<u64>,
    last_pull: u64,
}

impl<H: Shelf> Shelf for NotingShelf<'_, H> {
    ghost faults = { λ s. H.faults s.shelf };

    ghost told = { λ s. H.told s.shelf };

    ghost left = { λ s. H.left s.shelf };

    ghost begun = { λ s. H.begun s.shelf };

    ghost sure = { λ s. H.sure s.shelf };

    fn begin(&mut self, name: &str) -> Result<(), Failed> {
        self.shelf.begin(name)
    }

    fn pull(&mut self, buffer: &mut [u8]) -> Result<usize, Failed> {
        self.calls.set(self.calls.get().saturating_add(1));
        self.last_pull = self.calls.get();
        self.shelf.pull(buffer)
    }
}

/// A sink that notes when bytes were put first, and whether it was flushed behind the last put.
#[derive(Drop)]
struct NotingSink<'a, K: Sink> {
    sink: K,
    calls: &'a Cell<u64>,
    first_put: Option<u64>,
    is_flushed: bool,
}

impl<K: Sink> Sink for NotingSink<'_, K> {
    ghost faults = { λ s. K.faults s.sink };

    ghost told = { λ s. K.told s.sink };

    ghost waiting = { λ s. K.waiting s.sink };

    fn put(&mut self, piece: &[u8]) -> Result<(), Failed> {
        self.calls.set(self.calls.get().saturating_add(1));
        self.is_flushed = false;
        if self.first_put.is_none() && !piece.is_empty() {
            self.first_put = Some(self.calls.get());
        }
        self.sink.put(piece)
    }

    fn flush(&mut self) -> Result<(), Failed> {
        self.is_flushed = true;
        self.sink.flush()
    }
}

const LOGGED_ON: &str = "PEGV 1
MEMBER A
MARKET N
SYMBOL X 20000
BEGIN 20240102-14:30:00.000
M A 35=A|49=A|56=PEGV|34=1|52=20240102-14:30:00|98=0|108=30|1137=9|
";

#[test]
fn output_comes_before_the_last_bytes_of_a_long_script_are_read(
    rt: HostRuntime,
) -> Result<(), Fail> {
    let alloc = rt.alloc();
    let mut script = String::from_str(alloc, LOGGED_ON)?;
    for _ in 0..12_000 {
        script.push_str("Q X N 10.00 10.01\n")?;
    }
    assert!(rt; script.len() > 200_000);
    let calls = Cell::new(0);
    let files = vec![in alloc; (String::from_str(alloc, "s")?, script.into_bytes())]?;
    let mut shelf = NotingShelf {
        shelf: SureShelf::new(files, 1_000_000),
        calls: &calls,
        last_pull: 0,
    };
    let mut out = NotingSink {
        sink: SureSink::new(),
        calls: &calls,
        first_put: None,
        is_flushed: false,
    };
    run(alloc, &["s"], &mut shelf, &mut out, &mut SureSink::new())?;
    let first_put = out.first_put.ok_or("nothing was put")?;
    assert!(rt; first_put < shelf.last_pull);
    assert!(rt; out.is_flushed);
    Ok(())
}
