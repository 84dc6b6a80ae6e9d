//! A stream that is written in large pieces.
use io_edge::{Failed, GatheringSink, Sink};
use std::alloc::{AllocError, Global};
use std::io;
use std::io::Write;
use std::process::Abort;
use std::test::Fail;

/// Notes how many bytes each write has. The write with this number, counted from 1, fails.
#[derive(Drop)]
struct Noting {
    sizes: Vec<usize>,
    writes: u64,
    fails: u64,
}

impl Noting {
    fn new(alloc: Global, fails: u64) -> Noting {
        Noting {
            sizes: Vec::new(alloc),
            writes: 0,
            fails,
        }
    }
}

impl Write for Noting {
    fn write(&mut self, buf: &[u8]) -> io::Result<usize> {
        self.writes = self.writes.saturating_add(1);
        if self.writes == self.fails {
            return Ok(0);
        }
        self.sizes.push(buf.len())?;
        Ok(buf.len())
    }

    fn flush(&mut self) -> io::Result<()> {
        Ok(())
    }
}

/// Puts pieces of these sizes.
fn put_all<K: Sink>(sink: &mut K, bytes: &[u8], pieces: &[usize]) -> Result<(), Failed> {
    for size in pieces {
        sink.put(&bytes[..bytes.len().min(*size)])?;
    }
    Ok(())
}

/// As many bytes as the largest piece of a test has.
fn large(alloc: Global) -> Result<Vec<u8>, AllocError> {
    let mut bytes = Vec::new(alloc);
    bytes.resize(65_537, b'x')?;
    Ok(bytes)
}

/// Sizes of pieces, and those of the writes that they make.
const CASES: &[(&[usize], &[usize])] = &[
    (&[], &[]),
    (&[0, 0], &[]),
    (&[5, 0, 5], &[10]),
    (&[65_535, 1], &[65_536]),
    (&[65_535, 1, 1], &[65_536, 1]),
    (&[65_535, 2], &[65_535, 2]),
    (&[65_536], &[65_536]),
    (&[2, 65_536, 3], &[2, 65_536, 3]),
    (&[65_537], &[65_537]),
    (&[2, 65_537, 3], &[2, 65_537, 3]),
];

/// Puts the pieces, flushes twice, and looks at the writes.
fn check(rt: &impl Abort, alloc: Global, pieces: &[usize], writes: &[usize]) -> Result<(), Fail> {
    let bytes = large(alloc)?;
    let mut stream = Noting::new(alloc, 0);
    let mut sink = GatheringSink::new(alloc, &mut stream)?;
    put_all(&mut sink, bytes.as_slice(), pieces)?;
    sink.flush()?;
    sink.flush()?;
    drop(sink);
    assert_eq!(rt; stream.sizes.as_slice(), writes, "{pieces:?}");
    Ok(())
}

#[test]
fn small_pieces_are_written_together(rt: HostRuntime) -> Result<(), Fail> {
    for case in CASES {
        check(&rt, rt.alloc(), case.0, case.1)?;
    }
    Ok(())
}

#[test]
fn what_a_failed_write_had_is_not_written_again(rt: HostRuntime) -> Result<(), Fail> {
    let bytes = large(rt.alloc())?;
    let mut stream = Noting::new(rt.alloc(), 1);
    let mut sink = GatheringSink::new(rt.alloc(), &mut stream)?;
    assert!(rt; put_all(&mut sink, bytes.as_slice(), &[2]).is_ok());
    assert!(rt; sink.flush().is_err());
    assert!(rt; sink.flush().is_ok());
    assert!(rt; put_all(&mut sink, bytes.as_slice(), &[3]).is_ok());
    assert!(rt; sink.flush().is_ok());
    drop(sink);
    assert_eq!(rt; stream.sizes.as_slice(), [3usize].as_slice());
    Ok(())
}

#[test]
fn a_put_that_finds_no_room_fails_with_the_write(rt: HostRuntime) -> Result<(), Fail> {
    let bytes = large(rt.alloc())?;
    let mut stream = Noting::new(rt.alloc(), 1);
    let mut sink = GatheringSink::new(rt.alloc(), &mut stream)?;
    assert!(rt; put_all(&mut sink, bytes.as_slice(), &[2]).is_ok());
    assert!(rt; put_all(&mut sink, bytes.as_slice(), &[65_536]).is_err());
    assert!(rt; put_all(&mut sink, bytes.as_slice(), &[4]).is_ok());
    assert!(rt; sink.flush().is_ok());
    drop(sink);
    assert_eq!(rt; stream.sizes.as_slice(), [4usize].as_slice());
    Ok(())
}
