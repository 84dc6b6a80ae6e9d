//! Shelves and sinks in memory.
use io_edge::{Calls, MemShelf, MemSink, Shelf, Sink, SureShelf, SureSink};
use std::alloc::Global;
use std::test::Fail;

fn one_file(alloc: Global) -> Result<Vec<(String, Vec<u8>)>, std::alloc::AllocError> {
    let mut files = Vec::new(alloc);
    files.push((
        String::from_str(alloc, "a")?,
        Vec::from_slice(alloc, b"hello")?,
    ))?;
    Ok(files)
}

fn sizes<H: Shelf>(shelf: &mut H) -> (usize, usize, bool) {
    let mut buffer = [0u8; 4];
    if shelf.begin("b").is_ok() || shelf.begin("a").is_err() {
        return (0, 0, false);
    }
    let first = shelf.pull(&mut buffer).unwrap_or(9);
    let second = shelf.pull(&mut buffer).unwrap_or(9);
    (first, second, shelf.pull(&mut buffer).is_ok())
}

#[test]
fn shelves_in_memory_give_pieces(rt: HostRuntime) -> Result<(), Fail> {
    let mut shelf = MemShelf::new(one_file(rt.alloc())?, 3, vec![in rt.alloc(); 5]?);
    assert_eq!(rt; sizes(&mut shelf), (3, 2, false));
    let mut sure = SureShelf::new(one_file(rt.alloc())?, 9);
    assert_eq!(rt; sizes(&mut sure), (4, 1, true));
    Ok(())
}

#[test]
fn sinks_in_memory_keep_what_was_put(rt: HostRuntime) -> Result<(), Fail> {
    let mut sink = MemSink::new(rt.alloc(), vec![in rt.alloc(); 2, 4]?);
    assert!(rt; sink.put(b"ab").is_ok());
    assert!(rt; sink.put(b"cd").is_err());
    assert!(rt; sink.put(b"e").is_ok());
    assert!(rt; sink.flush().is_err());
    assert!(rt; sink.flush().is_ok());
    assert_eq!(rt; sink.bytes(), b"abe".as_slice());
    assert!(rt; SureSink::new().put(b"x").is_ok());
    assert!(rt; SureSink::new().flush().is_ok());
    Ok(())
}
