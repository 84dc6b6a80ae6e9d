//! Links in memory.
use io_edge::{Link, LinkItem, MemLink, Pulled};
use std::test::Fail;

/// How many bytes a link gives before its end, and how often it is quiet and fails before.
fn story<K: Link>(link: &mut K) -> (usize, u32, u32) {
    let mut buffer = [0u8; 4];
    let mut bytes = 0usize;
    let mut quiet = 0u32;
    let mut failed = 0u32;
    for _ in 0..6 {
        match link.pull(&mut buffer) {
            Ok(Pulled::Bytes(count)) => bytes = bytes.saturating_add(count),
            Ok(Pulled::Quiet) => quiet = quiet.saturating_add(1),
            Ok(Pulled::End) => return (bytes, quiet, failed),
            Err(Failed) => failed = failed.saturating_add(1),
        }
    }
    (0, 0, 0)
}

#[test]
fn a_link_gives_its_items_in_parts(rt: HostRuntime) -> Result<(), Fail> {
    let mut items = Vec::new(rt.alloc());
    items.push(LinkItem::Piece(Vec::from_slice(rt.alloc(), b"hello")?))?;
    items.push(LinkItem::Quiet)?;
    items.push(LinkItem::End)?;
    let mut link = MemLink::new(rt.alloc(), items, vec![in rt.alloc(); 3, 7]?);
    assert_eq!(rt; story(&mut link), (5, 1, 1));
    assert!(rt; link.put(b"ab").is_ok());
    assert!(rt; link.put(b"cd").is_err());
    link.ring();
    assert!(rt; link.put(b"e").is_ok());
    assert_eq!(rt; link.bytes(), b"abe".as_slice());
    let mut buffer = [0u8; 1];
    assert_eq!(rt; link.pull(&mut buffer), Ok(Pulled::End));
    Ok(())
}
