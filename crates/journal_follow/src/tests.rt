//! A file in memory that grows, over a machine that takes every line.
use crate::{FollowFault, Follower, Looked, MemJournal};
use live_core::{Halt, Machine};
use std::alloc::{AllocError, Global};
use std::test::Fail;

/// Yields each line with an LF.
#[derive(Drop)]
struct Echo;

impl Machine for Echo {
    ghost use Rattle.std.specs.Prelude.{◌++◌, ◌∷◌, [], Some};

    ghost yields = { λ _ line. Some (line ++ 10 ∷ []) };

    ghost has_taken = { λ _ _. Unit {0} };

    fn line(&mut self, text: &[u8], out: &mut Vec<u8>) -> Result<bool, Halt> {
        if out.extend_from_slice(text).is_err() {
            return Err(Halt::NoMemory);
        }
        out.push(b'\n')?;
        Ok(true)
    }
}

/// Adds a line before whose gate stands this byte: 1 where it is open.
fn add(bytes: &mut Vec<u8>, gate: u8, line: &str) -> Result<(), AllocError> {
    let size = u32::try_from(line.len()).unwrap_or(0);
    bytes.push(gate)?;
    bytes.extend_from_slice(&size.to_be_bytes())?;
    bytes.extend_from_slice(line.as_bytes())
}

fn follower(alloc: Global) -> Result<Follower<Echo>, Fail> {
    match Follower::new(alloc, Echo) {
        Ok(follower) => Ok(follower),
        Err(_) => Err("out of memory".into()),
    }
}

#[test]
fn a_batch_is_worked_once_it_is_whole(rt: HostRuntime) -> Result<(), Fail> {
    let alloc = rt.alloc();
    let mut follower = follower(alloc)?;
    let mut file = MemJournal::new(Vec::new(alloc));
    assert!(rt; follower.look(&mut file) == Ok(Looked::AtEnd) && follower.lines().is_empty());

    // A batch of two lines stands there, and its gate is closed.
    add(file.bytes(), 0, "one")?;
    add(file.bytes(), 1, "two")?;
    file.bytes().push(0)?;
    assert!(rt; follower.look(&mut file) == Ok(Looked::AtEnd) && follower.count() == 0);

    if let Some(gate) = file.bytes().first_mut() {
        *gate = 1;
    }
    assert!(rt; follower.look(&mut file) == Ok(Looked::AtEnd));
    assert!(rt; follower.text() == b"one\ntwo\n".as_slice() && follower.size() == 16);

    // Each line is worked once.
    assert!(rt; follower.look(&mut file) == Ok(Looked::AtEnd) && follower.text().is_empty());
    assert!(rt; follower.count() == 2);
    Ok(())
}

#[test]
fn damage_is_told_after_the_lines_before_it(rt: HostRuntime) -> Result<(), Fail> {
    let alloc = rt.alloc();
    let mut follower = follower(alloc)?;
    let mut file = MemJournal::new(Vec::new(alloc));
    add(file.bytes(), 1, "one")?;
    file.bytes().extend_from_slice(&[1, 0, 0, 0, 9, 7])?;
    assert!(rt; follower.look(&mut file) == Ok(Looked::Worked) && follower.count() == 1);
    assert!(rt; follower.look(&mut file) == Err(FollowFault::Damaged { at: 8 }));
    Ok(())
}
