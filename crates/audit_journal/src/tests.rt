//! A journal in memory, and what is read of it.
use crate::{DayFault, JournalFault, body_of, files_of_day, head_of, read_journal, text_of};
use feeds_core::FeedsStatus;
use io_edge::MemShelf;
use std::alloc::{AllocError, Global};
use std::test::Fail;
use venue_words::Bytes;

const LINES: [&str; 9] = [
    "PEGV 1",
    "MEMBER A",
    "MARKET N",
    "SYMBOL X 4",
    "BEGIN 20240102-14:30:00.000",
    "O A",
    "T 20240102-14:30:01.000",
    "Q X N 10.00 10.01",
    "Q X N - -",
];

const LISTING: &str = "S X 2 0
J X 1 1 20240102-14:30:01.000 Q N 10.00 10.01
J X 2 1 20240102-14:30:01.000 Q N - -
";

/// A journal of lines, and what stands after them.
fn journal_of(alloc: Global, lines: &[&str], end: &[u8]) -> Result<Vec<u8>, AllocError> {
    let mut bytes = Vec::new(alloc);
    for line in lines {
        bytes.push(1)?;
        let size = u32::try_from(line.len()).unwrap_or(0);
        bytes.extend_from_slice(&size.to_be_bytes())?;
        bytes.extend_from_slice(line.as_bytes())?;
    }
    bytes.extend_from_slice(end)?;
    Ok(bytes)
}

/// What is read of a file of these bytes.
fn read(alloc: Global, bytes: Vec<u8>) -> Result<Result<Vec<Bytes>, JournalFault>, AllocError> {
    let mut files = Vec::new(alloc);
    files.push((String::from_str(alloc, "j")?, bytes))?;
    let mut shelf = MemShelf::new(files, 7, Vec::new(alloc));
    Ok(read_journal(alloc, "j", &mut shelf))
}

#[test]
fn a_day_is_its_config_its_feed_and_its_listing(rt: HostRuntime) -> Result<(), Fail> {
    let alloc = rt.alloc();
    // The venue has room ahead of its lines, and is about to open a gate.
    let Ok(lines) = read(alloc, journal_of(alloc, &LINES, &[0, 0, 0, 0, 3, 79])?)? else {
        return Err("not read".into());
    };
    assert!(rt; lines.len() == LINES.len() && head_of(&lines).len() == 5);
    assert!(rt;
        text_of(alloc, body_of(&lines))?.as_slice()
            == b"O A\nT 20240102-14:30:01.000\nQ X N 10.00 10.01\nQ X N - -\n".as_slice()
    );
    let Ok(files) = files_of_day(&rt, alloc, &lines) else {
        return Err("no listing".into());
    };
    let listing = files.get(2).map(|file| file.1.as_slice());
    assert!(rt; listing == Some(LISTING.as_bytes()));
    Ok(())
}

#[test]
fn damage_and_a_line_of_another_program_are_told(rt: HostRuntime) -> Result<(), Fail> {
    let alloc = rt.alloc();
    let damaged = read(alloc, journal_of(alloc, &LINES[..2], &[1, 0, 0, 0, 3, 79])?)?;
    assert!(rt; matches!(damaged, Err(JournalFault::Damaged { at: 24 })));
    let Ok(lines) = read(alloc, journal_of(alloc, &["PEGV 1", "HELLO"], &[0])?)? else {
        return Err("not read".into());
    };
    let refused = files_of_day(&rt, alloc, &lines);
    assert!(rt;
        matches!(
            refused,
            Err(DayFault::Refused(FeedsStatus::BadFeed {
                file: 0,
                line: 2,
                ..
            }))
        )
    );
    Ok(())
}
