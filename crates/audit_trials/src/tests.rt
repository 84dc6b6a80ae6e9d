//! A day's listing, and the same with a line or a byte changed.
ghost use Rattle.std.specs.Prelude.{◌≡◌, ◌<◌};

use audit_core::audit::audit;
use audit_core::{AuditFault, AuditFiles, AuditRefusal, Verdict, has_line_names, verify};
use io_edge::MemShelf;
use line_reader::ConfigFault;
use listing_reader::has_word_names;
use script_text::read_header;
use std::alloc::Global;
use std::marker::Brand;
use std::process::Abort;
use std::sync::ledger::{Blank, Ledger};
use std::test::Fail;
use venue_words::{Bytes, Steps};

const CONFIG: &[u8] =
    b"PEGV 1\nMEMBER A\nMEMBER B\nMARKET N\nSYMBOL X 3\nSYMBOL Y 2\nBEGIN 20240102-14:30:00.000\n";

/// A quote, two orders and a trade, as the venue lists them.
pub(crate) const PART: &[&[u8]] = &[
    b"S X 3 4\n",
    b"J X 1 1 20240102-14:30:00.000 Q N 10.00 10.01\n",
    b"J X 2 1 20240102-14:30:00.000 D A 11=a1|54=1|38=100|40=P|1094=2|\n",
    b"R X 2 1 A 8 37=X-2|11=a1|17=X-2-1|150=0|39=0|55=X|54=1|38=100|40=P|151=100|14=0|6=0.0000|60=20240102-14:30:00.000|839=10.0050|9701=2|\n",
    b"J X 3 1 20240102-14:30:00.000 D B 11=b1|54=2|38=100|40=P|1094=2|\n",
    b"R X 3 1 B 8 37=X-3|11=b1|17=X-3-1|150=0|39=0|55=X|54=2|38=100|40=P|151=100|14=0|6=0.0000|60=20240102-14:30:00.000|839=10.0050|9701=3|\n",
    b"R X 3 2 B 8 37=X-3|11=b1|17=X-3-2|150=F|39=2|55=X|54=2|38=100|40=P|32=100|31=10.0050|151=0|14=100|6=10.0050|60=20240102-14:30:00.000|\n",
    b"R X 3 3 A 8 37=X-2|11=a1|17=X-3-3|150=F|39=2|55=X|54=1|38=100|40=P|32=100|31=10.0050|151=0|14=100|6=10.0050|60=20240102-14:30:00.000|\n",
    b"S Y 0 0\n",
];

/// The listing with other text in the place of a line.
pub(crate) fn listing_with(alloc: Global, place: usize, text: &[u8]) -> Result<Vec<u8>, Fail> {
    let mut listing = Vec::new(alloc);
    for (k, line) in PART.iter().enumerate() {
        listing.extend_from_slice(if k == place { text } else { *line })?;
    }
    Ok(listing)
}

/// A shelf with the config `c` and the listing `l`, which gives so many bytes at once and fails at these calls.
pub(crate) fn shelf_of(
    alloc: Global,
    text: Vec<u8>,
    piece: usize,
    fails: Vec<u64>,
) -> Result<MemShelf, Fail>
    requires { 0 < piece }
{
    let mut config = Vec::new(alloc);
    config.extend_from_slice(CONFIG)?;
    let mut files = Vec::new(alloc);
    files.push((String::from_str(alloc, "c")?, config))?;
    files.push((String::from_str(alloc, "l")?, text))?;
    Ok(MemShelf::new(files, piece, fails))
}

/// What the listing on a shelf is found to be, as `found` says.
fn found_on<L: Ledger>(
    alloc: Global,
    shelf: &mut MemShelf,
    steps: &mut Steps<L>,
) -> Result<(u32, Option<Bytes>), Fail> {
    let (config, _) = read_header(alloc, CONFIG)?;
    if !has_word_names(&config) || !has_line_names(&config) {
        return Err(Fail::from("a name of two words"));
    }
    match verify(alloc, &config, shelf, "l", steps) {
        Ok(Verdict::Same) => Ok((0, None)),
        Ok(Verdict::Differs { line, expected }) => Ok((line, expected)),
        Err(_) => Err(Fail::from("a fault")),
    }
}

/// What a text is found to be: at 0 the listing of journals, and else the line that differs, and what should stand there.
fn found<L: Ledger>(
    alloc: Global,
    text: Vec<u8>,
    steps: &mut Steps<L>,
) -> Result<(u32, Option<Bytes>), Fail> {
    let mut shelf = shelf_of(alloc, text, 1_000, Vec::new(alloc))?;
    let found = found_on(alloc, &mut shelf, steps);
    drop(shelf);
    found
}

/// A line in the place of another, and whether the line that should stand there is told.
type Change = (usize, &'static [u8], bool);

const CHANGES: &[Change] = &[
    (0, b"S X 4 4\n", false),
    (0, b"S X 3 04\n", false),
    (0, b"S Y 3 4\n", false),
    (1, b"J X 2 1 20240102-14:30:00.000 Q N 10.00 10.01\n", false),
    (
        2,
        b"J X 2 1 20240102-14:30:00.000 D A 11=a1|54=1|38=0100|40=P|1094=2|\n",
        false,
    ),
    (2, b"", false),
    (3, b"", true),
    (5, b"R X 3 1 B 8 37=X-3|\n", true),
    (
        6,
        b"R X 3 2 B 8 37=X-3|11=b1|17=X-3-2|150=F|39=2|55=X|54=2|38=100|40=P|32=100|31=10.0000|151=0|14=100|6=10.0000|60=20240102-14:30:00.000|\n",
        true,
    ),
    (7, b"", true),
    (8, b"S Y 0 1\n", false),
    (8, b"S Y 0 0", false),
];

/// Whether the line of a change is the first that differs, and the line that should stand there is told where the change says so.
fn is_told_at_its_line<L: Ledger>(
    alloc: Global,
    change: &Change,
    steps: &mut Steps<L>,
) -> Result<bool, Fail> {
    let (place, text, is_told) = *change;
    let right: &[u8] = match PART.get(place) {
        Some(line) => line,
        None => b"",
    };
    let (line, expected) = found(alloc, listing_with(alloc, place, text)?, steps)?;
    let is_right = match &expected {
        Some(expected) => is_told && right.starts_with(expected.as_slice()),
        None => !is_told,
    };
    Ok(line as usize == place.saturating_add(1) && is_right)
}

fn look_at_lines<L: Ledger>(rt: &impl Abort, alloc: Global, blank: Blank) -> Result<(), Fail>
    requires name { blank.name ≡ L.name }
    requires parts { blank.parts ≡ L.parts }
    requires one { blank.parts ≡ 1 }
{
    let mut steps = Steps::<L>::start(blank);
    let (line, _) = found(alloc, listing_with(alloc, PART.len(), b"")?, &mut steps)?;
    assert_eq!(rt; line, 0);
    for change in CHANGES {
        let is_so = is_told_at_its_line(alloc, change, &mut steps)?;
        assert!(rt; is_so, "{:?}", change.1);
    }
    Ok(())
}

#[test]
fn the_first_line_that_differs_is_told(rt: HostRuntime) -> Result<(), Fail> {
    look_at_lines::<Brand>(&rt, rt.alloc(), Blank::new(1))
}

/// A line with the byte at a place changed.
fn changed(alloc: Global, line: &[u8], at: usize) -> Result<Vec<u8>, Fail> {
    let mut text = Vec::new(alloc);
    for (k, byte) in line.iter().enumerate() {
        text.push(if k == at { *byte ^ 1 } else { *byte })?;
    }
    Ok(text)
}

/// What is found where a byte of a line was changed: no line before it differs, a line of a report differs just there, and with
/// a line of a symbol the text is no listing. A line of an event may still be one of another day.
fn look_at_bytes<L: Ledger>(rt: &impl Abort, alloc: Global, blank: Blank) -> Result<(), Fail>
    requires name { blank.name ≡ L.name }
    requires parts { blank.parts ≡ L.parts }
    requires one { blank.parts ≡ 1 }
{
    let mut steps = Steps::<L>::start(blank);
    for (place, text) in PART.iter().enumerate() {
        for at in 0..text.len() {
            let other = changed(alloc, text, at)?;
            let listing = listing_with(alloc, place, other.as_slice())?;
            let (line, _) = found(alloc, listing, &mut steps)?;
            let line = line as usize;
            let is_fit = match text[0] {
                b'R' => line == place.saturating_add(1),
                b'S' => line > place,
                _ => line == 0 || line > place,
            };
            assert!(rt; is_fit, "line {place} byte {at}: {line}");
        }
    }
    Ok(())
}

#[test]
fn a_changed_byte_is_told_at_its_line(rt: HostRuntime) -> Result<(), Fail> {
    look_at_bytes::<Brand>(&rt, rt.alloc(), Blank::new(1))
}

/// Whether a text differs first with this line.
fn differs_at<L: Ledger>(
    alloc: Global,
    text: &[u8],
    line: usize,
    steps: &mut Steps<L>,
) -> Result<bool, Fail> {
    let (first, _) = found(alloc, Vec::from_slice(alloc, text)?, steps)?;
    Ok(first as usize == line)
}

/// A listing that stops early differs behind its last whole line.
fn look_at_fronts<L: Ledger>(rt: &impl Abort, alloc: Global, blank: Blank) -> Result<(), Fail>
    requires name { blank.name ≡ L.name }
    requires parts { blank.parts ≡ L.parts }
    requires one { blank.parts ≡ 1 }
{
    let mut steps = Steps::<L>::start(blank);
    let whole = listing_with(alloc, PART.len(), b"")?;
    let mut front = Vec::new(alloc);
    let mut lines = 0usize;
    for byte in whole.as_slice() {
        let is_so = differs_at(alloc, front.as_slice(), lines.saturating_add(1), &mut steps)?;
        assert!(rt; is_so, "behind {lines} lines");
        front.push(*byte)?;
        if *byte == b'\n' {
            lines = lines.saturating_add(1);
        }
    }
    assert_eq!(rt; lines, PART.len());
    Ok(())
}

#[test]
fn a_listing_that_stops_differs_behind_its_last_line(rt: HostRuntime) -> Result<(), Fail> {
    look_at_fronts::<Brand>(&rt, rt.alloc(), Blank::new(1))
}

pub(crate) const FILES: AuditFiles<'static> = AuditFiles {
    config: "c",
    listing: "l",
};

/// What an audit of the whole listing comes to, in pieces of this size and with these calls failing.
fn audited<L: Ledger>(
    alloc: Global,
    piece: usize,
    fails: Vec<u64>,
    steps: &mut Steps<L>,
) -> Result<Result<Verdict, AuditRefusal>, Fail>
    requires { 0 < piece }
{
    let text = listing_with(alloc, PART.len(), b"")?;
    let mut shelf = shelf_of(alloc, text, piece, fails)?;
    let verdict = audit(alloc, FILES, &mut shelf, steps);
    drop(shelf);
    Ok(verdict)
}

/// Files that come byte by byte, and with each call failing in turn.
fn look_at_reads<L: Ledger>(rt: &impl Abort, alloc: Global, blank: Blank) -> Result<(), Fail>
    requires name { blank.name ≡ L.name }
    requires parts { blank.parts ≡ L.parts }
    requires one { blank.parts ≡ 1 }
{
    let mut steps = Steps::<L>::start(blank);
    let is_whole = matches!(
        audited(alloc, 1, Vec::new(alloc), &mut steps)?,
        Ok(Verdict::Same)
    );
    assert!(rt; is_whole);
    for call in 1..20u64 {
        let is_fit = match audited(alloc, 300, vec![in alloc; call]?, &mut steps)? {
            Ok(Verdict::Same) => call > 8,
            Err(AuditRefusal::Config(ConfigFault::ReadFault)) => call < 4,
            Err(AuditRefusal::Listing(AuditFault::ReadFault)) => 4 <= call && call <= 8,
            _ => false,
        };
        assert!(rt; is_fit, "call {call}");
    }
    Ok(())
}

#[test]
fn reads_are_cut_and_fail(rt: HostRuntime) -> Result<(), Fail> {
    look_at_reads::<Brand>(&rt, rt.alloc(), Blank::new(1))
}
