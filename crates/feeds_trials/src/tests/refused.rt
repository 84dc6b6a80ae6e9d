//! Files that are refused.
use super::{CONFIG, run};
use std::alloc::{AllocError, Global};
use std::sync::Wait;
use std::test::Fail;
use std::thread::Threads;

const LOGON_A: &str = "M A 35=A|49=A|56=PEGV|34=1|52=20240102-14:30:00|98=0|108=30|1137=9|\n";

const QUOTE: &str = "Q X N 10.00 10.01\n";

const BAD: &str = "Q X N 10.00 10.1\n";

/// A config, the texts of its feeds, and what is told of them.
type Case = (&'static str, &'static [&'static str], &'static str);

const REFUSED_LINES: &[Case] = &[
    ("PEGV 3\n", &[BAD], "file 0: line 1: BadHeader"),
    (
        "PEGV 1\nSYMBOL X 2097152\nSYMBOL Y 1\n",
        &[""],
        "file 0: line 3: limit EventsSum",
    ),
    (CONFIG, &[QUOTE, BAD], "file 2: line 1: BadPrice"),
    (CONFIG, &[BAD, ""], "file 1: line 1: BadPrice"),
    (CONFIG, &["Q X N 10.00 10.01", BAD], "file 1: line 1: NoEnd"),
    (CONFIG, &[QUOTE, "\n"], "file 2: line 1: BadWord"),
];

const SHARED_MEMBERS: &[Case] = &[
    (
        CONFIG,
        &[LOGON_A, "O B\nO A\nO B\n"],
        "file 2: line 2: SharedMember",
    ),
    (
        CONFIG,
        &["O A\nO A\n", "O B\n", "B A \n"],
        "file 3: line 1: SharedMember",
    ),
    (
        CONFIG,
        &[
            "T 20240102-14:30:00.000\n",
            "O A\n",
            "Q X N - -\nO A\nO C\n",
        ],
        "file 3: line 2: SharedMember",
    ),
];

/// A member is named by a line, whatever his bytes are.
const OWN_CAUSES: &[Case] = &[
    (
        CONFIG,
        &["B A x\n", "M A x\nO A\n"],
        "file 2: line 1: BadText",
    ),
    (
        CONFIG,
        &["O A\n", "O C\nO A\n"],
        "file 2: line 1: UnknownName",
    ),
    (
        CONFIG,
        &["O A\nO C\n", "O A\n"],
        "file 1: line 2: UnknownName",
    ),
];

/// The place of the first case of which something else is told, or where something is put.
fn first_wrong<R: Threads + Wait + Sync>(
    rt: &R,
    alloc: Global,
    cases: &[Case],
) -> Result<Option<usize>, AllocError> {
    for (place, (config, feeds, told)) in cases.iter().enumerate() {
        let text = format!(in alloc; "pegvenue: {told}\n")?;
        let ran = run(rt, alloc, config, feeds)?;
        if ran.err.bytes() != text.as_bytes() || !ran.out.bytes().is_empty() {
            return Ok(Some(place));
        }
    }
    Ok(None)
}

#[test]
fn the_first_refused_line_of_the_first_file_is_told(rt: HostRuntime) -> Result<(), Fail> {
    assert_eq!(rt; first_wrong(&rt, rt.alloc(), REFUSED_LINES)?, None);
    Ok(())
}

#[test]
fn a_member_of_an_earlier_feed_is_told(rt: HostRuntime) -> Result<(), Fail> {
    assert_eq!(rt; first_wrong(&rt, rt.alloc(), SHARED_MEMBERS)?, None);
    Ok(())
}

#[test]
fn a_lines_own_causes_come_first(rt: HostRuntime) -> Result<(), Fail> {
    assert_eq!(rt; first_wrong(&rt, rt.alloc(), OWN_CAUSES)?, None);
    Ok(())
}
