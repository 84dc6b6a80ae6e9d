//! Load runs, and words that ask for nothing. The lines are those of an independent program.
use crate::tests::{HEADER, run, shelf};
use io_edge::MemSink;
use replay_core::status::Status;
use std::alloc::{AllocError, Global};
use std::process::Abort;
use std::test::Fail;

/// Runs with these words, and gives the output and what was told.
fn played(alloc: Global, words: &[&str]) -> Result<(Status, MemSink, MemSink), AllocError> {
    let mut shelf = shelf(alloc, HEADER, 64, Vec::new(alloc))?;
    let mut out = MemSink::new(alloc, Vec::new(alloc));
    let mut err = MemSink::new(alloc, Vec::new(alloc));
    let status = run(alloc, words, &mut shelf, &mut out, &mut err)?;
    Ok((status, out, err))
}

/// Whether a run with these words ends so, with this output and with this told.
fn ends_so(
    alloc: Global,
    words: &[&str],
    status: Status,
    line: &str,
    told: &str,
) -> Result<bool, AllocError> {
    let (got, out, err) = played(alloc, words)?;
    Ok(got == status && out.bytes() == line.as_bytes() && err.bytes() == told.as_bytes())
}

/// Runs with these words, and looks at the output and at what is told.
fn check(
    rt: &impl Abort,
    alloc: Global,
    words: &[&str],
    status: Status,
    line: &str,
    told: &str,
) -> Result<(), Fail> {
    let is_so = ends_so(alloc, words, status, line, told)?;
    assert!(rt; is_so, "{words:?}");
    Ok(())
}

/// Words that ask for nothing.
const OTHER_WORDS: &[&[&str]] = &[
    &[],
    &["-x"],
    &["s", "s"],
    &["load", "1"],
    &["load", "1", "2", "3"],
    &["Load", "1", "2"],
    &["load", "00", "0"],
    &["load", "0", "01"],
    &["load", "200001", "0"],
    &["load", "0", "200001"],
    &["load", "x", "1"],
    &["load", "1", ""],
    &["load", "+1", "1"],
    &["load", "1", "4294967297"],
];

#[test]
fn words_of_another_form_are_refused(rt: HostRuntime) -> Result<(), Fail> {
    for words in OTHER_WORDS {
        check(
            &rt,
            rt.alloc(),
            words,
            Status::BadWords,
            "",
            "pegreplay: bad words\n",
        )?;
    }
    Ok(())
}

/// The words of a load run, and its line.
const LOADS: &[(&[&str], &str)] = &[
    (
        &["load", "80", "10"],
        "events 92 accepted 81 rejected 0 trades 10 shares 1000 resting 70 groups 7\n",
    ),
    (
        &["load", "0", "0"],
        "events 2 accepted 1 rejected 0 trades 0 shares 0 resting 0 groups 0\n",
    ),
    (
        &["load", "0", "5"],
        "events 7 accepted 1 rejected 0 trades 0 shares 0 resting 0 groups 0\n",
    ),
    (
        &["load", "9", "1"],
        "events 12 accepted 10 rejected 0 trades 1 shares 100 resting 8 groups 7\n",
    ),
    (
        &["load", "--", "3", "2"],
        "events 7 accepted 4 rejected 0 trades 0 shares 0 resting 3 groups 3\n",
    ),
];

#[test]
fn load_runs_are_summed_up(rt: HostRuntime) -> Result<(), Fail> {
    for (words, line) in LOADS {
        check(&rt, rt.alloc(), words, Status::Done, line, "")?;
    }
    Ok(())
}

#[test]
fn the_largest_load_is_played(rt: HostRuntime) -> Result<(), Fail> {
    let line =
        "events 400002 accepted 200001 rejected 0 trades 10 shares 1000 resting 199990 groups 8\n";
    check(
        &rt,
        rt.alloc(),
        &["load", "200000", "200000"],
        Status::Done,
        line,
        "",
    )
}

#[test]
fn load_alone_names_a_script(rt: HostRuntime) -> Result<(), Fail> {
    check(
        &rt,
        rt.alloc(),
        &["load"],
        Status::ReadFault,
        "",
        "pegreplay: read fault\n",
    )
}

#[test]
fn a_failing_put_ends_a_load_run(rt: HostRuntime) -> Result<(), Fail> {
    let alloc = rt.alloc();
    let mut shelf = shelf(alloc, HEADER, 64, Vec::new(alloc))?;
    let mut out = MemSink::new(alloc, vec![in alloc; 1]?);
    let mut err = MemSink::new(alloc, Vec::new(alloc));
    let got = run(alloc, &["load", "1", "1"], &mut shelf, &mut out, &mut err)?;
    assert!(rt; got == Status::WriteFault);
    assert_eq!(rt; err.bytes(), b"pegreplay: write fault\n".as_slice());
    Ok(())
}
