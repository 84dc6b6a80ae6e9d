//! A stored run in small pieces, with each call of the outside failing in turn.
use super::{CONFIG, Fails, Ran, run_paced};
use feed_work::Unpaced;
use feeds_core::FeedsStatus;
use std::alloc::{AllocError, Global};
use std::sync::Wait;
use std::test::Fail;
use std::thread::Threads;

const FEED: &str = "M A 35=A|49=A|56=PEGV|34=1|52=20240102-14:30:00|98=0|108=30|1137=9|
M B 35=A|49=B|56=PEGV|34=1|52=20240102-14:30:00|98=0|108=30|1137=9|
Q X N 10.00 10.01
M A 35=D|49=A|56=PEGV|34=2|52=20240102-14:30:00|11=a1|55=X|54=1|38=100|40=P|1094=2|60=20240102-14:30:00|
M B 35=D|49=B|56=PEGV|34=2|52=20240102-14:30:00|11=b1|55=X|54=2|38=100|40=P|1094=2|60=20240102-14:30:00|
";

const LISTING: &str = "S X 3 4
J X 1 1 20240102-14:30:00.000 Q N 10.00 10.01
J X 2 1 20240102-14:30:00.000 D A 11=a1|54=1|38=100|40=P|1094=2|
R X 2 1 A 8 37=X-2|11=a1|17=X-2-1|150=0|39=0|55=X|54=1|38=100|40=P|151=100|14=0|6=0.0000|60=20240102-14:30:00.000|839=10.0050|9701=2|
J X 3 1 20240102-14:30:00.000 D B 11=b1|54=2|38=100|40=P|1094=2|
R X 3 1 B 8 37=X-3|11=b1|17=X-3-1|150=0|39=0|55=X|54=2|38=100|40=P|151=100|14=0|6=0.0000|60=20240102-14:30:00.000|839=10.0050|9701=3|
R X 3 2 B 8 37=X-3|11=b1|17=X-3-2|150=F|39=2|55=X|54=2|38=100|40=P|32=100|31=10.0050|151=0|14=100|6=10.0050|60=20240102-14:30:00.000|
R X 3 3 A 8 37=X-2|11=a1|17=X-3-3|150=F|39=2|55=X|54=1|38=100|40=P|32=100|31=10.0050|151=0|14=100|6=10.0050|60=20240102-14:30:00.000|
";

/// The most bytes of a pull.
const PIECE: usize = 7;

fn stored<R: Threads + Wait + Sync>(
    rt: &R,
    alloc: Global,
    fails: Fails,
) -> Result<Ran, AllocError> {
    run_paced(rt, alloc, &Unpaced, (CONFIG, &[FEED]), PIECE, fails)
}

#[test]
fn the_stored_run_is_listed(rt: HostRuntime) -> Result<(), Fail> {
    let ran = stored(&rt, rt.alloc(), (0, 0, 0))?;
    assert!(rt;
        ran.came_to(FeedsStatus::Done, LISTING, ""),
        "{:?}",
        ran.status
    );
    Ok(())
}

/// Whether a read that fails at this call puts nothing and is told, or not told where that fails too.
fn puts_nothing<R: Threads + Wait + Sync>(
    rt: &R,
    alloc: Global,
    call: u64,
) -> Result<bool, AllocError> {
    let told = stored(rt, alloc, (call, 0, 0))?;
    let untold = stored(rt, alloc, (call, 0, 1))?;
    Ok(
        told.came_to(FeedsStatus::ReadFault, "", "pegvenue: read fault\n")
            && untold.came_to(FeedsStatus::ReadFault, "", ""),
    )
}

#[test]
fn each_failing_read_puts_nothing(rt: HostRuntime) -> Result<(), Fail> {
    // Each file is begun by one call, and the last pull of a file finds its end.
    let calls = CONFIG.len().div_ceil(PIECE) + FEED.len().div_ceil(PIECE) + 4;
    for call in 0..calls {
        let is_so = puts_nothing(&rt, rt.alloc(), call as u64 + 1)?;
        assert!(rt; is_so, "at call {call}");
    }
    let ran = stored(&rt, rt.alloc(), (calls as u64 + 1, 0, 0))?;
    assert!(rt;
        ran.came_to(FeedsStatus::Done, LISTING, ""),
        "{:?}",
        ran.status
    );
    Ok(())
}

/// Whether a put that fails at this call leaves a beginning of the listing and is told, and whether there was such a call; none
/// where it is otherwise.
fn leaves_a_beginning<R: Threads + Wait + Sync>(
    rt: &R,
    alloc: Global,
    call: u64,
) -> Result<Option<bool>, AllocError> {
    let ran = stored(rt, alloc, (0, call, 0))?;
    let is_beginning = LISTING.as_bytes().starts_with(ran.out.bytes());
    Ok(match ran.status {
        FeedsStatus::Done if is_beginning => Some(false),
        FeedsStatus::WriteFault
            if is_beginning && ran.err.bytes() == b"pegvenue: write fault\n".as_slice() => {
            Some(true)
        }
        _ => None,
    })
}

#[test]
fn each_failing_write_leaves_a_beginning(rt: HostRuntime) -> Result<(), Fail> {
    let mut was_last = false;
    for call in 1..9u64 {
        let is_call = leaves_a_beginning(&rt, rt.alloc(), call)?.ok_or("no beginning")?;
        assert!(rt; !(was_last && is_call), "at call {call}");
        was_last = was_last || !is_call;
    }
    assert!(rt; was_last);
    Ok(())
}

#[test]
fn a_failed_text_makes_a_write_fault_of_a_refused_line(rt: HostRuntime) -> Result<(), Fail> {
    let fails = (0, 0, 1);
    let ran = run_paced(&rt, rt.alloc(), &Unpaced, (CONFIG, &["\n"]), PIECE, fails)?;
    assert!(rt;
        ran.came_to(FeedsStatus::WriteFault, "", ""),
        "{:?}",
        ran.status
    );
    Ok(())
}
