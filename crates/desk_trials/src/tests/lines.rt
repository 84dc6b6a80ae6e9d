//! Lines worked over a floor that lists commands.
ghost use Rattle.std.specs.Prelude.{◌≡◌};
ghost use Rattle.venue_words.specs.Floors.{IsSetUpFor};

mod listing;

use line_work::LineWorker;
use listing::Listing;
use script_text::{LineCause, LineFault, read_header};
use std::alloc::Global;
use std::marker::Brand;
use std::sync::ledger::{Blank, Ledger};
use std::test::Fail;
use venue_words::{Command, Event, Floor, NoMemory, Steps};

const CONFIG: &[u8] =
    b"PEGV 1\nMEMBER A\nMEMBER B\nMARKET N\nSYMBOL X 100\nBEGIN 20240102-14:30:00.000\n";

/// Two members log on and trade; B's order comes a second later.
const TRADE: [&[u8]; 6] = [
    b"M A 35=A|49=A|56=PEGV|34=1|52=20240102-14:30:00|98=0|108=30|1137=9|",
    b"M B 35=A|49=B|56=PEGV|34=1|52=20240102-14:30:00|98=0|108=30|1137=9|",
    b"Q X N 10.00 10.01",
    b"M A 35=D|49=A|56=PEGV|34=2|52=20240102-14:30:00|11=a1|55=X|54=1|38=100|40=P|1094=2|60=20240102-14:30:00|",
    b"T 20240102-14:30:01.000",
    b"M B 35=D|49=B|56=PEGV|34=2|52=20240102-14:30:01|11=b1|55=X|54=2|38=100|40=P|1094=2|60=20240102-14:30:01|",
];

/// The replies to the two logons.
const LOGONS: &[u8] =
    b"A 8=FIXT.1.1|9=67|35=A|49=PEGV|56=A|34=1|52=20240102-14:30:00.000|98=0|108=30|1137=9|10=234|\nB 8=FIXT.1.1|9=67|35=A|49=PEGV|56=B|34=1|52=20240102-14:30:00.000|98=0|108=30|1137=9|10=235|\n";

/// The moment of the config, in milliseconds since 1970-01-01 00:00 UTC.
const START: i64 = 1_704_205_800_000;

/// Works lines of the feed 3.
fn work_all<F: Floor, L: Ledger>(
    worker: &mut LineWorker,
    floor: &mut F,
    lines: &[&[u8]],
    out: &mut Vec<u8>,
    blank: Blank,
) -> Result<(), LineFault>
    requires setup { IsSetUpFor worker.old.config (F.mark floor.old).setup }
    requires blank { (blank.name ≡ L.name) × (blank.parts ≡ L.parts) × (L.parts ≡ 1) }
{
    let mut steps: Steps<L> = Steps::start(blank);
    for line in lines {
        match worker.line(floor, 3, line, out, &mut steps) {
            Ok(()) => {}
            Err(fault) => return Err(fault),
        }
    }
    Ok(())
}

/// What the lines come to, what is listed, and what is put.
fn worked(
    alloc: Global,
    lines: &[&[u8]],
) -> Result<(Result<(), LineFault>, Listing, Vec<u8>), LineFault> {
    let (config, _) = read_header(alloc, CONFIG)?;
    if config.symbols.len() != 1 {
        return Err(LineFault::NoMemory);
    }
    let mut floor = Listing::new(alloc, &config);
    let mut worker = LineWorker::new(alloc, config)?;
    let mut out = Vec::new(alloc);
    let end = work_all::<Listing, Brand>(&mut worker, &mut floor, lines, &mut out, Blank::new(1));
    drop(worker);
    Ok((end, floor, out))
}

/// Whether an event is the quote 10.00 to 10.01 of the market 0, by the feed 3 at the start.
fn is_quote(event: &Event) -> bool {
    let moment = event.moment;
    match &event.command {
        Command::Quote { market, bid, offer } => {
            event.feed == 3
                && moment == START
                && *market == 0
                && *bid == Some(1000)
                && *offer == Some(1001)
        }
        _ => false,
    }
}

/// Whether an event is a New of this member and identifier, by the feed 3 at this moment.
fn is_new(event: &Event, of: u32, named: &[u8], at: i64) -> bool {
    let moment = event.moment;
    match &event.command {
        Command::New { member, id, .. } => {
            event.feed == 3 && moment == at && *member == of && id.as_slice() == named
        }
        _ => false,
    }
}

#[test]
fn a_trade_is_listed(rt: HostRuntime) -> Result<(), Fail> {
    let (end, floor, out) = worked(rt.alloc(), &TRADE).map_err(|_| NoMemory)?;
    assert!(rt; end.is_ok(), "{end:?}");
    assert!(rt; out.as_slice() == LOGONS);
    let listed = floor.journal.as_slice();
    assert!(rt; listed.len() == 3);
    assert!(rt; is_quote(&listed[0]));
    assert!(rt; is_new(&listed[1], 0, b"a1", START));
    assert!(rt; is_new(&listed[2], 1, b"b1", START + 1000));
    Ok(())
}

#[test]
fn a_refused_line_ends_the_list(rt: HostRuntime) -> Result<(), Fail> {
    let lines: [&[u8]; 3] = [
        b"Q X N 10.00 10.01",
        b"Q Y N 10.00 10.01",
        b"Q X N 10.01 10.02",
    ];
    let (end, floor, _) = worked(rt.alloc(), &lines).map_err(|_| NoMemory)?;
    assert!(rt; floor.journal.len() == 1);
    match end {
        Err(
            LineFault::Bad {
                line: 1,
                cause: LineCause::UnknownName,
            },
        ) => Ok(()),
        other => panic!(rt; "{other:?}"),
    }
}
