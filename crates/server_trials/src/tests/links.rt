//! Sessions over links in memory.
ghost use Rattle.std.specs.Prelude.{◌≡◌, ◌<◌, length, IfOk};
ghost use Rattle.venue_words.specs.Conditions.{IsConfig};

mod quotes;

use super::{A_LOGON, A_ORDER, CONFIG};
use fix_write::wrap;
use io_edge::{Link, LinkItem, MemClock, MemLink, MemShelf, Shelf};
use link_work::LinkEnd;
use member_gate::{DeskTable, Desks, desks_of};
use script_text::read_header;
use serve_core::{QuoteEnd, serve_link, serve_quotes};
use std::alloc::Global;
use std::sync::Wait;
use std::test::Fail;
use symbol_book::HashSeed;
use venue_core::{Seated, make};
use venue_words::{Config, NoMemory};

/// The moment of the config, in milliseconds since 1970-01-01 00:00 UTC.
const START: i64 = 1_704_205_800_000;

/// What the two frames are answered with.
const ANSWERS: &[u8] =
    b"8=FIXT.1.1\x019=67\x0135=A\x0149=PEGV\x0156=A\x0134=1\x0152=20240102-14:30:00.000\x0198=0\x01108=30\x011137=9\x0110=234\x018=FIXT.1.1\x019=197\x0135=8\x0149=PEGV\x0156=A\x0134=2\x0152=20240102-14:30:00.000\x0137=X-2\x0111=20240102-000017\x0117=X-2-1\x01150=0\x0139=0\x0155=X\x0154=1\x0138=2500\x0140=P\x0144=150.2500\x01151=2500\x0114=0\x016=0.0000\x0160=20240102-14:30:00.000\x01839=150.1200\x019701=2\x0110=";

/// A peer who sends the logon and the order, and then no more.
fn broker(alloc: Global, fails: Vec<u64>) -> Result<MemLink, NoMemory> {
    let mut items = Vec::new(alloc);
    items.push(LinkItem::Piece(wrap(alloc, A_LOGON)?))?;
    items.push(LinkItem::Piece(wrap(alloc, A_ORDER)?))?;
    items.push(LinkItem::End)?;
    Ok(MemLink::new(alloc, items, fails))
}

/// The config of all trials.
fn config_of(alloc: Global) -> Result<Config, NoMemory>
    ensures { IfOk result IsConfig }
{
    match read_header(alloc, CONFIG) {
        Ok((config, _)) => Ok(config),
        Err(_) => Err(NoMemory),
    }
}

/// A shelf whose file is this text, of which a read gives seven bytes at most, and whose call of this number fails; 0 is none.
fn shelf_of(alloc: Global, text: Vec<u8>, fails: u64) -> Result<MemShelf, NoMemory> {
    let mut files = Vec::new(alloc);
    files.push((String::from_str(alloc, "q")?, text))?;
    Ok(MemShelf::new(files, 7, vec![in alloc; fails]?))
}

/// A clock that stands at the moment of the config.
fn clock_of(alloc: Global) -> Result<MemClock, NoMemory> {
    Ok(MemClock::new(vec![in alloc; START]?))
}

/// How one connection ended, and whether A's desk is there behind it.
#[derive(Drop)]
struct Outcome {
    end: LinkEnd,
    is_back: bool,
}

impl Outcome {
    /// Whether the connection ended so, and the desk is there.
    fn is_back_at(&self, end: LinkEnd) -> bool {
        self.end == end && self.is_back
    }
}

/// The desks of all members, or without A's.
fn desks_for(alloc: Global, config: &Config, is_there: bool) -> Result<DeskTable, NoMemory>
    requires { IsConfig config.now }
    ensures { IfOk result (λ desks. ⟦<DeskTable as Desks>⟧.members desks ≡ length config.now.members) }
{
    let mut desks = DeskTable::new(alloc, desks_of(alloc, config)?)?;
    if !is_there && desks.members() > 0 {
        drop(desks.take(0));
    }
    Ok(desks)
}

/// The end of a connection to a venue that took all quotes.
fn end_behind(quoted: QuoteEnd, end: LinkEnd) -> Result<LinkEnd, NoMemory> {
    match quoted {
        QuoteEnd::Done => Ok(end),
        _ => Err(NoMemory),
    }
}

/// Serves one connection over a venue of its own that has taken the quotes of the shelf's file.
fn served_at<R: Wait, H: Shelf, D: Desks, K: Link>(
    rt: &R,
    alloc: Global,
    config: &Config,
    shelf: &mut H,
    desks: &mut D,
    link: &mut K,
) -> Result<LinkEnd, NoMemory>
    requires config { IsConfig config.now }
    requires desks { D.members desks.old ≡ length config.now.members }
{
    let mut clock = clock_of(alloc)?;
    let (venue, seats) = make(alloc, HashSeed::fixed(), config)?;
    let mut floor = Seated {
        rt,
        venue: &venue,
        seats,
    };
    let quoted = serve_quotes(alloc, config, &mut floor, shelf, "q", &mut clock);
    let end = serve_link(alloc, config, &mut floor, desks, link, &mut clock);
    drop(floor);
    drop(venue);
    drop(clock);
    end_behind(quoted, end)
}

/// Serves one connection over a venue that has taken the quote 150.10 to 150.14, with the desks of all members, or without A's.
fn served_under<R: Wait>(
    rt: &R,
    alloc: Global,
    config: &Config,
    link: &mut MemLink,
    is_there: bool,
) -> Result<Outcome, NoMemory>
    requires { IsConfig config.now }
{
    let quote = Vec::from_slice(alloc, b"Q X N 150.10 150.14\n")?;
    let mut shelf = shelf_of(alloc, quote, 0)?;
    let mut desks = desks_for(alloc, config, is_there)?;
    let ended = served_at(rt, alloc, config, &mut shelf, &mut desks, link);
    let is_back = desks.members() > 0 && desks.take(0).is_some();
    drop(desks);
    drop(shelf);
    let end = ended?;
    Ok(Outcome { end, is_back })
}

/// Serves one connection under the config of all trials: see `served_under`.
fn served<R: Wait>(
    rt: &R,
    alloc: Global,
    link: &mut MemLink,
    is_there: bool,
) -> Result<Outcome, NoMemory> {
    let config = config_of(alloc)?;
    let outcome = served_under(rt, alloc, &config, link, is_there);
    drop(config);
    outcome
}

#[test]
fn a_brokers_order_is_acknowledged(rt: HostRuntime) -> Result<(), Fail> {
    let alloc = rt.alloc();
    let mut link = broker(alloc, Vec::new(alloc))?;
    let ended = served(&rt, alloc, &mut link, true)?;
    let is_put = link.bytes().starts_with(ANSWERS);
    assert!(rt;
        ended.is_back_at(LinkEnd::PeerEnd) && is_put,
        "{:?}",
        ended.end
    );
    Ok(())
}

#[test]
fn a_failed_put_ends_the_connection(rt: HostRuntime) -> Result<(), Fail> {
    let alloc = rt.alloc();
    let mut link = broker(alloc, vec![in alloc; 2]?)?;
    let ended = served(&rt, alloc, &mut link, true)?;
    let is_empty = link.bytes().is_empty();
    assert!(rt;
        ended.is_back_at(LinkEnd::LinkFault) && is_empty,
        "{:?}",
        ended.end
    );
    Ok(())
}

/// Whether these bytes are a beginning of the answers, which end with a check sum.
fn is_beginning(put: &[u8]) -> bool {
    put.len() <= 90 + 221 && ANSWERS.starts_with(&put[..put.len().min(ANSWERS.len())])
}

#[test]
fn each_failing_call_leaves_a_prefix(rt: HostRuntime) -> Result<(), Fail> {
    let alloc = rt.alloc();
    for number in 1..6u64 {
        let mut link = broker(alloc, vec![in alloc; number]?)?;
        let ended = served(&rt, alloc, &mut link, true)?;
        let is_put = is_beginning(link.bytes());
        assert!(rt;
            ended.is_back_at(LinkEnd::LinkFault) && is_put,
            "{number}: {:?}",
            ended.end
        );
    }
    Ok(())
}

#[test]
fn a_second_connection_is_refused(rt: HostRuntime) -> Result<(), Fail> {
    let alloc = rt.alloc();
    let mut link = broker(alloc, Vec::new(alloc))?;
    let ended = served(&rt, alloc, &mut link, false)?;
    let is_empty = link.bytes().is_empty();
    assert!(rt; ended.end == LinkEnd::InUse && is_empty, "{:?}", ended.end);
    Ok(())
}
