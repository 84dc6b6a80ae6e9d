//! Connections over links in memory.
ghost use Rattle.std.specs.Prelude.{◌≡◌, ◌<◌, length};
ghost use Rattle.venue_words.specs.Conditions.{IsConfig};
ghost use Rattle.venue_words.specs.Floors.{IsSetUpFor};

use super::{
    FIRST_AGAIN, FIRST_COPY, LOGON, LOGON_ANSWER, ORDER, ORDER_ANSWER, RESEND, SECOND_AGAIN,
    SECOND_COPY, config_of, desk_of, frame_of, frames_of, start, trade,
};
use drop_copy::{LinkEnd, serve_drop};
use io_edge::{LinkItem, MemClock, MemLink};
use std::alloc::Global;
use std::marker::Brand;
use std::sync::Wait;
use std::sync::ledger::Blank;
use std::test::Fail;
use symbol_book::HashSeed;
use venue_core::{Seated, make};
use venue_words::{Config, Floor, Held, NoMemory};

/// The piece that one frame is.
fn piece(alloc: Global, text: &[u8]) -> Result<LinkItem, NoMemory> {
    Ok(LinkItem::Piece(frame_of(alloc, text)?))
}

/// A peer who logs on, asks for both copies again, sends an order, and then no more.
fn broker(alloc: Global, fails: Vec<u64>) -> Result<MemLink, NoMemory> {
    let mut items = Vec::new(alloc);
    items.push(piece(alloc, LOGON)?)?;
    items.push(piece(alloc, RESEND)?)?;
    items.push(LinkItem::Quiet)?;
    items.push(piece(alloc, ORDER)?)?;
    items.push(LinkItem::End)?;
    Ok(MemLink::new(alloc, items, fails))
}

/// Serves one connection over a floor behind a trade of A and B.
fn served_over<'a, R: Wait, V: Held>(
    alloc: Global,
    config: &Config,
    floor: &mut Seated<'a, R, V>,
    link: &mut MemLink,
) -> Result<LinkEnd, NoMemory>
    requires config { IsConfig config.now }
    requires setup { IsSetUpFor config.now (⟦<Seated<'a, R, V> as Floor>⟧.mark floor.old).setup }
    requires members { length config.now.members ≡ 2 }
    requires markets { length config.now.markets ≡ 1 }
    requires symbols { 0 < length (⟦<Seated<'a, R, V> as Floor>⟧.mark floor.old).setup.limits }
{
    trade::<_, Brand>(alloc, floor, Blank::new(1))?;
    let mut clock = MemClock::new(vec![in alloc; start()]?);
    let mut desk = desk_of(alloc, config)?;
    let end = serve_drop(alloc, config, floor, &mut desk, link, &mut clock);
    drop(desk);
    drop(clock);
    Ok(end)
}

/// Serves one connection over a venue for many threads, of this config.
fn served_under<R: Wait>(
    rt: &R,
    alloc: Global,
    config: &Config,
    link: &mut MemLink,
) -> Result<LinkEnd, NoMemory>
    requires config { IsConfig config.now }
    requires members { length config.now.members ≡ 2 }
    requires markets { length config.now.markets ≡ 1 }
    requires symbols { length config.now.limits ≡ 2 }
{
    let (venue, seats) = make(alloc, HashSeed::fixed(), config)?;
    let mut floor = Seated {
        rt,
        venue: &venue,
        seats,
    };
    let end = served_over(alloc, config, &mut floor, link);
    drop(floor);
    drop(venue);
    end
}

/// Serves one connection under the config of all trials.
fn served<R: Wait>(rt: &R, alloc: Global, link: &mut MemLink) -> Result<LinkEnd, NoMemory> {
    let config = config_of(alloc)?;
    let end = served_under(rt, alloc, &config, link);
    drop(config);
    end
}

/// All that is put.
const ANSWERS: &[&[u8]] = &[
    LOGON_ANSWER,
    FIRST_COPY,
    SECOND_COPY,
    FIRST_AGAIN,
    SECOND_AGAIN,
    ORDER_ANSWER,
];

#[test]
fn replies_and_then_copies_are_put(rt: HostRuntime) -> Result<(), Fail> {
    let alloc = rt.alloc();
    let mut link = broker(alloc, Vec::new(alloc))?;
    let end = served(&rt, alloc, &mut link)?;
    assert_eq!(rt; end, LinkEnd::PeerEnd);
    assert!(rt; link.bytes() == frames_of(alloc, ANSWERS)?.as_slice());
    Ok(())
}

#[test]
fn each_failing_call_leaves_a_prefix(rt: HostRuntime) -> Result<(), Fail> {
    let alloc = rt.alloc();
    let whole = frames_of(alloc, ANSWERS)?;
    // Five pulls and six puts.
    for number in 1..12u64 {
        let mut link = broker(alloc, vec![in alloc; number]?)?;
        let end = served(&rt, alloc, &mut link)?;
        assert_eq!(rt; end, LinkEnd::LinkFault, "{number}");
        assert!(rt; whole.starts_with(link.bytes()));
    }
    Ok(())
}
