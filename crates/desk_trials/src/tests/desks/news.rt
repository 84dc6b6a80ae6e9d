//! What a desk pulls as news.
ghost use Rattle.std.specs.Prelude.{◌≡◌, ◌≢◌, ℕ, ◌<◌, length, IfOk};
ghost use Rattle.venue_words.specs.Conditions.{IsConfig};
ghost use Rattle.venue_words.specs.Floors.{IsSetUpFor};
ghost use Rattle.member_gate.specs.Reporting.{AreFronts};

use super::counting::Counting;
use super::frames::frames_of;
use super::sequences::{LOGON, ORDER};
use super::{config_of, start};
use member_gate::{Awaited, Desk, DeskRefusal};
use std::alloc::Global;
use std::marker::Brand;
use std::sync::ledger::{Blank, Ledger};
use std::test::Fail;
use symbol_book::HashSeed;
use venue_core::plain;
use venue_words::{Config, Floor, NoMemory, Steps};

/// How many reports of a symbol there are.
fn front_of<F: Floor>(floor: &mut F, symbol: u32) -> Result<u32, NoMemory>
    requires symbol { symbol < length (F.mark floor.old).setup.limits }
    requires member { 0 < (F.mark floor.old).setup.members }
    ensures mark { F.mark floor.new ≡ F.mark floor.old }
    ensures others { (other : ℕ) → other ≢ symbol → F.at floor.new other ≡ F.at floor.old other }
    ensures front { IfOk result (λ front. front ≡ length (F.at floor.new symbol).reports) }
{
    let look = floor.reports_after(symbol, 0, 0)?;
    let front = look.front;
    drop(look);
    Ok(front)
}

/// Pulls news where there are some: whether there were, how many frames came, and whether there are some then.
fn pull_known<F: Floor>(
    desk: &mut Desk,
    floor: &mut F,
    config: &Config,
    fronts: &[u32],
) -> Result<(bool, usize, bool), NoMemory>
    requires config { IsConfig config.now }
    requires setup { IsSetUpFor config.now (F.mark floor.old).setup }
    requires member { desk.old.member < length config.now.members }
    requires fronts { AreFronts (length config.now.symbols) (λ symbol. (F.at floor.old symbol).reports) fronts.now }
{
    let awaited = Awaited {
        fronts,
        asked: &[true, true],
    };
    let before = desk.has_news(awaited);
    let frames = desk.pull_news(floor, config, awaited, start())?;
    let count = frames.len();
    drop(frames);
    Ok((before, count, desk.has_news(awaited)))
}

/// The same where both symbols are asked first.
fn pull_where_news<F: Floor>(
    desk: &mut Desk,
    floor: &mut F,
    config: &Config,
) -> Result<(bool, usize, bool), NoMemory>
    requires config { IsConfig config.now }
    requires setup { IsSetUpFor config.now (F.mark floor.old).setup }
    requires member { desk.old.member < length config.now.members }
    requires symbols { length config.now.symbols ≡ 2 }
{
    let first = front_of(floor, 0)?;
    let second = front_of(floor, 1)?;
    pull_known(desk, floor, config, &[first, second])
}

/// Gives a desk a piece, whatever it sends.
fn take<F: Floor, L: Ledger>(
    desk: &mut Desk,
    floor: &mut F,
    config: &Config,
    piece: &[u8],
    blank: Blank,
) -> Result<(), DeskRefusal>
    requires config { IsConfig config.now }
    requires setup { IsSetUpFor config.now (F.mark floor.old).setup }
    requires member { desk.old.member < length config.now.members }
    requires blank { (blank.name ≡ L.name) × (blank.parts ≡ L.parts) × (L.parts ≡ 1) }
    ensures member { desk.new.member ≡ desk.old.member }
    ensures mark { F.mark floor.new ≡ F.mark floor.old }
{
    let mut steps: Steps<L> = Steps::start(blank);
    let turn = desk.take(floor, config, 1, start(), piece, &mut steps)?;
    drop(turn);
    Ok(())
}

/// A logs on and enters an order: what its desk then tells and pulls as news, and how many commands it submitted.
fn news_of_order<F: Floor, L: Ledger>(
    alloc: Global,
    desk: &mut Desk,
    floor: &mut F,
    config: &Config,
    blank: Blank,
) -> Result<((bool, usize, bool), u32), DeskRefusal>
    requires config { IsConfig config.now }
    requires setup { IsSetUpFor config.now (F.mark floor.old).setup }
    requires member { desk.old.member < length config.now.members }
    requires symbols { length config.now.symbols ≡ 2 }
    requires blank { (blank.name ≡ L.name) × (blank.parts ≡ L.parts) × (L.parts ≡ 1) }
{
    let piece = frames_of(alloc, &[LOGON, ORDER])?;
    let taken = take::<F, L>(desk, floor, config, &piece, blank);
    drop(piece);
    taken?;
    let submitted = desk.submitted();
    Ok((pull_where_news(desk, floor, config)?, submitted))
}

/// The same over a new venue, and how often the second symbol was asked.
fn news_over(
    alloc: Global,
    desk: &mut Desk,
    config: &Config,
) -> Result<((bool, usize, bool), u32, u32), DeskRefusal>
    requires config { IsConfig config.now }
    requires member { desk.old.member < length config.now.members }
    requires symbols { length config.now.symbols ≡ 2 }
{
    let mut floor = Counting {
        floor: plain(alloc, HashSeed::fixed(), config)?,
        asked: 0,
    };
    let blank = Blank::new(1);
    let news = news_of_order::<_, Brand>(alloc, desk, &mut floor, config, blank);
    let asked = floor.asked;
    drop(floor);
    let (pulled, submitted) = news?;
    Ok((pulled, submitted, asked))
}

/// The same over a new desk of A.
fn news_under(
    alloc: Global,
    config: &Config,
) -> Result<((bool, usize, bool), u32, u32), DeskRefusal>
    requires config { IsConfig config.now }
    requires members { 0 < length config.now.members }
    requires symbols { length config.now.symbols ≡ 2 }
{
    let mut desk = Desk::new(alloc, 0, config)?;
    let news = news_over(alloc, &mut desk, config);
    drop(desk);
    news
}

fn news_and_asked(alloc: Global) -> Result<((bool, usize, bool), u32, u32), DeskRefusal> {
    let config = config_of(alloc)?;
    let news = news_under(alloc, &config);
    drop(config);
    news
}

#[test]
fn news_alone_are_asked_for(rt: HostRuntime) -> Result<(), Fail> {
    let (pulled, submitted, asked) = news_and_asked(rt.alloc()).map_err(|_| NoMemory)?;
    assert_eq!(rt; pulled, (true, 1, false));
    assert_eq!(rt; submitted, 1);
    // The count of its reports was asked for once, and nothing by the pull.
    assert_eq!(rt; asked, 1);
    Ok(())
}
