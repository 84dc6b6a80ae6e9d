//! Worked examples over a desk, with each piece cut in two at many places.
ghost use Rattle.std.specs.Prelude.{◌≡◌, ◌<◌, ◌^◌, length, IfOk};
ghost use Rattle.venue_words.specs.Conditions.{IsConfig};
ghost use Rattle.venue_words.specs.Floors.{IsSetUpFor};

mod counting;
mod frames;
mod news;
mod sequences;
mod taking;

use fix_fields::moment;
use frames::{bytes_of, frames_of, have_contents};
use member_gate::{Desk, DeskRefusal};
use script_text::read_header;
use sequences::{
    FULL, GAP_AND_TICK, NEXT_CONNECTION, NOT_TOO_LONG, REFUSALS, RESEND, TOO_LONG, TOO_LOW, UNKNOWN,
};
use std::alloc::Global;
use std::marker::Brand;
use std::sync::ledger::{Blank, Ledger};
use std::test::Fail;
use symbol_book::HashSeed;
use venue_core::plain;
use venue_words::{Bytes, Command, Config, Floor, NoMemory, Steps};

/// Texts, in which `|` stands for the end of a field.
type Texts = &'static [&'static [u8]];

/// What comes to a desk.
enum Received {
    /// The frames of these contents.
    Messages(Texts),
    /// These bytes as they are.
    Raw(&'static [u8]),
    /// The frames of these contents, at which the journal is found full.
    Refused(Texts),
    /// The quote 10.00 to 10.01, from another feed.
    Quote,
    /// The clock.
    Tick(&'static [u8]),
    /// A new connection.
    Connection,
}

/// What comes to a desk, the contents of the frames that it sends for it at once, and of those that are pulled then.
type Case = (Received, Texts, Texts);

fn at(text: &[u8]) -> i64 {
    moment(text).unwrap_or(0)
}

fn start() -> i64 {
    at(b"20240102-14:30:00.000")
}

/// Two members, one market and two symbols, each of which takes four events.
const CONFIG: &[u8] =
    b"PEGV 1\nMEMBER A\nMEMBER B\nMARKET N\nSYMBOL X 4\nSYMBOL Y 4\nBEGIN 19700101-00:00:00.000\n";

/// The config of these.
fn config_of(alloc: Global) -> Result<Config, NoMemory>
    ensures config { IfOk result IsConfig }
    ensures members { IfOk result (λ config. length config.members ≡ 2) }
    ensures markets { IfOk result (λ config. length config.markets ≡ 1) }
    ensures symbols { IfOk result (λ config. length config.symbols ≡ 2) }
{
    config_in(alloc, CONFIG)
}

/// The config of a text that says so many.
fn config_in(alloc: Global, text: &[u8]) -> Result<Config, NoMemory>
    requires { length text.now < 2 ^ 31 }
    ensures config { IfOk result IsConfig }
    ensures members { IfOk result (λ config. length config.members ≡ 2) }
    ensures markets { IfOk result (λ config. length config.markets ≡ 1) }
    ensures symbols { IfOk result (λ config. length config.symbols ≡ 2) }
{
    let Ok((config, _)) = read_header(alloc, text) else {
        return Err(NoMemory);
    };
    if config.members.len() == 2 && config.markets.len() == 1 && config.symbols.len() == 2 {
        Ok(config)
    } else {
        Err(NoMemory)
    }
}

/// Gives a desk a piece, and appends what it sends.
fn take_more<F: Floor, L: Ledger>(
    desk: &mut Desk,
    floor: &mut F,
    config: &Config,
    piece: &[u8],
    steps: &mut Steps<L>,
    replies: &mut Vec<Bytes>,
) -> Result<(), DeskRefusal>
    requires config { IsConfig config.now }
    requires setup { IsSetUpFor config.now (F.mark floor.old).setup }
    requires member { desk.old.member < length config.now.members }
    ensures member { desk.new.member ≡ desk.old.member }
    ensures mark { F.mark floor.new ≡ F.mark floor.old }
{
    let mut more = desk
        .take(floor, config, 1, start(), piece, steps)?
        .replies
        .into_vec();
    let appended = replies.append(&mut more);
    drop(more);
    Ok(appended?)
}

/// Gives a desk a piece in two parts, cut at this place or at the end, and answers what it sends.
fn take_cut<F: Floor, L: Ledger>(
    desk: &mut Desk,
    floor: &mut F,
    config: &Config,
    piece: &[u8],
    cut: usize,
    steps: &mut Steps<L>,
) -> Result<Vec<Bytes>, DeskRefusal>
    requires config { IsConfig config.now }
    requires setup { IsSetUpFor config.now (F.mark floor.old).setup }
    requires member { desk.old.member < length config.now.members }
    ensures member { desk.new.member ≡ desk.old.member }
    ensures mark { F.mark floor.new ≡ F.mark floor.old }
{
    let (first, second) = piece.split_at(cut.min(piece.len()));
    let mut replies = desk
        .take(floor, config, 1, start(), first, steps)?
        .replies
        .into_vec();
    take_more(desk, floor, config, second, steps, &mut replies)?;
    Ok(replies)
}

/// Submits the quote 10.00 to 10.01, from another feed.
fn submit_quote<F: Floor, L: Ledger>(floor: &mut F, steps: &mut Steps<L>) -> Result<(), DeskRefusal>
    requires symbols { 0 < length (F.mark floor.old).setup.limits }
    requires markets { 0 < (F.mark floor.old).setup.markets }
    ensures mark { F.mark floor.new ≡ F.mark floor.old }
{
    let command = Command::Quote {
        market: 0,
        bid: Some(1000),
        offer: Some(1001),
    };
    let submitted = floor.submit(0, 9, start(), &command, steps);
    drop(command);
    match submitted {
        Ok(_) => Ok(()),
        Err(_) => Err(DeskRefusal::NoMemory),
    }
}

/// Nothing is sent where a journal was found full.
fn none_where_full(
    alloc: Global,
    sent: Result<Vec<Bytes>, DeskRefusal>,
) -> Result<Vec<Bytes>, DeskRefusal> {
    match sent {
        Err(
            DeskRefusal::Full {
                symbol: 0,
                found: 4,
            },
        ) => Ok(Vec::new(alloc)),
        _ => Err(DeskRefusal::NoMemory),
    }
}

/// What a desk sends at once for what it receives.
fn receive<F: Floor, L: Ledger>(
    alloc: Global,
    desk: &mut Desk,
    floor: &mut F,
    config: &Config,
    received: &Received,
    cut: usize,
    steps: &mut Steps<L>,
) -> Result<Vec<Bytes>, DeskRefusal>
    requires config { IsConfig config.now }
    requires setup { IsSetUpFor config.now (F.mark floor.old).setup }
    requires member { desk.old.member < length config.now.members }
    requires symbols { 0 < length config.now.symbols }
    requires markets { 0 < length config.now.markets }
    ensures member { desk.new.member ≡ desk.old.member }
    ensures mark { F.mark floor.new ≡ F.mark floor.old }
{
    match received {
        Received::Messages(texts) => {
            let piece = frames_of(alloc, *texts)?;
            let sent = take_cut(desk, floor, config, &piece, cut, steps);
            drop(piece);
            sent
        }
        Received::Raw(text) => {
            let piece = bytes_of(alloc, text)?;
            let sent = take_cut(desk, floor, config, &piece, cut, steps);
            drop(piece);
            sent
        }
        Received::Refused(texts) => {
            let piece = frames_of(alloc, *texts)?;
            let sent = take_cut(desk, floor, config, &piece, cut, steps);
            drop(piece);
            none_where_full(alloc, sent)
        }
        Received::Quote => {
            submit_quote(floor, steps)?;
            Ok(Vec::new(alloc))
        }
        Received::Tick(text) => Ok(desk.tick(at(text))?.replies.into_vec()),
        Received::Connection => {
            desk.open();
            Ok(Vec::new(alloc))
        }
    }
}

/// Whether a desk pulls frames of these contents.
fn pulls<F: Floor>(
    alloc: Global,
    desk: &mut Desk,
    floor: &mut F,
    config: &Config,
    texts: Texts,
) -> Result<bool, DeskRefusal>
    requires config { IsConfig config.now }
    requires setup { IsSetUpFor config.now (F.mark floor.old).setup }
    requires member { desk.old.member < length config.now.members }
    ensures member { desk.new.member ≡ desk.old.member }
    ensures mark { F.mark floor.new ≡ F.mark floor.old }
{
    let pulled = desk.pull(floor, config, start())?;
    let are_wanted = have_contents(alloc, &pulled, texts);
    drop(pulled);
    Ok(are_wanted?)
}

/// Works the cases in their order, each piece being cut at this place, and answers the first one that goes otherwise.
fn first_other<F: Floor, L: Ledger>(
    alloc: Global,
    desk: &mut Desk,
    floor: &mut F,
    config: &Config,
    cases: &[Case],
    cut: usize,
    blank: Blank,
) -> Result<Option<usize>, DeskRefusal>
    requires config { IsConfig config.now }
    requires setup { IsSetUpFor config.now (F.mark floor.old).setup }
    requires member { desk.old.member < length config.now.members }
    requires symbols { 0 < length config.now.symbols }
    requires markets { 0 < length config.now.markets }
    requires blank { (blank.name ≡ L.name) × (blank.parts ≡ L.parts) × (L.parts ≡ 1) }
{
    let mut steps: Steps<L> = Steps::start(blank);
    for (place, case) in cases.iter().enumerate() {
        let (received, replies, reports) = case;
        let sent = receive(alloc, desk, floor, config, received, cut, &mut steps)?;
        let are_sent = have_contents(alloc, &sent, *replies);
        drop(sent);
        if !are_sent? || !pulls(alloc, desk, floor, config, *reports)? {
            return Ok(Some(place));
        }
    }
    Ok(None)
}

/// Works the cases over a desk and a new venue.
fn other_over(
    alloc: Global,
    desk: &mut Desk,
    config: &Config,
    cases: &[Case],
    cut: usize,
) -> Result<Option<usize>, DeskRefusal>
    requires config { IsConfig config.now }
    requires member { desk.old.member < length config.now.members }
    requires symbols { 0 < length config.now.symbols }
    requires markets { 0 < length config.now.markets }
{
    let mut floor = plain(alloc, HashSeed::fixed(), config)?;
    let blank = Blank::new(1);
    let other = first_other::<_, Brand>(alloc, desk, &mut floor, config, cases, cut, blank);
    drop(floor);
    other
}

/// Works the cases over a new desk of A.
fn other_under(
    alloc: Global,
    config: &Config,
    cases: &[Case],
    cut: usize,
) -> Result<Option<usize>, DeskRefusal>
    requires config { IsConfig config.now }
    requires members { 0 < length config.now.members }
    requires symbols { 0 < length config.now.symbols }
    requires markets { 0 < length config.now.markets }
{
    let mut desk = Desk::new(alloc, 0, config)?;
    let other = other_over(alloc, &mut desk, config, cases, cut);
    drop(desk);
    other
}

fn goes_otherwise(alloc: Global, cases: &[Case], cut: usize) -> Result<Option<usize>, DeskRefusal> {
    let config = config_of(alloc)?;
    let other = other_under(alloc, &config, cases, cut);
    drop(config);
    other
}

/// How many sequences there are.
const SEQUENCES: usize = 9;

/// The sequence with this number.
fn sequence(number: usize) -> &'static [Case] {
    match number {
        0 => RESEND,
        1 => REFUSALS,
        2 => UNKNOWN,
        3 => TOO_LONG,
        4 => NOT_TOO_LONG,
        5 => NEXT_CONNECTION,
        6 => GAP_AND_TICK,
        7 => TOO_LOW,
        _ => FULL,
    }
}

/// The places at which pieces are cut.
const CUTS: [usize; 7] = [0, 1, 11, 20, 40, 90, 1000];

#[test]
fn worked_examples(rt: HostRuntime) -> Result<(), Fail> {
    for number in 0..SEQUENCES {
        for cut in &CUTS {
            let other = goes_otherwise(rt.alloc(), sequence(number), *cut).map_err(|_| NoMemory)?;
            assert!(rt;
                other.is_none(),
                "sequence {number}, cut at {cut}: {other:?}"
            );
        }
    }
    Ok(())
}
