//! Drop copies: worked examples over a venue for one thread, and connections over links in memory. Here is what both share: a config, a trade
//! of its two members, and frames.
ghost use Rattle.std.specs.Prelude.{◌≡◌, ◌<◌, ◌≤◌, ◌^◌, true, length, IfOk};
ghost use Rattle.drop_copy.specs.Desks.{AreConfigured};
ghost use Rattle.venue_words.specs.Conditions.{IsConfig, fits_id, fits_limits};
ghost use Rattle.venue_words.specs.Floors.{Setup, is_configured};

mod connections;
mod desks;
mod plans;

use drop_copy::DropDesk;
use fix_write::wrap;
use script_text::read_header;
use std::alloc::{AllocError, Global};
use std::sync::ledger::{Blank, Ledger};
use venue_words::{BoxedTerms, Bytes, Command, Config, Floor, Id, NoMemory, Steps, Terms};

/// The moment of all trials: 2024-01-02 14:30.
const START: i64 = 1_704_205_800_000;

const LOGON: &[u8] = b"35=A|49=DC|56=PEGV|34=1|52=20240102-14:30:00|98=0|108=30|1137=9|";

const LOGON_ANSWER: &[u8] = b"35=A|49=PEGV|56=DC|34=1|52=20240102-14:30:00.000|98=0|108=30|1137=9|";

/// The copies of A's two reports.
const FIRST_COPY: &[u8] =
    b"35=8|49=PEGV|56=DC|34=2|52=20240102-14:30:00.000|37=X-2|11=a1|17=X-2-1|150=0|39=0|55=X|54=1|38=100|40=P|151=100|14=0|6=0.0000|60=20240102-14:30:00.000|839=10.0050|9701=2|9703=A|";

const SECOND_COPY: &[u8] =
    b"35=8|49=PEGV|56=DC|34=3|52=20240102-14:30:00.000|37=X-2|11=a1|17=X-3-3|150=F|39=2|55=X|54=1|38=100|40=P|32=100|31=10.0050|151=0|14=100|6=10.0050|60=20240102-14:30:00.000|9703=A|";

/// Both are asked for again.
const RESEND: &[u8] = b"35=2|49=DC|56=PEGV|34=2|52=20240102-14:30:00|7=2|16=0|";

const FIRST_AGAIN: &[u8] =
    b"35=8|49=PEGV|56=DC|34=2|52=20240102-14:30:00.000|43=Y|122=20240102-14:30:00.000|37=X-2|11=a1|17=X-2-1|150=0|39=0|55=X|54=1|38=100|40=P|151=100|14=0|6=0.0000|60=20240102-14:30:00.000|839=10.0050|9701=2|9703=A|";

const SECOND_AGAIN: &[u8] =
    b"35=8|49=PEGV|56=DC|34=3|52=20240102-14:30:00.000|43=Y|122=20240102-14:30:00.000|37=X-2|11=a1|17=X-3-3|150=F|39=2|55=X|54=1|38=100|40=P|32=100|31=10.0050|151=0|14=100|6=10.0050|60=20240102-14:30:00.000|9703=A|";

/// An order, which a drop session does not take.
const ORDER: &[u8] =
    b"35=D|49=DC|56=PEGV|34=3|52=20240102-14:30:00|11=d1|55=X|54=1|38=100|40=P|1094=2|60=20240102-14:30:00|";

const ORDER_ANSWER: &[u8] = b"35=j|49=PEGV|56=DC|34=4|52=20240102-14:30:00.000|45=3|372=D|380=3|";

/// The same, as a value that proofs do not look into.
fn start() -> i64 {
    START
}

/// The bytes of a text in which `|` stands for the end of a field.
fn content_of(alloc: Global, text: &[u8]) -> Result<Vec<u8>, AllocError> {
    let mut content = Vec::new(alloc);
    for byte in text {
        content.push(if *byte == b'|' { 1 } else { *byte })?;
    }
    Ok(content)
}

/// The frame of such a text.
fn frame_of(alloc: Global, text: &[u8]) -> Result<Vec<u8>, NoMemory> {
    let content = content_of(alloc, text)?;
    let frame = wrap(alloc, &content);
    drop(content);
    frame
}

/// The frames of these texts, one behind the other.
fn frames_of(alloc: Global, texts: &[&[u8]]) -> Result<Vec<u8>, NoMemory> {
    let mut stream = Vec::new(alloc);
    for text in texts {
        let frame = frame_of(alloc, text)?;
        stream.extend_from_slice(&frame)?;
    }
    Ok(stream)
}

/// Members A and B, market N, and symbols X and Y.
const CONFIG: &[u8] =
    b"PEGV 1\nMEMBER A\nMEMBER B\nMARKET N\nSYMBOL X 4\nSYMBOL Y 4\nBEGIN 19700101-00:00:00.000\n";

/// The config of these.
fn config_of(alloc: Global) -> Result<Config, NoMemory>
    ensures config { IfOk result IsConfig }
    ensures members { IfOk result (λ config. length config.members ≡ 2) }
    ensures markets { IfOk result (λ config. length config.markets ≡ 1) }
    ensures symbols { IfOk result (λ config. length config.limits ≡ 2) }
{
    config_in(alloc, CONFIG)
}

/// The config of a text that says so many.
fn config_in(alloc: Global, text: &[u8]) -> Result<Config, NoMemory>
    requires { length text.now < 2 ^ 31 }
    ensures config { IfOk result IsConfig }
    ensures members { IfOk result (λ config. length config.members ≡ 2) }
    ensures markets { IfOk result (λ config. length config.markets ≡ 1) }
    ensures symbols { IfOk result (λ config. length config.limits ≡ 2) }
{
    let Ok((config, _)) = read_header(alloc, text) else {
        return Err(NoMemory);
    };
    if config.members.len() == 2 && config.markets.len() == 1 && config.limits.len() == 2 {
        Ok(config)
    } else {
        Err(NoMemory)
    }
}

/// A desk that copies A's reports.
fn desk_of(alloc: Global, config: &Config) -> Result<DropDesk, NoMemory>
    requires { 0 < length config.now.members }
    ensures { IfOk result (λ desk. AreConfigured desk.members config.now) }
{
    let name = Bytes::copy_of(alloc, b"DC")?;
    DropDesk::new(alloc, name, vec![in alloc; 0]?, config)
}

/// An order for 100 shares at the middle of the market.
fn middle_order(side: u8) -> Terms {
    Terms {
        side,
        quantity: 10_000_000_000,
        kind: b'P',
        price: None,
        force: None,
        minimum: None,
        method: None,
        peg: Some(2),
        offset: None,
        offset_kind: None,
        moves: None,
        round: None,
    }
}

/// Submits a command for X.
fn submit<F: Floor, L: Ledger>(
    floor: &mut F,
    feed: u32,
    command: &Command,
    steps: &mut Steps<L>,
) -> Result<(), NoMemory>
    requires symbol { 0 < length (F.mark floor.old).setup.limits }
    requires configured { is_configured (F.mark floor.old).setup command.now ≡ true }
    requires limits { fits_limits command.now ≡ true }
    ensures mark { F.mark floor.new ≡ F.mark floor.old }
{
    match floor.submit(0, feed, start(), command, steps) {
        Ok(_) => Ok(()),
        Err(_) => Err(NoMemory),
    }
}

/// A's or B's order of 100 shares, to buy or to sell.
fn order(alloc: Global, member: u32, id: &[u8], side: u8) -> Result<Command, NoMemory>
    requires member { member < 2 }
    requires id { fits_id id.now ≡ true }
    ensures configured { (setup : Setup) → 2 ≤ setup.members → IfOk result (λ order. is_configured setup order ≡ true) }
    ensures limits { IfOk result (λ order. fits_limits order ≡ true) }
{
    let id = Id::copy_of(alloc, id)?;
    Ok(Command::New {
        member,
        id,
        terms: BoxedTerms::new(alloc, middle_order(side))?,
    })
}

/// An order for X.
fn submit_order<F: Floor, L: Ledger>(
    alloc: Global,
    floor: &mut F,
    member: u32,
    id: &[u8],
    side: u8,
    steps: &mut Steps<L>,
) -> Result<(), NoMemory>
    requires symbol { 0 < length (F.mark floor.old).setup.limits }
    requires members { 2 ≤ (F.mark floor.old).setup.members }
    requires member { member < 2 }
    requires id { fits_id id.now ≡ true }
    ensures mark { F.mark floor.new ≡ F.mark floor.old }
{
    let order = order(alloc, member, id, side)?;
    let submitted = submit(floor, member + 1, &order, steps);
    drop(order);
    submitted
}

/// The quote 10.00 to 10.01 of X.
fn submit_quote<F: Floor, L: Ledger>(floor: &mut F, steps: &mut Steps<L>) -> Result<(), NoMemory>
    requires symbol { 0 < length (F.mark floor.old).setup.limits }
    requires markets { 1 ≤ (F.mark floor.old).setup.markets }
    ensures mark { F.mark floor.new ≡ F.mark floor.old }
{
    let quote = Command::Quote {
        market: 0,
        bid: Some(1000),
        offer: Some(1001),
    };
    let submitted = submit(floor, 3, &quote, steps);
    drop(quote);
    submitted
}

/// A quote of X, and an order of A that trades with one of B.
fn trade<F: Floor, L: Ledger>(alloc: Global, floor: &mut F, blank: Blank) -> Result<(), NoMemory>
    requires symbol { 0 < length (F.mark floor.old).setup.limits }
    requires members { 2 ≤ (F.mark floor.old).setup.members }
    requires markets { 1 ≤ (F.mark floor.old).setup.markets }
    requires blank { (blank.name ≡ L.name) × (blank.parts ≡ L.parts) × (L.parts ≡ 1) }
    ensures mark { F.mark floor.new ≡ F.mark floor.old }
{
    let mut steps: Steps<L> = Steps::start(blank);
    submit_quote(floor, &mut steps)?;
    submit_order(alloc, floor, 0, b"a1", b'1', &mut steps)?;
    submit_order(alloc, floor, 1, b"b1", b'2', &mut steps)
}
