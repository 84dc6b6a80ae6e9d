//! Quotes of a file go to a floor.
ghost use Rattle.std.specs.Prelude.{◌≡◌, ◌≢◌, ◌⊎◌, ◌≤◌, ◌<◌, ◌∷◌, [], true, false, length, IfOk, IfErr, IfSome, OnOk, Err, None, Ok, IsTrue};
ghost use Rattle.io_edge.specs.Files.{HasFile, file_named};
ghost use Rattle.venue_core.specs.Marks.{mark_of};
ghost use Rattle.venue_words.specs.Causes.{Rose};
ghost use Rattle.venue_words.specs.Conditions.{IsConfig, fits_limits};
ghost use Rattle.venue_words.specs.Floors.{is_configured, setup_of};
ghost use Rattle.venue_words.specs.declared.limits.TheConstants.{MAX_LINE_BYTES, MAX_SCRIPT_BYTES};
ghost use Rattle.member_gate.specs.Answering.{Submission};
ghost use Rattle.member_gate.specs.Submitting.{IsFullNext};
ghost use Rattle.script_text.specs.Meets.{MeetsUnless};
ghost use Rattle.script_text.specs.declared.fault.LineFault.TheVariants.{NoMemory as memory};
ghost use Rattle.line_reader.specs.Reading.{before_lines};
ghost use Rattle.serve_core.specs.Connections.{seen_at};
ghost use Rattle.serve_core.specs.QuoteFiles.{begins_quote, no_quote, nth_quote, only_quote, quote_of, rest_fault};
ghost use Rattle.serve_core.specs.Quoting.{LineEnds, QuotesEnd, Submits, end_of, end_with, feed_behind, place, quote_in};
ghost use Rattle.serve_core.specs.Turning.{GrewBy};

use io_edge::{Clock, Shelf};
use line_reader::{LineReader, NextLine, weigh};
use line_work::fault_at;
use line_work::quoting::submit;
use member_gate::DeskRefusal;
use script_text::{LimitCause, Line, LineCause, LineFault, read_line};
use std::alloc::Global;
use std::marker::Brand;
use std::sync::Wait;
use std::sync::ledger::{Blank, Ledger};
use symbol_book::Book;
use venue_core::Seated;
use venue_words::limits::MAX_SCRIPT_BYTES;
use venue_words::{Command, Config, Floor, Steps};

/// How the quotes of a file ended. Lines are counted from 1.
#[derive(Clone, Copy, Debug, PartialEq, Eq)]
pub enum QuoteEnd {
    /// The file was read to its end, and all its quotes were submitted.
    Done,
    /// That line is the first one that is no quote of the grammar. The quotes before were submitted.
    BadLine { line: u32, cause: LineCause },
    /// That line is the first one that would pass a limit. The quotes before were submitted.
    LimitLine { line: u32, which: LimitCause },
    /// A quote came to a symbol whose journal held its limit, which is this number of events.
    Full { symbol: u32, found: u32 },
    /// The file could not be opened or read. The quotes of the whole lines that were read were submitted.
    ReadFault,
    /// Memory was wanted.
    NoMemory,
}

/// A quote of a symbol.
#[derive(Drop)]
struct Quote {
    symbol: u32,
    command: Command,
}

/// A line of the file, without its LF. Lines are counted from 1.
#[derive(Clone, Copy, Debug)]
struct QuoteLine<'a> {
    number: u32,
    text: &'a [u8],
    /// It holds the byte that passes the limit on the file's bytes.
    is_over: bool,
}

/// The end at a refused line.
fn end_of(fault: LineFault) -> QuoteEnd
    ensures { result ≡ end_of fault }
{
    match fault {
        LineFault::Bad { line, cause } => QuoteEnd::BadLine { line, cause },
        LineFault::Limit { line, which } => QuoteEnd::LimitLine { line, which },
        LineFault::NoMemory => QuoteEnd::NoMemory,
    }
}

/// The fault of a line that is no quote.
fn no_quote() -> LineFault
    ensures { result ≡ no_quote }
{
    LineFault::Bad {
        line: 1,
        cause: LineCause::BadWord,
    }
}

/// Whether a line begins as a quote does.
fn begins_quote(text: &[u8]) -> bool
    ensures { result ≡ begins_quote text.now }
{
    text.first() == Some(&b'Q')
}

/// What a line of a feed says, where it is a quote.
fn only_quote(line: Line) -> Result<Quote, LineFault>
    ensures quote { IfOk result (λ quote. line ≡ Line.Quote quote.symbol quote.command) }
    ensures other { IfErr result (λ fault. only_quote (Ok line) ≡ Err fault) }
{
    match line {
        Line::Quote { symbol, command } => Ok(Quote { symbol, command }),
        _ => Err(no_quote()),
    }
}

/// Reads a line that is a quote, without its LF. A fault is that of line 1.
fn read_quote_line(alloc: Global, text: &[u8], config: &Config) -> Result<Quote, LineFault>
    requires config { IsConfig config.now }
    requires short { length text.now ≤ MAX_LINE_BYTES }
    ensures line { MeetsUnless memory quote_in (quote_of config.now text.now) result }
    ensures symbol { IfOk result (λ quote. quote.symbol < length config.now.symbols) }
    ensures configured { IfOk result (λ quote. is_configured (setup_of config.now) quote.command ≡ true) }
    ensures limits { IfOk result (λ quote. fits_limits quote.command ≡ true) }
{
    if !begins_quote(text) {
        return Err(no_quote());
    }
    match read_line(alloc, text, config) {
        Ok(line) => only_quote(line),
        Err(fault) => Err(fault),
    }
}

/// Submits a quote, with a counter of steps of its own.
fn submit_counted<F: Floor, L: Ledger>(
    floor: &mut F,
    feed: u32,
    moment: i64,
    quote: &Quote,
    blank: Blank,
) -> Result<(), DeskRefusal>
    requires symbol { quote.now.symbol < length (F.mark floor.old).setup.limits }
    requires configured { is_configured (F.mark floor.old).setup quote.now.command ≡ true }
    requires limits { fits_limits quote.now.command ≡ true }
    requires blank { (blank.name ≡ L.name) × (blank.parts ≡ L.parts) × (L.parts ≡ 1) }
    ensures mark { F.mark floor.new ≡ F.mark floor.old }
    ensures took { OnOk result (GrewBy F.at feed ((moment, quote_in quote.now) ∷ []) floor.old floor.new) }
    ensures none { IfErr result (λ refusal. GrewBy F.at feed [] floor.old floor.new
        × IsFullNext F.at (F.mark floor.old) refusal (quote_in quote.now ∷ []) floor.new) }
{
    let mut steps: Steps<L> = Steps::start(blank);
    submit(
        floor,
        feed,
        moment,
        quote.symbol,
        &quote.command,
        &mut steps,
    )
}

/// Submits a quote at the clock's moment, as the feed behind those of all members.
fn submit_now<F: Floor, C: Clock>(
    config: &Config,
    floor: &mut F,
    clock: &mut C,
    quote: &Quote,
) -> Result<(), QuoteEnd>
    requires config { IsConfig config.now }
    requires setup { (F.mark floor.old).setup ≡ setup_of config.now }
    requires symbol { quote.now.symbol < length config.now.symbols }
    requires configured { is_configured (setup_of config.now) quote.now.command ≡ true }
    requires limits { fits_limits quote.now.command ≡ true }
    ensures mark { F.mark floor.new ≡ F.mark floor.old }
    ensures ok { OnOk result (Submits F.at (feed_behind config.now) (quote_in quote.now ∷ [])
        (place floor.old (C.told clock.old)) (place floor.new (C.told clock.new))) }
    ensures err { IfErr result (λ end. LineEnds F.at (F.mark floor.old) (feed_behind config.now) (Ok (quote_in quote.now)) end
        (place floor.old (C.told clock.old)) (place floor.new (C.told clock.new))) }
{
    let feed = config.members.len() as u32 + 1;
    let moment = clock.now();
    match submit_counted::<F, Brand>(floor, feed, moment, quote, Blank::new(1)) {
        Ok(()) => Ok(()),
        Err(DeskRefusal::Full { symbol, found }) => Err(QuoteEnd::Full { symbol, found }),
        Err(DeskRefusal::NoMemory) => Err(QuoteEnd::NoMemory),
    }
}

/// Submits the quote of a line.
fn submit_line<F: Floor, C: Clock>(
    alloc: Global,
    config: &Config,
    floor: &mut F,
    clock: &mut C,
    line: QuoteLine<'_>,
) -> Result<(), QuoteEnd>
    requires config { IsConfig config.now }
    requires setup { (F.mark floor.old).setup ≡ setup_of config.now }
    requires short { length line.text.now ≤ MAX_LINE_BYTES }
    ensures mark { F.mark floor.new ≡ F.mark floor.old }
    ensures ok { OnOk result ((quote : Submission)
        × (nth_quote config.now line.entry.number line.entry.is_over line.entry.text.now ≡ Ok quote)
        × Submits F.at (feed_behind config.now) (quote ∷ [])
        (place floor.old (C.told clock.old)) (place floor.new (C.told clock.new))) }
    ensures err { IfErr result (λ end. LineEnds F.at (F.mark floor.old) (feed_behind config.now)
        (nth_quote config.now line.entry.number line.entry.is_over line.entry.text.now) end
        (place floor.old (C.told clock.old)) (place floor.new (C.told clock.new))) }
    ensures within { OnOk result (line.entry.is_over ≡ false) }
{
    let read = read_quote_line(alloc, line.text, config);
    match weigh(read, line.number, line.is_over) {
        Ok(quote) => submit_now(config, floor, clock, &quote),
        Err(fault) => Err(end_of(fault_at(line.number, fault))),
    }
}

/// The end at these bytes behind the last line. `line` is the number of one more.
fn end_at(line: u32, rest: &[u8]) -> QuoteEnd
    requires { length rest.now ≤ MAX_LINE_BYTES }
    ensures { result ≡ end_with (rest_fault line rest.now) }
{
    if rest.is_empty() {
        QuoteEnd::Done
    } else {
        QuoteEnd::BadLine {
            line,
            cause: LineCause::NoEnd,
        }
    }
}

/// Submits the quotes of the file that was begun, line by line.
fn submit_file<F: Floor, H: Shelf, C: Clock>(
    alloc: Global,
    config: &Config,
    floor: &mut F,
    reader: &mut LineReader,
    shelf: &mut H,
    clock: &mut C,
) -> QuoteEnd
    requires config { IsConfig config.now }
    requires setup { (F.mark floor.old).setup ≡ setup_of config.now }
    requires begun { IsTrue (H.begun shelf.old) }
    requires start { reader.old ≡ before_lines 0 MAX_SCRIPT_BYTES }
    ensures end { IfSome (H.left shelf.old) (λ text. QuotesEnd F.at (F.mark floor.old) config.now text (H.left shelf.new) result
        (place floor.old (C.told clock.old)) (place floor.new (C.told clock.new))) }
    ensures mark { F.mark floor.new ≡ F.mark floor.old }
    ensures later { H.faults shelf.old ≤ H.faults shelf.new }
    ensures read { result ≡ QuoteEnd.ReadFault → Rose (H.faults shelf.old) (H.faults shelf.new) }
    ensures sure { IsTrue (H.sure shelf.old) → result ≢ QuoteEnd.ReadFault }
{
    'lines: loop {
        let number = reader.lines() + 1;
        match reader.next(shelf) {
            NextLine::Line { text, is_over } => {
                let line = QuoteLine {
                    number,
                    text,
                    is_over,
                };
                match submit_line(alloc, config, floor, clock, line) {
                    Ok(()) => {}
                    Err(end) => return end,
                }
            }
            NextLine::End { rest } => return end_at(number, rest),
            NextLine::TooLong => {
                return QuoteEnd::LimitLine {
                    line: number,
                    which: LimitCause::Line,
                };
            }
            NextLine::ReadFault => return QuoteEnd::ReadFault,
        }
    }
}

/// Submits the quotes of a file over any floor, each at the clock's moment, as the feed behind those of all members.
pub fn quote_over<F: Floor, H: Shelf, C: Clock>(
    alloc: Global,
    config: &Config,
    floor: &mut F,
    shelf: &mut H,
    name: &str,
    clock: &mut C,
) -> QuoteEnd
    requires config { IsConfig config.now }
    requires setup { (F.mark floor.old).setup ≡ setup_of config.now }

    // How the file ended, and which quotes were submitted by then. Where it is not there, none was.
    ensures file { IfSome (H.told shelf.old) (λ files. IfSome (file_named files name.now) (λ text.
        QuotesEnd F.at (F.mark floor.old) config.now text (H.left shelf.new) result
        (place floor.old (C.told clock.old)) (place floor.new (C.told clock.new)))) }
    ensures missing { IfSome (H.told shelf.old) (λ files. file_named files name.now ≡ None
        → ((result ≡ QuoteEnd.ReadFault) ⊎ (result ≡ QuoteEnd.NoMemory))
        × (place floor.new (C.told clock.new) ≡ place floor.old (C.told clock.old))) }

    ensures mark { F.mark floor.new ≡ F.mark floor.old }

    // A read failed only where the shelf's count of faults rose.
    ensures later { H.faults shelf.old ≤ H.faults shelf.new }
    ensures read { result ≡ QuoteEnd.ReadFault → Rose (H.faults shelf.old) (H.faults shelf.new) }
    ensures sure { IsTrue (H.sure shelf.old) → HasFile (H.told shelf.old) name.now → result ≢ QuoteEnd.ReadFault }
{
    let Ok(mut reader) = LineReader::new(alloc, 0, MAX_SCRIPT_BYTES) else {
        return QuoteEnd::NoMemory;
    };
    match shelf.begin(name) {
        Ok(()) => submit_file(alloc, config, floor, &mut reader, shelf, clock),
        Err(_) => QuoteEnd::ReadFault,
    }
}

/// Submits the quotes of a file to a venue: see `quote_over`.
pub fn serve_quotes<R: Wait, H: Shelf, C: Clock>(
    alloc: Global,
    config: &Config,
    floor: &mut Seated<'_, R, Book>,
    shelf: &mut H,
    name: &str,
    clock: &mut C,
) -> QuoteEnd
    requires config { IsConfig config.now }
    requires setup { (mark_of floor.old.venue.now floor.old.seats).setup ≡ setup_of config.now }

    // How the file ended, and which quotes were submitted by then; the floor shows of a symbol what its seat has seen.
    ensures file { IfSome (H.told shelf.old) (λ files. IfSome (file_named files name.now) (λ text.
        QuotesEnd (λ seated symbol. seen_at seated.seats symbol) (mark_of floor.old.venue.now floor.old.seats) config.now text
        (H.left shelf.new) result (place floor.old (C.told clock.old)) (place floor.new (C.told clock.new)))) }
    ensures missing { IfSome (H.told shelf.old) (λ files. file_named files name.now ≡ None
        → ((result ≡ QuoteEnd.ReadFault) ⊎ (result ≡ QuoteEnd.NoMemory))
        × (place floor.new (C.told clock.new) ≡ place floor.old (C.told clock.old))) }

    ensures mark { mark_of floor.new.venue.now floor.new.seats ≡ mark_of floor.old.venue.now floor.old.seats }

    // A read failed only where the shelf's count of faults rose.
    ensures later { H.faults shelf.old ≤ H.faults shelf.new }
    ensures read { result ≡ QuoteEnd.ReadFault → Rose (H.faults shelf.old) (H.faults shelf.new) }
    ensures sure { IsTrue (H.sure shelf.old) → HasFile (H.told shelf.old) name.now → result ≢ QuoteEnd.ReadFault }
{
    quote_over(alloc, config, floor, shelf, name, clock)
}
