//! Orders as members write them, and the rules that they break.
ghost use Rattle.std.specs.Prelude.{IfOk};
ghost use Rattle.venue_words.specs.Conditions.{IsConfig};

use crate::sessions::Desk;
use case_text::{Told, Words};
use exec_reports::{body, kind};
use fix_write::wrap;
use order_fields::{Decoded, Known, Refusal, read_order, verdict};
use script_text::read_header;
use session_core::Request;
use std::alloc::Global;
use venue_words::{Command, Config, NoMemory, Report, Side};

/// Member A, market N and symbol X.
const CONFIG: &[u8] = b"PEGV 1\nMEMBER A\nMARKET N\nSYMBOL X 100\nBEGIN 19700101-00:00:00.000\n";

/// The config of these.
fn config_of(alloc: Global) -> Result<Config, NoMemory>
    ensures { IfOk result IsConfig }
{
    match read_header(alloc, CONFIG) {
        Ok((config, _)) => Ok(config),
        Err(_) => Err(NoMemory),
    }
}

/// What a message that was handed out is read as.
fn read_request(
    alloc: Global,
    request: &Option<Request<'_>>,
) -> Result<Result<Decoded, Refusal>, NoMemory> {
    let config = config_of(alloc)?;
    match request {
        Some(request) if config.symbols.len() == 1 => {
            Ok(read_order(alloc, request, 0, &config, 7))
        }
        _ => Err(NoMemory),
    }
}

/// What a message of member A behind its Logon is read as, at the moment 7.
fn read(alloc: Global, content: &[u8]) -> Result<Result<Decoded, Refusal>, NoMemory> {
    let frame = wrap(alloc, content)?;
    let turn = Desk::turn_behind_logon(alloc, frame.as_slice())?;
    let decoded = read_request(alloc, &turn.request);
    drop(turn);
    decoded
}

/// Tells the type and the body of a report about a symbol to member A.
pub fn tell_report(report: &Report, symbol: &[u8], told: &mut Told) -> Result<(), NoMemory> {
    told.line(&[kind(report).byte()]);
    told.push(" ");
    let text = body(told.alloc, report, symbol, b"A")?;
    told.bytes(text.as_slice());
    Ok(())
}

/// Tells what an order asks for.
fn tell_decoded(decoded: &Decoded, told: &mut Told) -> Result<(), NoMemory> {
    match decoded {
        Decoded::Book {
            symbol,
            command: Command::New { member, id, terms },
        } => {
            told.word("new for symbol ");
            told.show(symbol);
            told.push(" of member ");
            told.show(member);
            told.push(": ");
            told.bytes(id.as_slice());
            told.code(&terms.get());
            Ok(())
        }
        Decoded::Book { .. } => {
            told.word("for a book");
            Ok(())
        }
        Decoded::Stray { report } => {
            told.word("stray of member ");
            told.show(&report.member);
            tell_report(report, b"ZZ", told)
        }
    }
}

/// Tells what a message asks for, or why it is refused.
fn tell_order(content: &[u8], told: &mut Told) -> Result<(), NoMemory> {
    match &read(told.alloc, content)? {
        Ok(decoded) => tell_decoded(decoded, told),
        Err(refusal) => {
            told.code(refusal);
            Ok(())
        }
    }
}

/// Tells the first rule that a message breaks where this is known.
fn tell_first_rule(content: &[u8], known: &Known, told: &mut Told) -> Result<(), NoMemory> {
    if known.tick != 2 && known.tick != 10 {
        told.word("no tick");
        return Ok(());
    }
    match &read(told.alloc, content)? {
        Ok(Decoded::Book { command, .. }) => match verdict(command, known) {
            Some(rule) => told.value(&rule.number()),
            None => told.word("none"),
        },
        _ => told.word("not for a book"),
    }
    Ok(())
}

/// Tells the first rule that a message breaks: `rule [used] [live] [cum=NUMBER] tick=NUMBER CONTENT`.
fn tell_rule(input: &[u8], told: &mut Told) -> Result<(), NoMemory> {
    let words = Words::new(told.alloc, input)?;
    let known = Known {
        used: words.has(b"used"),
        live: words.has(b"live"),
        side: Side::Buy,
        cum: words.number(b"cum").unwrap_or(0),
        tick: words.number(b"tick").unwrap_or(0),
    };
    let content = words.list.last().copied().unwrap_or(&[]);
    tell_first_rule(content, &known, told)
}

/// `order` tells what a message asks for, and `rule` the first rule that it breaks.
pub fn play(word: &str, input: &[u8], told: &mut Told) -> Result<bool, NoMemory> {
    match word {
        "order" => tell_order(input, told)?,
        "rule" => tell_rule(input, told)?,
        _ => return Ok(false),
    }
    Ok(true)
}
