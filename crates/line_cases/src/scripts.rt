//! Headers and lines of scripts, and those of load scripts.
use case_text::{Told, Words};
use script_text::{Line, load_line, read_header, read_line};
use venue_words::{Config, NoMemory};

const CONFIG: &[u8] =
    b"PEGV 2\nMEMBER A\nMEMBER B\nMARKET N\nSYMBOL X 9 0.05\nBEGIN 20240102-14:30:00.000\n";

/// Tells how many members, markets and symbols a config has, and the limits and ticks of the first few symbols.
pub fn tell_config(config: &Config, told: &mut Told) {
    told.show(&config.members.len());
    told.push(" members, ");
    told.show(&config.markets.len());
    told.push(" markets, ");
    told.show(&config.symbols.len());
    told.push(" symbols");
    for (limit, tick) in config
        .limits
        .as_slice()
        .iter()
        .zip(config.ticks.as_slice())
        .take(3)
    {
        told.push(" ");
        told.show(limit);
        told.push("/");
        told.show(tick);
    }
}

/// Tells what a header says, or why it is refused.
fn tell_header(input: &[u8], told: &mut Told) {
    if input.len() > 1_000_000 {
        return told.word("too many bytes");
    }
    match read_header(told.alloc, input) {
        Ok((config, lines)) => {
            told.value(&lines);
            told.push(" lines, begin ");
            told.show(&config.begin);
            told.push(", ");
            tell_config(&config, told);
        }
        Err(fault) => told.code(&fault),
    }
}

/// Tells what a line of a script says.
fn tell_read(line: &Line, told: &mut Told) {
    match line {
        Line::Moment(moment) => {
            told.word("moment ");
            told.show(moment);
        }
        Line::Quote { symbol, command } => {
            told.word("quote of ");
            told.show(symbol);
            told.code(command);
        }
        Line::Piece { member, bytes } => {
            told.word("piece of ");
            told.show(member);
            told.push(": ");
            told.bytes(bytes.as_slice());
        }
        Line::Open { member } => {
            told.word("open ");
            told.show(member);
        }
    }
}

/// Tells what a line of a script of members A and B, market N and symbol X says, or why it is refused.
fn tell_line(input: &[u8], told: &mut Told) {
    let Ok((config, _)) = read_header(told.alloc, CONFIG) else {
        return told.word("no config");
    };
    match read_line(told.alloc, input, &config) {
        Ok(line) => tell_read(&line, told),
        Err(fault) => told.code(&fault),
    }
}

/// Tells a line of a load script.
fn tell_load(input: &[u8], told: &mut Told) -> Result<(), NoMemory> {
    let words = Words::new(told.alloc, input)?;
    let orders = words.number(b"orders").unwrap_or(0);
    let quotes = words.number(b"quotes").unwrap_or(0);
    let number = words.number(b"line").unwrap_or(0);
    if number == 0 || u64::from(number) > u64::from(orders) + u64::from(quotes) + 9 {
        told.word("no line");
        return Ok(());
    }
    let line = load_line(told.alloc, orders, quotes, number)?;
    let text = String::from_utf8_lossy(told.alloc, line.as_slice())?;
    told.word(text.as_str());
    Ok(())
}

/// `header` tells what a config says, `line` what a line of a script does, and `load` a line of a load script.
pub fn play(word: &str, input: &[u8], told: &mut Told) -> Result<bool, NoMemory> {
    match word {
        "header" => tell_header(input, told),
        "line" => tell_line(input, told),
        "load" => tell_load(input, told)?,
        _ => return Ok(false),
    }
    Ok(true)
}
