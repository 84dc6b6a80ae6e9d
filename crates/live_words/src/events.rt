//! What the log of a live day tells, one line for each thing that happened: a word, then `key=value`.
use crate::words::Word;
use std::alloc::{AllocError, Global};
use std::fmt;
use std::net::SocketAddr;
use venue_words::{Bytes, Config};

/// Why a connection ended.
#[derive(Clone, Copy)]
pub enum Cause {
    /// The other side ended it, or a call of it failed.
    Closed,
    /// More than 4 MiB waited for it for 30 seconds.
    Slow,
    /// More than 64 MiB waited for it.
    Overflow,
    /// An operator asked for it.
    Operator,
    /// Its first bytes are no Logon of a member.
    NoLogon,
    /// Its member may not log on from there.
    Elsewhere,
    /// Its member's name was taken ten times within a minute, and stays where it is for a minute.
    Turns,
    /// There are too many connections without a name.
    Crowd,
    /// It had no name for 30 seconds.
    NoName,
}

/// Something that happened. Ports, members, markets and symbols are numbered from 0.
#[derive(Clone, Copy)]
pub enum Event {
    /// A connection is a member's from now on.
    Logon {
        port: usize,
        member: usize,
    },
    /// The same, and it took the name from a connection of his that had it.
    Turn {
        port: usize,
        member: usize,
    },
    /// A member's connection ended.
    Ended {
        port: usize,
        member: usize,
        cause: Cause,
    },
    /// A connection ended that was no member's.
    Refused {
        port: usize,
        cause: Cause,
    },
    /// Nothing came from a market for so long that its quotes are taken away.
    Silent {
        market: usize,
    },
    /// A market that was silent is heard again.
    Heard {
        market: usize,
    },
    /// A symbol takes no quotes from now on.
    Halted {
        symbol: usize,
    },
    /// A symbol takes quotes again.
    Resumed {
        symbol: usize,
    },
    /// An operator's line is refused.
    BadLine {
        operator: usize,
        word: Word,
    },
    /// A quote of a halted symbol is refused.
    HaltedQuote {
        operator: usize,
        symbol: usize,
    },
    /// An operator ended the day.
    Stopped {
        operator: usize,
    },
}

/// The names by which events are told.
#[derive(Drop)]
pub struct Names {
    pub members: Vec<Bytes>,
    pub markets: Vec<Bytes>,
    pub symbols: Vec<Bytes>,
}

/// Copies of names.
fn copies(alloc: Global, names: &[Bytes]) -> Result<Vec<Bytes>, AllocError> {
    let mut copies = Vec::new(alloc);
    for name in names {
        copies.push(Bytes::copy_of(alloc, name.as_slice())?)?;
    }
    Ok(copies)
}

impl Names {
    /// Copies of a config's names.
    pub fn of(alloc: Global, config: &Config) -> Result<Names, AllocError> {
        Ok(Names {
            members: copies(alloc, config.members.as_slice())?,
            markets: copies(alloc, config.markets.as_slice())?,
            symbols: copies(alloc, config.symbols.as_slice())?,
        })
    }
}

/// The name of a number.
fn name_in(names: &[Bytes], number: usize) -> &str {
    match names.get(number) {
        Some(name) => str::from_utf8(name.as_slice()).unwrap_or("?"),
        None => "?",
    }
}

impl fmt::Display for Cause {
    fn fmt<W: fmt::Write>(&self, f: &mut fmt::Formatter<W>) -> fmt::Result {
        f.write_str(match self {
            Cause::Closed => "closed",
            Cause::Slow => "slow",
            Cause::Overflow => "overflow",
            Cause::Operator => "operator",
            Cause::NoLogon => "no_logon",
            Cause::Elsewhere => "elsewhere",
            Cause::Turns => "turns",
            Cause::Crowd => "crowd",
            Cause::NoName => "no_name",
        })
    }
}

impl Event {
    /// The port of the connection that it is about.
    pub fn port(self) -> Option<usize> {
        match self {
            Event::Logon { port, .. }
            | Event::Turn { port, .. }
            | Event::Ended { port, .. }
            | Event::Refused { port, .. } => Some(port),
            _ => None,
        }
    }

    /// The operator whose line it is about.
    pub fn operator(self) -> Option<usize> {
        match self {
            Event::BadLine { operator, .. }
            | Event::HaltedQuote { operator, .. }
            | Event::Stopped { operator } => Some(operator),
            _ => None,
        }
    }
}

/// An event as the log tells it: with the address that its connection came from, if it is about one that came from an address, and with
/// the number of an operator's line, if it is about one.
#[derive(Drop)]
pub struct Told<'a> {
    pub event: Event,
    pub names: &'a Names,
    pub from: Option<SocketAddr>,
    pub line: Option<u64>,
}

impl<'a> Told<'a> {
    /// The word, and what it is about.
    fn write_event<W: fmt::Write>(&self, f: &mut fmt::Formatter<W>) -> fmt::Result {
        let member_of = |member| name_in(&self.names.members, member);
        match self.event {
            Event::Logon { member, .. } => write!(f, "logon member={}", member_of(member)),
            Event::Turn { member, .. } => write!(f, "turn member={}", member_of(member)),
            Event::Ended { member, cause, .. } => {
                write!(f, "ended member={} cause={cause}", member_of(member))
            }
            Event::Refused { cause, .. } => write!(f, "refused cause={cause}"),
            _ => self.write_other(f),
        }
    }

    /// The same of what is about no connection of a member.
    fn write_other<W: fmt::Write>(&self, f: &mut fmt::Formatter<W>) -> fmt::Result {
        let market_of = |market| name_in(&self.names.markets, market);
        let symbol_of = |symbol| name_in(&self.names.symbols, symbol);
        match self.event {
            Event::Silent { market } => write!(f, "silent market={}", market_of(market)),
            Event::Heard { market } => write!(f, "heard market={}", market_of(market)),
            Event::Halted { symbol } => write!(f, "halted symbol={}", symbol_of(symbol)),
            Event::Resumed { symbol } => write!(f, "resumed symbol={}", symbol_of(symbol)),
            Event::BadLine { operator, word } => {
                write!(
                    f,
                    "bad_line operator={operator} cause=\"{}\"",
                    word.answer().trim_end()
                )
            }
            Event::HaltedQuote { operator, symbol } => {
                write!(
                    f,
                    "bad_line operator={operator} cause=halted symbol={}",
                    symbol_of(symbol)
                )
            }
            Event::Stopped { operator } => write!(f, "stopped operator={operator}"),
            _ => Ok(()),
        }
    }
}

impl<'a> fmt::Display for Told<'a> {
    fn fmt<W: fmt::Write>(&self, f: &mut fmt::Formatter<W>) -> fmt::Result {
        self.write_event(f)?;
        if let Some(address) = self.from {
            write!(f, " address={address}")?;
        }
        if let Some(line) = self.line {
            write!(f, " line={line}")?;
        }
        Ok(())
    }
}
