//! The lines behind a header, in words.
ghost use Rattle.std.specs.Prelude.{◌≡◌};
ghost use Rattle.venue_words.specs.Conditions.{IsConfig};

use crate::frames::{Stream, push};
use quote_text::push_side;
use script_text::{Line, read_line};
use std::alloc::Global;
use std::marker::Model;
use venue_words::{Bytes, Command, Config, NoMemory};

/// Watches the lines behind a header: the moment, and each member's stream.
#[derive(Drop)]
pub struct Watcher {
    alloc: Global,
    config: Config,
    /// By member.
    streams: Vec<Stream>,
    moment: i64,
}

impl Model for Watcher {
    ghost use Rattle.venue_words.specs.Conditions.{IsConfig};
    ghost use Rattle.venue_words.specs.declared.config.Config.{Config};

    ghost Value = { Config };

    ghost view = { λ w. w.config };

    ghost invariant = { λ w. IsConfig w.config };
}

/// A name, or nothing behind the last.
fn name_at(names: &[Bytes], number: u32) -> &[u8] {
    match names.get(number as usize) {
        Some(name) => name.as_slice(),
        None => &[],
    }
}

/// The streams of all members.
fn streams_of(alloc: Global, members: &[Bytes]) -> Result<Vec<Stream>, NoMemory> {
    let mut streams = Vec::new(alloc);
    for member in members {
        streams.push(Stream::new(alloc, member)?)?;
    }
    Ok(streams)
}

/// Tells a quote.
fn push_quote(
    out: &mut Vec<u8>,
    config: &Config,
    symbol: u32,
    command: &Command,
) -> Result<(), NoMemory> {
    let Command::Quote { market, bid, offer } = command else {
        return Ok(());
    };
    push(out, "  ")?;
    out.extend_from_slice(name_at(config.markets.as_slice(), *market))?;
    push(out, " quotes ")?;
    out.extend_from_slice(name_at(config.symbols.as_slice(), symbol))?;
    push(out, " ")?;
    push_side(out, *bid)?;
    push(out, " by ")?;
    push_side(out, *offer)?;
    push(out, "\n")
}

/// Ticks all streams.
fn tick_all(
    streams: &mut [Stream],
    members: &[Bytes],
    moment: i64,
    out: &mut Vec<u8>,
) -> Result<(), NoMemory> {
    let mut number = 0u32;
    for stream in streams {
        stream.tick(moment, name_at(members, number), out)?;
        number = number.saturating_add(1);
    }
    Ok(())
}

impl Watcher {
    /// Behind a header.
    pub fn new(alloc: Global, config: Config) -> Result<Watcher, NoMemory>
        requires { IsConfig config }
    {
        let streams = streams_of(alloc, config.members.as_slice())?;
        let moment = config.begin;
        Ok(Watcher {
            alloc,
            config,
            streams,
            moment,
        })
    }

    /// Tells of a new connection.
    fn open(&mut self, member: u32, out: &mut Vec<u8>) -> Result<(), NoMemory> {
        if let Some(stream) = self.streams.get_mut(member as usize) {
            stream.open();
        }
        push(out, "  a new connection of ")?;
        out.extend_from_slice(name_at(self.config.members.as_slice(), member))?;
        push(out, "\n")
    }

    /// Tells what a line does.
    fn tell(&mut self, line: Line, out: &mut Vec<u8>) -> Result<(), NoMemory> {
        match line {
            Line::Moment(moment) => {
                self.moment = moment;
                tick_all(
                    &mut self.streams,
                    self.config.members.as_slice(),
                    moment,
                    out,
                )
            }
            Line::Quote { symbol, command } => push_quote(out, &self.config, symbol, &command),
            Line::Open { member } => self.open(member, out),
            Line::Piece { member, bytes } => match self.streams.get_mut(member as usize) {
                Some(stream) => stream.take(bytes.as_slice(), self.moment, out),
                None => Ok(()),
            },
        }
    }

    /// Tells what a line does, where it is one.
    pub fn line(&mut self, text: &[u8], out: &mut Vec<u8>) -> Result<(), NoMemory> {
        match read_line(self.alloc, text, &self.config) {
            Ok(line) => self.tell(line, out),
            Err(_) => Ok(()),
        }
    }
}
