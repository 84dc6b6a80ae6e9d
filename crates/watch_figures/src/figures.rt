//! The figures of a day.
use crate::desk::DeskTold;
use crate::frames::{last_number, new_number};
use crate::symbols::{Quote, SymbolFigures, moment_of};
use replay_core::{PlainFloor, Player};
use script_text::Line;
use std::alloc::{AllocError, Global};
use venue_words::{Bytes, Command, Config, NoMemory};
use watch_page::{JournalRow, Label, MarketRow, MemberRow, Snapshot, SymbolRow};

/// The figures of a member.
#[derive(Clone, Copy, Drop)]
struct MemberFigures {
    last_in: u32,
    last_out: u32,
    seen: Option<u64>,
}

/// The figures of a day, of lines that were worked and of what these yielded.
#[derive(Drop)]
pub struct Figures {
    alloc: Global,
    /// The moment of the last line.
    moment: u64,
    members: Vec<MemberFigures>,
    symbols: Vec<SymbolFigures>,
}

/// When a snapshot is taken, and after how many milliseconds a quote is stale.
#[derive(Clone, Copy, Debug)]
pub struct Moment {
    pub now: u64,
    pub stale: u64,
}

/// The member of a name.
fn member_named(config: &Config, name: &[u8]) -> Option<usize> {
    config
        .members
        .as_slice()
        .iter()
        .position(|member| member.as_slice() == name)
}

impl Figures {
    /// The figures of a day that begins.
    pub fn new(alloc: Global, config: &Config) -> Result<Figures, NoMemory> {
        let nothing = MemberFigures {
            last_in: 0,
            last_out: 0,
            seen: None,
        };
        let mut symbols = Vec::new(alloc);
        for _ in 0..config.symbols.len() {
            symbols.push(SymbolFigures::new(alloc, config.markets.len())?)?;
        }
        Ok(Figures {
            alloc,
            moment: moment_of(config.begin),
            members: vec![in alloc; nothing; config.members.len()]?,
            symbols,
        })
    }

    /// Notes a piece of a member's bytes.
    fn note_piece(&mut self, member: u32, bytes: &[u8]) {
        if let Some(member) = self.members.get_mut(member as usize) {
            member.seen = Some(self.moment);
            if let Some(number) = last_number(bytes) {
                member.last_in = number;
            }
        }
    }

    /// Notes a quote of a symbol.
    fn note_quote(&mut self, symbol: u32, command: &Command) {
        let Command::Quote { market, bid, offer } = command else {
            return;
        };
        let Some(symbol) = self.symbols.get_mut(symbol as usize) else {
            return;
        };
        if let Some(quote) = symbol.quotes.get_mut(*market as usize) {
            *quote = Quote {
                bid: *bid,
                offer: *offer,
                since: Some(self.moment),
            };
        }
    }

    /// Notes what a line of the body says.
    fn note_line(&mut self, line: &Line) {
        match line {
            Line::Moment(moment) => self.moment = moment_of(*moment),
            Line::Quote { symbol, command } => self.note_quote(*symbol, command),
            Line::Piece { member, bytes } => self.note_piece(*member, bytes.as_slice()),
            Line::Open { member: _ } => {}
        }
    }

    /// Notes a line of what was yielded: a member's name, a space and a frame.
    fn note_frame(&mut self, config: &Config, line: &[u8]) {
        let Some(end) = line.iter().position(|byte| *byte == b' ') else {
            return;
        };
        let Some(number) = new_number(&line[end..]) else {
            return;
        };
        if let Some(member) = member_named(config, &line[..end]) {
            if let Some(member) = self.members.get_mut(member) {
                member.last_out = number;
            }
        }
    }

    /// Notes lines that a player has worked, and what they yielded. Lines of the header say nothing here.
    pub fn note<F: PlainFloor>(
        &mut self,
        player: &Player<F>,
        lines: &[Bytes],
        text: &[u8],
    ) -> Result<(), NoMemory> {
        for line in lines {
            if let Ok(said) = player.read(line.as_slice()) {
                self.note_line(&said);
            }
        }
        for line in text.split(|byte| *byte == b'\n') {
            self.note_frame(player.config(), line);
        }
        self.look(player)?;
        Ok(())
    }

    /// Notes the reports that the books have added.
    fn look<F: PlainFloor>(&mut self, player: &Player<F>) -> Result<(), AllocError> {
        let count = player.config().symbols.len();
        for (place, symbol) in self.symbols.iter_mut().enumerate() {
            if place < count {
                symbol.look(player.reports(place as u32))?;
            }
        }
        Ok(())
    }

    /// The moment of the last line.
    pub fn moment(&self) -> u64 {
        self.moment
    }

    fn members<F: PlainFloor>(
        &self,
        player: &Player<F>,
        desk: &DeskTold,
    ) -> Result<Vec<MemberRow>, NoMemory> {
        let mut rows = Vec::new(self.alloc);
        for (place, name) in player.config().members.as_slice().iter().enumerate() {
            if let Some(figures) = self.members.get(place) {
                rows.push(MemberRow {
                    name: Label::new(self.alloc, name.as_slice())?,
                    up: player.is_up(place as u32),
                    last_in: figures.last_in,
                    last_out: figures.last_out,
                    seen: figures.seen,
                    waiting: desk.waiting(name.as_slice()),
                })?;
            }
        }
        Ok(rows)
    }

    fn markets(&self, config: &Config, quotes: &[Quote]) -> Result<Vec<MarketRow>, NoMemory> {
        let mut rows = Vec::new(self.alloc);
        for (name, quote) in config.markets.as_slice().iter().zip(quotes) {
            rows.push(MarketRow {
                name: Label::new(self.alloc, name.as_slice())?,
                bid: quote.bid,
                offer: quote.offer,
                since: quote.since,
            })?;
        }
        Ok(rows)
    }

    fn symbols<F: PlainFloor>(
        &self,
        player: &Player<F>,
        desk: &DeskTold,
    ) -> Result<Vec<SymbolRow>, NoMemory> {
        let config = player.config();
        let mut rows = Vec::new(self.alloc);
        for (place, name) in config.symbols.as_slice().iter().enumerate() {
            let (Some(figures), Some(limit)) = (
                self.symbols.get(place),
                config.limits.as_slice().get(place),
            ) else {
                return Ok(rows);
            };
            rows.push(SymbolRow {
                name: Label::new(self.alloc, name.as_slice())?,
                events: u32::try_from(player.events(place as u32)).unwrap_or(u32::MAX),
                limit: *limit,
                halted: desk.is_halted(name.as_slice()),
                markets: self.markets(config, &figures.quotes)?,
                buys: figures.buys,
                sells: figures.sells,
                trades: figures.trades,
                traded: figures.traded,
                last: figures.last,
            })?;
        }
        Ok(rows)
    }

    /// The figures at a moment, with those of the journal and of the desk, which tells something or does not answer.
    pub fn snapshot<F: PlainFloor>(
        &self,
        player: &Player<F>,
        moment: Moment,
        journal: JournalRow,
        desk: Option<&DeskTold>,
    ) -> Result<Snapshot, NoMemory> {
        let silent = DeskTold::new(self.alloc);
        let told = desk.unwrap_or(&silent);
        Ok(Snapshot {
            now: moment.now,
            stale: moment.stale,
            members: self.members(player, told)?,
            symbols: self.symbols(player, told)?,
            journal,
            desk: desk.is_some(),
        })
    }
}
