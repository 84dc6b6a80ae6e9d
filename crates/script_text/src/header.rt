//! The header of a script, line by line.
ghost use Rattle.std.specs.Prelude.{◌≡◌, ◌<◌, ◌≤◌, ◌^◌, ◌+◌, ◌==◌, Ok, Some, None, Bool, IsTrue, IfOk, OnOk, length, sum, map, not, nat_lt, take, min};
ghost use Rattle.std.specs.List.{list_any};
ghost use Rattle.std.specs.Str.{bytes_eq};
ghost use Rattle.script_text.specs.Meets.{Meets};
ghost use Rattle.venue_words.specs.Conditions.{IsConfig};
ghost use Rattle.script_text.specs.Words.{is_name, limit_of, tick_of, script_moment};

use crate::fault::{LimitCause, LineCause, LineFault};
use crate::words::{is_name, limit_of, script_moment, tick_of, words_of};
use std::alloc::Global;
use venue_words::limits::{MAX_EVENTS, MAX_LINE_BYTES, MAX_MARKETS, MAX_MEMBERS, MAX_SYMBOLS};
use venue_words::{Bytes, Config, Items};

/// The header of a script as far as it was read.
#[derive(Debug, Drop)]
pub struct Header {
    /// The script's version, or 0 before its first line.
    pub version: u32,
    pub config: Config,
}

fn stood_before(names: &[Bytes], name: &[u8]) -> bool
    ensures { result ≡ list_any (λ old. bytes_eq old name.now) names.now }
{
    for old in names {
        if old.as_slice() == name {
            return true;
        }
    }
    false
}

/// Whether the limits and one more stay within the greatest sum.
fn limits_fit(limits: &[u32], limit: u32) -> bool
    ensures { result ≡ not (nat_lt MAX_EVENTS (sum limits.now + limit)) }
{
    let mut sum = u64::from(limit);
    for old in limits {
        sum = sum.saturating_add(u64::from(*old));
    }
    sum <= u64::from(MAX_EVENTS)
}

impl Header {
    ghost use Rattle.script_text.specs.Header.{header_line, first_line, keyed, keyed_line, keyed_else, with_header, member_line, market_line, symbol_line, symbol_words, symbol_fits, begin_line, name_cause, blank};

    /// The header before its first line.
    #[tactic(auto, using(crate::proofs::Configured::blank_kept))]
    pub fn new(alloc: Global) -> Header
        ensures header { result ≡ blank }
        ensures config { IsConfig result.config }
    {
        Header {
            version: 0,
            config: Config {
                members: Items::new(alloc),
                markets: Items::new(alloc),
                symbols: Items::new(alloc),
                limits: Items::new(alloc),
                ticks: Items::new(alloc),
                begin: 0,
            },
        }
    }

    #[tactic(auto, unfolding(crate::specs::Header::name_cause))]
    fn name_cause(names: &[Bytes], name: &[u8]) -> Option<LineCause>
        ensures { result ≡ name_cause names.now name.now }
    {
        if !is_name(name) {
            Some(LineCause::BadName)
        } else if stood_before(names, name) {
            Some(LineCause::DoubleName)
        } else {
            None
        }
    }

    #[tactic(auto, unfolding(crate::specs::Header::member_line))]
    fn member(&mut self, alloc: Global, line: u32, name: &[u8]) -> Result<bool, LineFault>
        ensures { Meets (member_line line self.old name.now) (with_header result self.new) }
    {
        if let Some(cause) = Self::name_cause(self.config.members.as_slice(), name) {
            return Err(LineFault::Bad { line, cause });
        }
        if self.config.members.len() >= MAX_MEMBERS {
            return Err(LineFault::Limit {
                line,
                which: LimitCause::Members,
            });
        }
        self.config.members.push(Bytes::copy_of(alloc, name)?)?;
        Ok(false)
    }

    #[tactic(auto, unfolding(crate::specs::Header::market_line))]
    fn market(&mut self, alloc: Global, line: u32, name: &[u8]) -> Result<bool, LineFault>
        ensures { Meets (market_line line self.old name.now) (with_header result self.new) }
    {
        if let Some(cause) = Self::name_cause(self.config.markets.as_slice(), name) {
            return Err(LineFault::Bad { line, cause });
        }
        if self.config.markets.len() >= MAX_MARKETS {
            return Err(LineFault::Limit {
                line,
                which: LimitCause::Markets,
            });
        }
        self.config.markets.push(Bytes::copy_of(alloc, name)?)?;
        Ok(false)
    }

    /// A symbol whose name and numbers are in their forms.
    fn add_symbol(
        &mut self,
        alloc: Global,
        line: u32,
        name: &[u8],
        limit: u32,
        tick: u32,
    ) -> Result<bool, LineFault>
        ensures { Meets (symbol_fits line self.old name.now limit tick) (with_header result self.new) }
    {
        if self.config.symbols.len() >= MAX_SYMBOLS {
            return Err(LineFault::Limit {
                line,
                which: LimitCause::Symbols,
            });
        }
        if !limits_fit(self.config.limits.as_slice(), limit) {
            return Err(LineFault::Limit {
                line,
                which: LimitCause::EventsSum,
            });
        }
        self.config.symbols.push(Bytes::copy_of(alloc, name)?)?;
        self.config.limits.push(limit)?;
        self.config.ticks.push(tick)?;
        Ok(false)
    }

    #[tactic(auto, unfolding(crate::specs::Header::symbol_line))]
    fn symbol(
        &mut self,
        alloc: Global,
        line: u32,
        name: &[u8],
        limit: &[u8],
        tick: Option<u32>,
    ) -> Result<bool, LineFault>
        ensures { Meets (symbol_line line self.old name.now limit.now tick) (with_header result self.new) }
    {
        if let Some(cause) = Self::name_cause(self.config.symbols.as_slice(), name) {
            return Err(LineFault::Bad { line, cause });
        }
        let Some(limit) = limit_of(limit) else {
            return Err(LineFault::Bad {
                line,
                cause: LineCause::BadNumber,
            });
        };
        let Some(tick) = tick else {
            return Err(LineFault::Bad {
                line,
                cause: LineCause::BadTick,
            });
        };
        self.add_symbol(alloc, line, name, limit, tick)
    }

    /// The words behind `SYMBOL`.
    fn symbol_words(&mut self, alloc: Global, line: u32, words: &[&[u8]]) -> Result<bool, LineFault>
        ensures { Meets (symbol_words line self.old (map (λ word. word.now) words.now)) (with_header result self.new) }
    {
        match words {
            [name, limit] if self.version == 1 => self.symbol(alloc, line, name, limit, Some(2)),
            [name, limit, tick] if self.version == 2 => {
                self.symbol(alloc, line, name, limit, tick_of(tick))
            }
            _ => Err(LineFault::Bad {
                line,
                cause: LineCause::BadWord,
            }),
        }
    }

    #[tactic(auto, unfolding(crate::specs::Header::begin_line))]
    fn begin(&mut self, line: u32, moment: &[u8]) -> Result<bool, LineFault>
        ensures { begin_line line self.old moment.now ≡ with_header result self.new }
    {
        let Some(moment) = script_moment(moment) else {
            return Err(LineFault::Bad {
                line,
                cause: LineCause::BadMoment,
            });
        };
        self.config.begin = moment;
        Ok(true)
    }

    #[tactic(auto, unfolding(crate::specs::Header::first_line))]
    fn first(&mut self, text: &[u8]) -> Result<bool, LineFault>
        ensures { first_line self.old text.now ≡ with_header result self.new }
    {
        if text == b"PEGV 1".as_slice() {
            self.version = 1;
            Ok(false)
        } else if text == b"PEGV 2".as_slice() {
            self.version = 2;
            Ok(false)
        } else {
            Err(LineFault::Bad {
                line: 1,
                cause: LineCause::BadHeader,
            })
        }
    }

    /// A line behind the first, by its first word.
    #[tactic(auto, unfolding(crate::specs::Header::keyed))]
    fn keyed(
        &mut self,
        alloc: Global,
        line: u32,
        key: &[u8],
        words: &[&[u8]],
    ) -> Result<bool, LineFault>
        ensures { Meets (keyed line self.old key.now (map (λ word. word.now) words.now)) (with_header result self.new) }
    {
        if key == b"MEMBER".as_slice() {
            if let [name] = words {
                return self.member(alloc, line, name);
            }
        } else if key == b"MARKET".as_slice() {
            if let [name] = words {
                return self.market(alloc, line, name);
            }
        } else {
            return self.keyed_else(alloc, line, key, words);
        }
        Err(LineFault::Bad {
            line,
            cause: LineCause::BadWord,
        })
    }

    fn keyed_line(&mut self, alloc: Global, line: u32, words: &[&[u8]]) -> Result<bool, LineFault>
        ensures { Meets (keyed_line line self.old (map (λ word. word.now) words.now)) (with_header result self.new) }
    {
        let Some((key, behind)) = words.split_first() else {
            return Err(LineFault::Bad {
                line,
                cause: LineCause::BadWord,
            });
        };
        self.keyed(alloc, line, key, behind)
    }

    #[tactic(auto, unfolding(crate::specs::Header::keyed_else))]
    fn keyed_else(
        &mut self,
        alloc: Global,
        line: u32,
        key: &[u8],
        words: &[&[u8]],
    ) -> Result<bool, LineFault>
        ensures { Meets (keyed_else line self.old key.now (map (λ word. word.now) words.now)) (with_header result self.new) }
    {
        if key == b"SYMBOL".as_slice() {
            return self.symbol_words(alloc, line, words);
        }
        if key == b"BEGIN".as_slice()
            && let [moment] = words
        {
            return self.begin(line, moment);
        }
        Err(LineFault::Bad {
            line,
            cause: LineCause::BadWord,
        })
    }

    /// Reads the next line.
    #[tactic(auto, unfolding(crate::specs::Header::header_line))]
    fn read(&mut self, alloc: Global, line: u32, text: &[u8]) -> Result<bool, LineFault>
        ensures { Meets (header_line line self.old text.now) (with_header result self.new) }
    {
        if text.len() > MAX_LINE_BYTES {
            return Err(LineFault::Limit {
                line,
                which: LimitCause::Line,
            });
        }
        if line == 1 {
            return self.first(text);
        }
        let words = words_of(alloc, text)?;
        self.keyed_line(alloc, line, words.as_slice())
    }

    /// Reads the next line, without its LF, and says whether it ends the header. After a refusal the header may hold a
    /// part of the line, and is to be dropped. It stands apart, so that a line of the body does not clear its locals.
    #[inline(never)]
    #[tactic(auto, using(crate::proofs::Configured::read_keeps))]
    pub fn line(&mut self, alloc: Global, line: u32, text: &[u8]) -> Result<bool, LineFault>
        ensures line { Meets (header_line line self.old text.now) (with_header result self.new) }
        ensures config { OnOk result (IsConfig self.old.config → IsConfig self.new.config) }
    {
        self.read(alloc, line, text)
    }
}
