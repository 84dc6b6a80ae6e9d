//! What operators ask for.
ghost use Rattle.std.specs.Prelude.{◌≡◌, ◌⊎◌, ◌<◌, ◌+◌, ◌++◌, true, false, codes, length, OnOk, All};
ghost use Rattle.day_journal.specs.Log.{IsShortLine};
ghost use Rattle.venue_words.specs.Causes.{HasCause};
ghost use Rattle.live_edge.specs.Joins.{Joined};
ghost use Rattle.live_edge.specs.Rounds.{Keeps};
ghost use Rattle.live_words.specs.Words.{IsQuoteLine, is_halted, empty_lines};

use crate::desk::Desk;
use crate::outside::Outside;
use io_edge::{Clock, Failed};
use live_words::{Cause, Event, Quoted, Word, push_copy, push_empty, read_word, status_line};
use venue_words::Bytes;

/// The most words of operators in a round.
const MAX_WORDS: usize = 64;

impl<O: Outside, C: Clock> Desk<O, C> {
    /// Whether a symbol is halted.
    pub(crate) fn is_halted(&self, symbol: usize) -> bool
        ensures { result ≡ is_halted self.entry.now.halted.items symbol }
    {
        match self.halted.get(symbol) {
            Some(halted) => *halted,
            None => false,
        }
    }

    /// Notes whether a symbol is halted.
    fn note_halt(&mut self, symbol: usize, halted: bool)
        ensures noted { symbol < length self.old.halted.items → is_halted self.new.halted.items symbol ≡ halted }
        ensures same { self.new ≡ record self.old { halted = self.new.halted } }
    {
        if symbol < self.halted.len() {
            self.halted[symbol] = halted;
        }
    }

    /// Adds an operator's line, which is the quote of a symbol that is not halted.
    fn push_quote(&mut self, quoted: Quoted, body: &mut Vec<Bytes>) -> Result<(), Failed>
        requires quote { IsQuoteLine self.old.word.items self.old.setup quoted }
        requires open { is_halted self.old.halted.items quoted.symbol ≡ false }
        requires short { IsShortLine self.old.word.items }
        requires body { All IsShortLine body.old.items }
        ensures body { OnOk result (All IsShortLine body.new.items) }
        ensures keeps { Keeps self.old.connections.story.tale self.new.connections.story.tale }
        ensures joined { Joined self.old.connections.story.tale.past self.old.connections.table (O.came self.old.connections.outside) (O.went self.old.connections.outside) → Joined self.new.connections.story.tale.past self.new.connections.table (O.came self.new.connections.outside) (O.went self.new.connections.outside) }
        ensures left { self.new.left ≡ self.old.left }
        ensures setup { self.new.setup ≡ self.old.setup }
        ensures last { self.new.last ≡ self.old.last }
        ensures stop { self.new.stop ≡ self.old.stop }
        ensures cause { HasCause (O.faults self.old.connections.outside + self.old.connections.faults) (O.faults self.new.connections.outside + self.new.connections.faults) result }
    {
        let pushed = push_copy(self.connections.alloc, &self.word, body);
        self.connections.kept(pushed)?;
        self.note_quote(quoted);
        Ok(())
    }

    /// Takes a quote of a symbol, where that is not halted.
    fn quote(
        &mut self,
        operator: usize,
        quoted: Quoted,
        body: &mut Vec<Bytes>,
    ) -> Result<(), Failed>
        requires quote { IsQuoteLine self.old.word.items self.old.setup quoted }
        requires short { IsShortLine self.old.word.items }
        requires body { All IsShortLine body.old.items }
        ensures body { OnOk result (All IsShortLine body.new.items) }
        ensures keeps { Keeps self.old.connections.story.tale self.new.connections.story.tale }
        ensures joined { Joined self.old.connections.story.tale.past self.old.connections.table (O.came self.old.connections.outside) (O.went self.old.connections.outside) → Joined self.new.connections.story.tale.past self.new.connections.table (O.came self.new.connections.outside) (O.went self.new.connections.outside) }
        ensures left { self.new.left ≡ self.old.left }
        ensures setup { self.new.setup ≡ self.old.setup }
        ensures last { self.new.last ≡ self.old.last }
        ensures stop { self.new.stop ≡ self.old.stop }
        ensures cause { HasCause (O.faults self.old.connections.outside + self.old.connections.faults) (O.faults self.new.connections.outside + self.new.connections.faults) result }
    {
        self.hear_market(quoted.market);
        if self.is_halted(quoted.symbol) {
            let symbol = quoted.symbol;
            self.connections
                .outside
                .log(Event::HaltedQuote { operator, symbol });
            return self.answer(
                operator,
                b"the symbol is halted; RESUME lets its quotes in again\n",
            );
        }
        self.push_quote(quoted, body)?;
        self.answer(operator, b"OK\n")
    }

    /// Notes that a market is there.
    fn keep(&mut self, operator: usize, market: usize) -> Result<(), Failed>
        ensures keeps { Keeps self.old.connections.story.tale self.new.connections.story.tale }
        ensures joined { Joined self.old.connections.story.tale.past self.old.connections.table (O.came self.old.connections.outside) (O.went self.old.connections.outside) → Joined self.new.connections.story.tale.past self.new.connections.table (O.came self.new.connections.outside) (O.went self.new.connections.outside) }
        ensures left { self.new.left ≡ self.old.left }
        ensures setup { self.new.setup ≡ self.old.setup }
        ensures last { self.new.last ≡ self.old.last }
        ensures stop { self.new.stop ≡ self.old.stop }
        ensures cause { HasCause (O.faults self.old.connections.outside + self.old.connections.faults) (O.faults self.new.connections.outside + self.new.connections.faults) result }
    {
        self.hear_market(market);
        self.answer(operator, b"OK\n")
    }

    /// Leaves each market without prices of a symbol, and lets in no quotes of it.
    fn halt(&mut self, symbol: usize, body: &mut Vec<Bytes>) -> Result<(), Failed>
        requires body { All IsShortLine body.old.items }
        ensures body { OnOk result (All IsShortLine body.new.items) }
        ensures emptied { OnOk result (body.new.items ≡ body.old.items ++ empty_lines self.old.setup symbol) }
        ensures halted { OnOk result (symbol < length self.old.halted.items → is_halted self.new.halted.items symbol ≡ true) }
        ensures keeps { Keeps self.old.connections.story.tale self.new.connections.story.tale }
        ensures joined { Joined self.old.connections.story.tale.past self.old.connections.table (O.came self.old.connections.outside) (O.went self.old.connections.outside) → Joined self.new.connections.story.tale.past self.new.connections.table (O.came self.new.connections.outside) (O.went self.new.connections.outside) }
        ensures left { self.new.left ≡ self.old.left }
        ensures setup { self.new.setup ≡ self.old.setup }
        ensures last { self.new.last ≡ self.old.last }
        ensures stop { self.new.stop ≡ self.old.stop }
        ensures cause { HasCause (O.faults self.old.connections.outside + self.old.connections.faults) (O.faults self.new.connections.outside + self.new.connections.faults) result }
    {
        let pushed = push_empty(self.connections.alloc, &self.setup, symbol, body);
        self.connections.kept(pushed)?;
        self.note_halt(symbol, true);
        self.connections.outside.log(Event::Halted { symbol });
        Ok(())
    }

    /// Lets in quotes of a symbol again.
    fn resume(&mut self, operator: usize, symbol: usize) -> Result<(), Failed>
        ensures keeps { Keeps self.old.connections.story.tale self.new.connections.story.tale }
        ensures joined { Joined self.old.connections.story.tale.past self.old.connections.table (O.came self.old.connections.outside) (O.went self.old.connections.outside) → Joined self.new.connections.story.tale.past self.new.connections.table (O.came self.new.connections.outside) (O.went self.new.connections.outside) }
        ensures left { self.new.left ≡ self.old.left }
        ensures setup { self.new.setup ≡ self.old.setup }
        ensures last { self.new.last ≡ self.old.last }
        ensures stop { self.new.stop ≡ self.old.stop }
        ensures cause { HasCause (O.faults self.old.connections.outside + self.old.connections.faults) (O.faults self.new.connections.outside + self.new.connections.faults) result }
    {
        self.note_halt(symbol, false);
        self.connections.outside.log(Event::Resumed { symbol });
        self.answer(operator, b"OK\n")
    }

    /// Ends a member's connection, if he has one.
    fn drop_member(&mut self, operator: usize, member: usize) -> Result<(), Failed>
        ensures keeps { Keeps self.old.connections.story.tale self.new.connections.story.tale }
        ensures joined { Joined self.old.connections.story.tale.past self.old.connections.table (O.came self.old.connections.outside) (O.went self.old.connections.outside) → Joined self.new.connections.story.tale.past self.new.connections.table (O.came self.new.connections.outside) (O.went self.new.connections.outside) }
        ensures left { self.new.left ≡ self.old.left }
        ensures setup { self.new.setup ≡ self.old.setup }
        ensures last { self.new.last ≡ self.old.last }
        ensures stop { self.new.stop ≡ self.old.stop }
        ensures cause { HasCause (O.faults self.old.connections.outside + self.old.connections.faults) (O.faults self.new.connections.outside + self.new.connections.faults) result }
    {
        match self.connections.table.port_of(member) {
            Some(port) => {
                self.connections.end(port, Cause::Operator);
                self.answer(operator, b"OK\n")
            }
            None => self.answer(operator, b"the member has no connection\n"),
        }
    }

    /// Ends the day after this round.
    fn end_day(&mut self, operator: usize) -> Result<(), Failed>
        ensures keeps { Keeps self.old.connections.story.tale self.new.connections.story.tale }
        ensures joined { Joined self.old.connections.story.tale.past self.old.connections.table (O.came self.old.connections.outside) (O.went self.old.connections.outside) → Joined self.new.connections.story.tale.past self.new.connections.table (O.came self.new.connections.outside) (O.went self.new.connections.outside) }
        ensures left { self.new.left ≡ self.old.left }
        ensures setup { self.new.setup ≡ self.old.setup }
        ensures last { self.new.last ≡ self.old.last }
        ensures cause { HasCause (O.faults self.old.connections.outside + self.old.connections.faults) (O.faults self.new.connections.outside + self.new.connections.faults) result }
    {
        self.stop = true;
        self.connections.outside.log(Event::Stopped { operator });
        self.answer(operator, Word::Stop.answer().as_bytes())
    }

    /// Does what an operator's line asks for, and answers it. The word STOP alone ends the day.
    fn obey(&mut self, operator: usize, body: &mut Vec<Bytes>) -> Result<(), Failed>
        requires body { All IsShortLine body.old.items }
        ensures body { OnOk result (All IsShortLine body.new.items) }
        ensures keeps { Keeps self.old.connections.story.tale self.new.connections.story.tale }
        ensures joined { Joined self.old.connections.story.tale.past self.old.connections.table (O.came self.old.connections.outside) (O.went self.old.connections.outside) → Joined self.new.connections.story.tale.past self.new.connections.table (O.came self.new.connections.outside) (O.went self.new.connections.outside) }
        ensures left { self.new.left ≡ self.old.left }
        ensures setup { self.new.setup ≡ self.old.setup }
        ensures last { self.new.last ≡ self.old.last }
        ensures stop { self.new.stop ≡ true → (self.old.stop ≡ true) ⊎ (self.old.word.items ≡ codes "STOP") }
        ensures cause { HasCause (O.faults self.old.connections.outside + self.old.connections.faults) (O.faults self.new.connections.outside + self.new.connections.faults) result }
    {
        let word = read_word(&self.word, &self.setup);
        match word {
            Word::Quote(quoted) => self.quote(operator, quoted, body),
            Word::Keep { market } => self.keep(operator, market),
            Word::Status => {
                let made = status_line(self.connections.alloc, self.counts());
                self.answer_made(operator, made)
            }
            Word::Members => self.tell_members(operator),
            Word::Symbols => self.tell_symbols(operator),
            Word::Drop { member } => self.drop_member(operator, member),
            Word::Halt { symbol } => {
                self.halt(symbol, body)?;
                self.answer(operator, b"OK\n")
            }
            Word::Resume { symbol } => self.resume(operator, symbol),
            Word::Stop => self.end_day(operator),
            Word::Help => self.answer(operator, word.answer().as_bytes()),
            _ => self.refuse(operator, word),
        }
    }

    /// Hears what operators wrote.
    pub(crate) fn hear(&mut self, body: &mut Vec<Bytes>) -> Result<(), Failed>
        requires body { All IsShortLine body.old.items }
        ensures body { OnOk result (All IsShortLine body.new.items) }
        ensures keeps { Keeps self.old.connections.story.tale self.new.connections.story.tale }
        ensures joined { Joined self.old.connections.story.tale.past self.old.connections.table (O.came self.old.connections.outside) (O.went self.old.connections.outside) → Joined self.new.connections.story.tale.past self.new.connections.table (O.came self.new.connections.outside) (O.went self.new.connections.outside) }
        ensures left { self.new.left ≡ self.old.left }
        ensures setup { self.new.setup ≡ self.old.setup }
        ensures last { self.new.last ≡ self.old.last }
        ensures cause { HasCause (O.faults self.old.connections.outside + self.old.connections.faults) (O.faults self.new.connections.outside + self.new.connections.faults) result }
    {
        for _ in 0..MAX_WORDS {
            match self.connections.word(&mut self.word)? {
                Some(operator) => self.obey(operator, body)?,
                None => return Ok(()),
            }
        }
        self.busy = true;
        Ok(())
    }
}
