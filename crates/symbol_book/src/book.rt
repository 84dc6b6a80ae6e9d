//! A book over any matching engine.
use crate::hashing::HashSeed;
use crate::ids::UsedIds;
use crate::log::ReportLog;
use crate::looking::resting_row;
use crate::orders::Orders;
use crate::parts::Parts;
use crate::preparing::{id_bytes, key_for, make_room, room_for};
use crate::room::Room;
use crate::taking::takes_command;
use crate::working::work;
use best_prices::Markets;
use eager_meaning::Order;
use market_laws::{
    book_is_sound, bought_shares_are_sold, cum_is_sum_of_trades, new_is_answered_once,
    new_trades_fit, quote_trades_fit, replace_trades_fit, reports_are_few, rows_are_placed,
    rows_stand, trades_are_within_quote,
};
use match_core::Engine;
use std::alloc::Global;
use std::marker::Model;
use std::sync::ledger::Ledger;
use venue_words::{Command, Event, FloorRefusal, Key, NoMemory, Priced, Report, Steps};

/// The book of one symbol over a matching engine. It is seen as its journal and what that makes: the state and the reports
/// are always those of the market's rules for the journal.
pub struct BookOver<E: Engine + Drop> {
    alloc: Global,
    tick: u32,
    limit: u32,
    parts: Parts<E>,
    journal: Vec<Event>,
    /// The key of the row for which there is room, where there is room for an event.
    ready: Option<Option<Key>>,
}

// Written out, so that crates above let go of a book by this theorem, and not part by part.
impl<E: Engine + Drop> Drop for BookOver<E> {
    fn drop(self) {
        let BookOver {
            alloc: _,
            tick: _,
            limit: _,
            parts: _,
            journal: _,
            ready: _,
        } = self;
    }
}

impl<E: Engine + Drop> Model for BookOver<E> {
    ghost use Rattle.std.specs.Prelude.{◌≡◌, ◌<◌, Option, Some, length, vec_len};
    ghost use Rattle.std.specs.Vec.{vec_capacity};
    ghost use Rattle.venue_words.specs.declared.row.Key.{Key};
    ghost use Rattle.eager_meaning.specs.Work.{key_count};
    ghost use Rattle.symbol_book.specs.Book.{BookView, IsKept};
    ghost use Rattle.symbol_book.specs.Commands.{IsNarrow};
    ghost use Rattle.symbol_book.specs.Parts.{HasRoom, resting_in, rows_in};

    ghost Value = { BookView };

    ghost view = { λ b. record {
      markets = length b.parts.markets;
      tick = b.tick;
      limit = b.limit;
      journal = b.journal.items;
      reports = b.parts.log.list;
      ready = b.ready;
      longest = b.parts.orders.longest;
    } };

    ghost invariant = { λ b. IsKept b.tick b.limit b.parts.markets (E.buys b.parts.engine) (E.sells b.parts.engine)
        (E.best b.parts.engine) (E.latest b.parts.engine) b.parts.orders.items b.parts.entered.items b.parts.ids
        b.parts.log b.journal.items
        × ((key : Option Key) → b.ready ≡ Some key → E.ready b.parts.engine key
        × HasRoom (resting_in E.buys E.sells b.parts) b.parts
        × (vec_len b.journal < vec_capacity b.journal)
        × IsNarrow key (E.width b.parts.engine) (key_count (rows_in E.buys E.sells b.parts))) };
}

impl<E: Engine + Drop> BookOver<E> {
    ghost use Rattle.std.specs.Prelude.{◌≡◌, ℕ, ◌+◌, ◌<◌, ◌≤◌, ◌++◌, ◌∷◌, [], Some, None, true, length, slice_get};
    ghost use Rattle.std.specs.Prelude.{Err, OnOk, IfOk, IfErr};
    ghost use Rattle.venue_words.specs.Conditions.{IsTick};
    ghost use Rattle.venue_words.specs.declared.limits.TheConstants.{MAX_EVENTS};
    ghost use Rattle.venue_words.specs.Journals.{IfFull};
    ghost use Rattle.venue_words.specs.declared.price.Side.TheVariants.{Buy, Sell};
    ghost use Rattle.eager_meaning.specs.Showing.{row_of_order};
    ghost use Rattle.eager_meaning.specs.State.{resting};
    ghost use Rattle.eager_meaning.specs.Step.{IsNumbered, runs};
    ghost use Rattle.eager_meaning.specs.Work.{bound, groups};
    ghost use Rattle.eager_meaning.specs.declared.order.Order.{Order};
    ghost use Rattle.market_laws.specs.Orders.{shares_told_of};
    ghost use Rattle.market_laws.specs.Sound.{IsSound};
    ghost use Rattle.market_laws.specs.Trading.{shares_traded};
    ghost use Rattle.symbol_book.specs.Commands.{id_bytes, takes_command, key_for};
    ghost use Rattle.symbol_book.specs.Market.{TradesWithinQuote, EachNewAnswered};
    ghost use Rattle.symbol_book.specs.Room.{IsRoomFor};
    ghost use Rattle.symbol_book.specs.Setting.{setting_of, book_setting, markets_in, tick_in, run_at, reports_at};

    /// A book without events, over an engine without rows: so many markets, a limit of events, and a tick of 2 or 10 units of
    /// 0.005.
    pub fn over(
        alloc: Global,
        engine: E,
        seed: HashSeed,
        markets: u32,
        limit: u32,
        tick: u32,
    ) -> Result<BookOver<E>, NoMemory>
        requires limit { limit ≤ MAX_EVENTS }
        requires tick { IsTick tick }
        requires buys { E.buys engine ≡ [] }
        requires sells { E.sells engine ≡ [] }
        requires best { E.best engine ≡ record { bid = None; offer = None } }
        requires latest { E.latest engine ≡ 0 }
        ensures same { IfOk result (λ book. (book.markets ≡ markets) × (book.tick ≡ tick) × (book.limit ≡ limit)) }
        ensures empty { IfOk result (λ book. (book.journal ≡ []) × (book.reports ≡ [])) }
    {
        let markets = Markets::new(alloc, markets)?;
        Ok(BookOver {
            alloc,
            tick,
            limit,
            parts: Parts {
                markets,
                engine,
                orders: Orders::new(alloc),
                entered: Vec::new(alloc),
                ids: UsedIds::new(alloc, seed),
                log: ReportLog::new(alloc),
            },
            journal: Vec::new(alloc),
            ready: None,
        })
    }

    /// The reports of all events: those that the market's rules make of the journal.
    pub fn reports(&self) -> &[Report]
        ensures list { result.now ≡ self.now.reports }
        ensures runs { result.now ≡ (runs self.now.markets self.now.tick self.now.journal).reports }
        ensures by_setting { result.now ≡ reports_at (book_setting self.now) self.now.journal }

        // Shares are neither made nor lost, each order's CumQty is the sum of its trades, and its quantity is CumQty plus
        // leaves while it is live.
        ensures shares { shares_traded Buy result.now ≡ shares_traded Sell result.now }
        ensures sums { (k : ℕ) (order : Order) → slice_get
            (runs self.now.markets self.now.tick self.now.journal).state.orders k ≡ Some order
            → order.cum ≡ shares_told_of order.first result.now }
        ensures sound { IsSound (length self.now.journal) (runs self.now.markets self.now.tick self.now.journal).state }

        // No trade is outside the national quote after its event, and each New has one answer, first.
        ensures within { TradesWithinQuote self.now.markets self.now.tick self.now.journal }
        ensures answered { EachNewAnswered self.now.markets self.now.tick self.now.journal }
    {
        self.parts_of_setting();
        bought_shares_are_sold();
        cum_is_sum_of_trades();
        book_is_sound();
        trades_are_within_quote();
        new_is_answered_once();
        self.parts.log.as_slice()
    }

    /// The events, in their order.
    pub fn journal(&self) -> &[Event]
        ensures list { result.now ≡ self.now.journal }
        ensures numbered { IsNumbered result.now }
    {
        self.journal.as_slice()
    }

    /// All orders that were accepted, live or not, in the order of their News. An order's number is its place, from 0.
    pub fn orders(&self) -> &[Order]
        ensures { result.now ≡ (runs self.now.markets self.now.tick self.now.journal).state.orders }
    {
        self.parts.orders.as_slice()
    }

    /// The order of a number as it rests: what it entered with, its shares left, its value and its time; or none where it
    /// does not rest. It takes at most 512 steps.
    pub fn resting_order<L: Ledger>(&self, number: u32, steps: &mut Steps<L>) -> Option<Priced>
        requires { number < length (runs self.now.markets self.now.tick self.now.journal).state.orders }
        ensures row { result ≡ row_of_order number (resting (runs self.now.markets self.now.tick self.now.journal).state) }
        ensures most { steps.new ≤ steps.old + 512 }
    {
        rows_stand();
        rows_are_placed();
        let parts = &self.parts;
        resting_row(&parts.engine, &parts.orders, &parts.entered, number, steps)
    }

    /// How many orders rest.
    pub fn resting(&self) -> u32
        ensures runs { result ≡ length (runs self.now.markets self.now.tick self.now.journal).state.buys
            + length (runs self.now.markets self.now.tick self.now.journal).state.sells }
        ensures by_setting { result ≡ length (resting (run_at (book_setting self.now) self.now.journal).state) }
    {
        self.parts_of_setting();
        book_is_sound();
        self.parts.engine.len() as u32
    }

    /// How many peg groups rest: the different keys of the resting orders.
    pub fn groups(&self) -> u32
        ensures runs { result ≡ groups (runs self.now.markets self.now.tick self.now.journal).state }
        ensures by_setting { result ≡ groups (run_at (book_setting self.now) self.now.journal).state }
    {
        self.parts_of_setting();
        book_is_sound();
        self.parts.engine.groups() as u32
    }

    /// Whether it takes a command: prices of quotes are from 0.01 to 19,999.99, ids have at most 64 bytes, and a quote is of a
    /// market that is there.
    pub fn takes(&self, command: &Command) -> bool
        ensures markets { result ≡ takes_command self.now.markets command.now }
        ensures setting { result ≡ takes_command (markets_in (book_setting self.now)) command.now }
    {
        self.parts_of_setting();
        takes_command(self.parts.markets.len(), command)
    }

    /// How many reports there are.
    pub fn front(&self) -> u32
        ensures list { result ≡ length self.now.reports }
        ensures runs { result ≡ length (runs self.now.markets self.now.tick self.now.journal).reports }
        ensures by_setting { result ≡ length (reports_at (book_setting self.now) self.now.journal) }
    {
        self.parts_of_setting();
        reports_are_few();
        self.parts.log.as_slice().len() as u32
    }

    /// The number of the next event.
    pub(crate) fn next_number(&self) -> u32
        ensures { result ≡ length self.now.journal + 1 }
    {
        self.journal.len() as u32 + 1
    }

    /// The allocator of copies.
    pub(crate) fn alloc(&self) -> Global {
        self.alloc
    }

    /// That the markets and the tick can be read from the setting. This does nothing when it runs.
    pub(crate) fn parts_of_setting(&self)
        ensures markets { markets_in (book_setting self.now) ≡ self.now.markets }
        ensures tick { tick_in (book_setting self.now) ≡ self.now.tick }
    {
        let _tick = self.tick;
    }

    /// Makes all room that a command can need, so that `apply` takes no memory. Room stays from event to event, and only what
    /// is missing is added. `Full` comes where the journal holds its limit. A refusal leaves the journal and the reports.
    pub fn prepare(&mut self, command: &Command) -> Result<Room, FloorRefusal>
        requires takes { takes_command self.old.markets command.now ≡ true }
        ensures same { (self.new.markets ≡ self.old.markets) × (self.new.tick ≡ self.old.tick) × (self.new.limit
            ≡ self.old.limit) }
        ensures journal { self.new.journal ≡ self.old.journal }
        ensures reports { self.new.reports ≡ self.old.reports }
        ensures ready { OnOk result (self.new.ready ≡ Some (key_for self.old.tick command.now)) }
        ensures longest { OnOk result (id_bytes command.now ≤ self.new.longest) }
        ensures room { IfOk result (λ room. IsRoomFor command.now room) }
        ensures below { OnOk result (length self.old.journal < self.old.limit) }
        ensures full { IfErr result (IfFull (λ found. (found ≡ length self.old.journal) × (found ≡ self.old.limit))) }
        ensures at_limit { self.old.limit ≤ length self.old.journal → result ≡ Err (FloorRefusal.Full self.old.limit) }
    {
        if self.journal.len() >= self.limit as usize {
            return Err(FloorRefusal::Full { found: self.limit });
        }
        let Ok(room) = room_for(self.alloc, command) else {
            return Err(FloorRefusal::NoMemory);
        };
        book_is_sound();
        let key = key_for(self.tick, command);
        let rows = self.parts.engine.len();
        self.ready = None;
        let bytes = id_bytes(command);
        let made = make_room(
            self.alloc,
            key,
            bytes,
            rows,
            &mut self.parts,
            &mut self.journal,
        );
        if made.is_err() {
            return Err(FloorRefusal::NoMemory);
        }
        self.ready = Some(key);
        Ok(room)
    }

    /// Works an event for which there is room, and reports what the market's rules make of it. It takes no memory.
    pub fn apply<L: Ledger>(&mut self, room: Room, event: Event, steps: &mut Steps<L>)
        requires takes { takes_command self.old.markets event.command ≡ true }
        requires number { event.number ≡ length self.old.journal + 1 }
        requires below { length self.old.journal < self.old.limit }
        requires ready { self.old.ready ≡ Some (key_for self.old.tick event.command) }
        requires longest { id_bytes event.command ≤ self.old.longest }
        requires room { IsRoomFor event.command room }
        ensures same { (self.new.markets ≡ self.old.markets) × (self.new.tick ≡ self.old.tick) × (self.new.limit
            ≡ self.old.limit) }
        ensures journal { self.new.journal ≡ self.old.journal ++ event ∷ [] }
        ensures reports { self.new.reports ≡ (runs self.old.markets self.old.tick (self.old.journal ++ event ∷ [])).reports }
        ensures most { steps.new ≤ steps.old + bound self.old.tick
            (runs self.old.markets self.old.tick self.old.journal).state event.number event.command }
    {
        book_is_sound();
        rows_stand();
        quote_trades_fit();
        new_trades_fit();
        replace_trades_fit();
        work(self.tick, &mut self.parts, &event, room, steps);
        self.journal.push_reserved(event);
        self.ready = None;
    }
}
