//! Histories that look random and are the same in each run.
ghost use Rattle.std.specs.Prelude.{◌<◌};

use super::orders::SHARE;
use std::alloc::{AllocError, Global};
use venue_words::{BoxedId, BoxedTerms, Command, Event, Id, Terms};

/// One unit of price.
const UNIT: i128 = 500_000;

/// What a random order is pegged to: mostly the midpoint, the own side or the other side, and now and then nothing known.
const PEGS: [u32; 8] = [2, 4, 5, 2, 5, 5, 2, 9];

fn amount_of(shares: u32) -> i128 {
    i128::from(shares).wrapping_mul(SHARE)
}

/// Numbers that look random.
#[derive(Drop)]
struct Random(u64);

impl Random {
    fn below(&mut self, end: u32) -> u32
        requires { 0 < end }
        ensures { result < end }
    {
        self.0 = self
            .0
            .wrapping_mul(6_364_136_223_846_793_005)
            .wrapping_add(1_442_695_040_888_963_407);
        u32::try_from(self.0 >> 33).unwrap_or(0) % end
    }

    /// Whether one of so many chances came.
    fn once_in(&mut self, chances: u32) -> bool
        requires { 0 < chances }
    {
        self.below(chances) == 0
    }

    /// A number that is there now and then.
    fn some_below(&mut self, chances: u32, end: u32) -> Option<u32>
        requires chances { 0 < chances }
        requires end { 0 < end }
    {
        if self.once_in(chances) {
            Some(self.below(end))
        } else {
            None
        }
    }

    /// So many units from below a count on, now and then.
    fn amount(&mut self, chances: u32, count: u32, from: i64, unit: i128) -> Option<i128>
        requires chances { 0 < chances }
        requires count { 0 < count }
    {
        match self.some_below(chances, count) {
            Some(number) => Some(
                i128::from(number)
                    .wrapping_add(i128::from(from))
                    .wrapping_mul(unit),
            ),
            None => None,
        }
    }

    /// A price of a quote near 10.00, or now and then none.
    fn cents(&mut self, from: u32) -> Option<u32>
        requires { from < 10000 }
    {
        let cents = from + self.below(6);
        if self.once_in(12) { None } else { Some(cents) }
    }

    /// A code of one byte.
    fn byte(&mut self, chances: u32, first: u8, other: u8) -> u8
        requires { 0 < chances }
    {
        if self.once_in(chances) { first } else { other }
    }

    /// TimeInForce(59): now and then immediate or cancel.
    fn force(&mut self) -> Option<u8> {
        if self.once_in(8) { Some(b'3') } else { None }
    }

    /// MinQtyMethod(1822): now and then 0 to 2.
    fn method(&mut self) -> Option<u32> {
        self.some_below(3, 3)
    }

    /// Whole lots, or tens of shares.
    fn shares(&mut self) -> u32 {
        if self.once_in(2) {
            100 * self.below(6)
        } else {
            10 + 10 * self.below(30)
        }
    }

    /// Whole lots, or a part of the shares, or mostly no minimum.
    fn minimum(&mut self, shares: u32) -> Option<u32> {
        match self.below(5) {
            0 => Some(100 * self.below(4)),
            1 => Some(shares / (1 + self.below(4))),
            _ => None,
        }
    }

    fn peg(&mut self) -> Option<u32> {
        Some(PEGS[self.below(8) as usize])
    }

    /// Terms near a quote of 10.00: a limit order always has a price, and a pegged one now and then.
    fn terms(&mut self) -> Terms {
        let kind = self.byte(3, b'2', b'P');
        let price = self.amount(if kind == b'2' { 1 } else { 3 }, 12, 998, 2 * UNIT);
        let side = self.byte(2, b'1', b'2');
        let shares = self.shares();
        let force = self.force();
        let minimum = self.minimum(shares);
        let method = self.method();
        let peg = self.peg();
        let offset = self.amount(3, 5, -2, UNIT);
        let round = self.some_below(4, 3);
        Terms {
            side,
            quantity: amount_of(shares),
            kind,
            price,
            force,
            minimum: minimum.map(amount_of),
            method,
            peg,
            offset,
            offset_kind: None,
            moves: None,
            round,
        }
    }

    fn quote(&mut self) -> Command {
        let market = self.below(2);
        let bid = self.cents(996);
        let offer = self.cents(999);
        Command::Quote { market, bid, offer }
    }
}

/// A short id.
fn id_of(alloc: Global, number: u32) -> Result<Id, AllocError> {
    let text = format!(in alloc; "i{number}")?;
    Id::copy_of(alloc, text.as_bytes())
}

/// A request whose own id has this number, mostly, and whose other one is that of an earlier order.
fn request(alloc: Global, random: &mut Random, number: u32) -> Result<Command, AllocError> {
    let kind = random.below(9);
    let member = random.below(2);
    let terms = BoxedTerms::new(alloc, random.terms())?;
    let other = number.saturating_sub(random.below(14));
    let own = if random.once_in(12) { other } else { number };
    let id = id_of(alloc, own)?;
    let orig = id_of(alloc, other)?;
    Ok(match kind {
        0..=4 => Command::New { member, id, terms },
        5 => Command::Cancel {
            member,
            id,
            orig: BoxedId::new(alloc, orig)?,
        },
        6 | 7 => Command::Replace {
            member,
            id,
            orig: BoxedId::new(alloc, orig)?,
            terms,
        },
        _ => Command::Status {
            member,
            id: orig,
            side: b'1',
        },
    })
}

fn command(alloc: Global, random: &mut Random, number: u32) -> Result<Command, AllocError> {
    if random.once_in(4) {
        Ok(random.quote())
    } else {
        request(alloc, random, number)
    }
}

/// So many events from a seed.
pub fn random_events(alloc: Global, seed: u64, count: u32) -> Result<Vec<Event>, AllocError> {
    let mut random = Random(seed);
    let mut events = Vec::new(alloc);
    for k in 0..count {
        let number = k.saturating_add(1);
        let command = command(alloc, &mut random, number)?;
        events.push(Event {
            number,
            feed: number % 3,
            moment: i64::from(number),
            command,
        })?;
    }
    Ok(events)
}
