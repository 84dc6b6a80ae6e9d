//! The lines of a day that look random and are the same in each run: two members, two symbols, quotes, orders, cancels, and a member
//! who comes back.
use super::random::Random;
use std::alloc::{AllocError, Global};

/// The header of such a day.
pub const HEADER: &str = "PEGV 1
MEMBER A
MEMBER B
MARKET N
SYMBOL X 400
SYMBOL Y 400
BEGIN 20240102-14:30:00.000
";

const SYMBOLS: [&str; 2] = ["X", "Y"];

const SENT: &str = "20240102-14:30:00";

/// A member: his name, his next number, and how many of his orders were sent.
#[derive(Drop)]
struct Member {
    name: &'static str,
    number: u32,
    orders: u32,
}

impl Member {
    /// What stands in front of each of his messages.
    fn head(&mut self, alloc: Global, kind: &str) -> Result<String, AllocError> {
        let name = self.name;
        let number = self.number;
        self.number = number.saturating_add(1);
        format!(in alloc; "M {name} 35={kind}|49={name}|56=PEGV|34={number}|52={SENT}|")
    }

    /// A Logon, which asks for the numbers to begin anew where it is his first.
    fn logon(&mut self, alloc: Global) -> Result<String, AllocError> {
        let head = self.head(alloc, "A")?;
        format!(in alloc; "{head}98=0|108=30|1137=9|\n")
    }

    /// A new order, pegged to the midpoint.
    fn order(&mut self, alloc: Global, random: &mut Random) -> Result<String, AllocError> {
        self.orders = self.orders.saturating_add(1);
        let head = self.head(alloc, "D")?;
        let number = self.orders;
        let symbol = symbol(random);
        let side = 1 + random.below(2);
        let shares = 100 + 100 * random.below(5);
        format!(in alloc;
            "{head}11=o{number}|55={symbol}|54={side}|60={SENT}|38={shares}|40=P|1094=2|\n"
        )
    }

    /// A cancel of an order of his, which may be there no more, or of another symbol.
    fn cancel(&mut self, alloc: Global, random: &mut Random) -> Result<String, AllocError> {
        let head = self.head(alloc, "F")?;
        let number = self.number;
        let order = 1 + random.below(self.orders.max(1));
        let symbol = symbol(random);
        format!(in alloc; "{head}11=c{number}|41=o{order}|55={symbol}|54=1|60={SENT}|\n")
    }
}

fn symbol(random: &mut Random) -> &'static str {
    SYMBOLS[random.below(2) as usize]
}

fn quote(alloc: Global, random: &mut Random) -> Result<String, AllocError> {
    let symbol = symbol(random);
    let bid = 10 + random.below(80);
    let offer = bid + 1 + random.below(4);
    format!(in alloc; "Q {symbol} N 10.{bid} 10.{offer}\n")
}

/// So many lines, or one more: two Logons, and then what comes.
pub fn random_lines(alloc: Global, seed: u64, count: u32) -> Result<String, AllocError> {
    let mut random = Random(seed);
    let mut members = [
        Member {
            name: "A",
            number: 1,
            orders: 0,
        },
        Member {
            name: "B",
            number: 1,
            orders: 0,
        },
    ];
    let mut text = String::new(alloc);
    for member in &mut members {
        text.push_str(&member.logon(alloc)?)?;
    }
    for line in 2..count {
        let member = &mut members[random.below(2) as usize];
        let made = match random.below(16) {
            0..8 => member.order(alloc, &mut random)?,
            8..11 => member.cancel(alloc, &mut random)?,
            11..15 => quote(alloc, &mut random)?,
            _ if random.below(2) == 0 => {
                format!(in alloc; "T 20240102-14:30:{:02}.000\n", line / 16)?
            }
            _ => {
                let name = member.name;
                let logon = member.logon(alloc)?;
                format!(in alloc; "O {name}\n{logon}")?
            }
        };
        text.push_str(&made)?;
    }
    Ok(text)
}
