//! A queue by price.
ghost use Rattle.std.specs.Prelude.{◌≡◌, ◌<◌, ◌≤◌, ◌+◌, ◌^◌, length, IfOk, OnOk};
ghost use Rattle.audit_queue.specs.Levels.{first_orders, first_shares, is_at, level_of, levels, with_first, with_order};

use std::alloc::Global;
use venue_words::{NoMemory, Priced};

/// The active orders of a side at one price.
#[derive(Clone, Copy, Debug, Drop)]
pub struct Level {
    /// In units of 0.005.
    pub price: Option<u32>,
    pub orders: u32,
    pub shares: u64,
}

fn level_of(x: &Priced) -> Level
    ensures { result ≡ level_of x.now }
{
    Level {
        price: x.price(),
        orders: 1,
        shares: u64::from(x.row.leaves),
    }
}

fn is_at(level: Level, x: &Priced) -> bool
    ensures { result ≡ is_at level x.now }
{
    level.price == x.price()
}

fn with_order(level: Level, x: &Priced) -> Level
    requires orders { level.orders + 1 < 2 ^ 32 }
    requires shares { level.shares + 2 ^ 32 < 2 ^ 64 }
    ensures { result ≡ with_order level x.now }
{
    let leaves = x.row.leaves;
    Level {
        price: level.price,
        orders: level.orders + 1,
        shares: level.shares + u64::from(leaves),
    }
}

/// Puts an order before others.
fn add_first(found: &mut Vec<Level>, x: &Priced) -> Result<(), NoMemory>
    requires orders { first_orders found.old.items + 1 < 2 ^ 32 }
    requires shares { first_shares found.old.items + 2 ^ 32 < 2 ^ 64 }
    ensures levels { OnOk result (found.new.items ≡ with_first x.now found.old.items) }
    ensures orders { OnOk result (first_orders found.new.items ≤ first_orders found.old.items + 1) }
    ensures shares { OnOk result (first_shares found.new.items ≤ first_shares found.old.items + 2 ^ 32) }
{
    let _leaves = x.row.leaves;
    match found.first().copied() {
        Some(level) if is_at(level, x) => found[0] = with_order(level, x),
        _ => found.insert(0, level_of(x))?,
    }
    Ok(())
}

/// The prices of a queue, with the orders and the shares at each.
pub fn levels_of(alloc: Global, rows: &[Priced]) -> Result<Vec<Level>, NoMemory>
    requires { length rows.now < 2 ^ 32 }
    ensures { IfOk result (λ found. found.items ≡ levels rows.now) }
{
    let mut found = Vec::new(alloc);
    let mut place = rows.len();
    while 0 < place {
        place -= 1;
        add_first(&mut found, &rows[place])?;
    }
    Ok(found)
}
