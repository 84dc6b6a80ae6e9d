//! The load script, line by line.
ghost use Rattle.std.specs.Prelude.{◌≡◌, ◌≤◌, ◌<◌, ◌+◌, ◌-◌, ◌^◌, ◌++◌, [], IfOk, OnOk, get_or};
ghost use Rattle.script_text.specs.Load.{first_lines, order_front, offset_text, order_line, quote_line, last_line, load_line};

use fix_write::digits::push_number;
use std::alloc::Global;
use venue_words::NoMemory;

/// Room for each line, so that none grows while it is made.
const LINE_BYTES: usize = 160;

/// A line that is always the same.
fn fixed(alloc: Global, line: &[u8]) -> Result<Vec<u8>, NoMemory>
    ensures { IfOk result (λ copy. copy.items ≡ line.now) }
{
    Ok(Vec::from_slice(alloc, line)?)
}

/// A line of the header, the member's Logon, or the first quote.
fn first_line(alloc: Global, limit: u64, number: u64) -> Result<Vec<u8>, NoMemory>
    requires above { 1 ≤ number }
    requires below { number ≤ 7 }
    ensures { IfOk result (λ line. line.items ≡ get_or (first_lines limit) (number - 1) []) }
{
    match number {
        1 => fixed(alloc, b"PEGV 1"),
        2 => fixed(alloc, b"MEMBER A"),
        3 => fixed(alloc, b"MARKET M"),
        4 => Ok(format!(in alloc; "SYMBOL L {limit}")?.into_bytes()),
        5 => fixed(alloc, b"BEGIN 20240102-14:30:00.000"),
        6 => fixed(
            alloc,
            b"M A 35=A|49=A|56=PEGV|34=1|52=20240102-14:30:00|98=0|108=30|1137=9|",
        ),
        _ => fixed(alloc, b"Q L M 10.00 10.02"),
    }
}

/// An order up to its ClOrdID.
#[tactic(auto, unfolding(crate::specs::Load::order_front))]
fn order_front(alloc: Global, id: u64) -> Result<Vec<u8>, NoMemory>
    requires { id < 2 ^ 33 }
    ensures { IfOk result (λ line. line.items ≡ order_front id) }
{
    let mut line = Vec::with_capacity(alloc, LINE_BYTES)?;
    line.extend_from_slice(b"M A 35=D|49=A|56=PEGV|34=")?;
    push_number(&mut line, id + 1)?;
    line.extend_from_slice(b"|52=20240102-14:30:00|11=")?;
    push_number(&mut line, id)?;
    Ok(line)
}

/// Appends an offset of so many ticks below. After a refusal the line may hold a part of it.
#[tactic(auto, unfolding(crate::specs::Load::offset_text))]
fn push_offset(line: &mut Vec<u8>, ticks: u64) -> Result<(), NoMemory>
    ensures { OnOk result (line.new.items ≡ line.old.items ++ offset_text ticks) }
{
    if ticks == 0 {
        line.extend_from_slice(b"0")?;
    } else {
        line.extend_from_slice(b"-")?;
        push_number(line, ticks)?;
    }
    Ok(())
}

/// An order that rests.
#[tactic(auto, unfolding(crate::specs::Load::order_line))]
fn order_line(alloc: Global, i: u64) -> Result<Vec<u8>, NoMemory>
    requires { i < 2 ^ 32 }
    ensures { IfOk result (λ line. line.items ≡ order_line i) }
{
    let mut line = order_front(alloc, i)?;
    line.extend_from_slice(b"|55=L|54=1|38=100|40=P|1094=5|836=2|211=")?;
    push_offset(&mut line, i % 8)?;
    line.extend_from_slice(b"|60=20240102-14:30:00|")?;
    Ok(line)
}

/// A quote behind the first one.
#[tactic(auto, unfolding(crate::specs::Load::quote_line))]
fn quote_line(alloc: Global, k: u64) -> Result<Vec<u8>, NoMemory>
    ensures { IfOk result (λ line. line.items ≡ quote_line k) }
{
    if k % 2 == 1 {
        fixed(alloc, b"Q L M 10.01 10.03")
    } else {
        fixed(alloc, b"Q L M 10.00 10.02")
    }
}

/// The order that trades.
#[tactic(auto, unfolding(crate::specs::Load::last_line))]
fn last_line(alloc: Global, orders: u64) -> Result<Vec<u8>, NoMemory>
    requires { orders < 2 ^ 32 }
    ensures { IfOk result (λ line. line.items ≡ last_line orders) }
{
    let mut line = order_front(alloc, orders + 1)?;
    line.extend_from_slice(b"|55=L|54=2|38=1000|40=2|44=9.98|59=3|60=20240102-14:30:00|")?;
    Ok(line)
}

/// A line of the load script, without its LF: a script of one member whose many orders rest at eight offsets below the
/// bid, of quotes that move all of them, and of one order at the end that sells 1,000 shares. It has orders + quotes
/// + 8 lines, counted from 1, and the empty text stands behind the last one.
#[tactic(auto, using(crate::proofs::Loads::by_number))]
pub fn load_line(alloc: Global, orders: u32, quotes: u32, number: u32) -> Result<Vec<u8>, NoMemory>
    requires above { 1 ≤ number }
    requires below { number ≤ orders + quotes + 9 }
    ensures { IfOk result (λ line. line.items ≡ load_line orders quotes number) }
{
    let orders = u64::from(orders);
    let quotes = u64::from(quotes);
    let number = u64::from(number);
    if number <= 7 {
        return first_line(alloc, orders + quotes + 2, number);
    }
    let behind = number - 7;
    if behind <= orders {
        order_line(alloc, behind)
    } else if behind <= orders + quotes {
        quote_line(alloc, behind - orders)
    } else if behind == orders + quotes + 1 {
        last_line(alloc, orders)
    } else {
        Ok(Vec::new(alloc))
    }
}
