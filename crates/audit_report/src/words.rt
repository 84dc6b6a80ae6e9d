//! What an order asks, in words. Each call appends its text; after a refusal a part of it may stand there.
ghost use Rattle.std.specs.Prelude.{◌≡◌, ◌++◌, OnOk};
ghost use Rattle.audit_report.specs.Words.{force_text, further_limit, is_code, is_nothing, limit_text, method_text, minimum_text, offset_text, peg_word, price_words, round_text, side_word, signed_text, terms_at, terms_in, terms_words};

use audit_html::texts::push;
use exec_reports::texts::{push_amount, push_price};
use venue_words::{Command, Event, NoMemory, Side, Terms};

/// The terms of a command.
#[tactic(auto, unfolding(crate::specs::Words::terms_in))]
fn terms_in(command: &Command) -> Option<Terms>
    ensures { result ≡ terms_in command.now }
{
    match command {
        Command::New { terms, .. } | Command::Replace { terms, .. } => Some(terms.get()),
        Command::Quote { .. } | Command::Cancel { .. } | Command::Status { .. } => None,
    }
}

/// The terms that the event of a number gave an order.
pub fn terms_at(journal: &[Event], number: u32) -> Option<Terms>
    ensures { result ≡ terms_at journal.now number }
{
    let event = journal.get((number as usize).saturating_sub(1))?;
    terms_in(&event.command)
}

pub fn side_word(side: Side) -> &'static [u8]
    ensures { result.now ≡ side_word side }
{
    match side {
        Side::Buy => b"buys ",
        Side::Sell => b"sells ",
    }
}

fn peg_word(peg: Option<u32>) -> &'static [u8]
    ensures { result.now ≡ peg_word peg }
{
    match peg {
        None => b"peg",
        Some(kind) => {
            if kind == 2 {
                return b"midpoint peg";
            }
            if kind == 4 {
                return b"market peg";
            }
            if kind == 5 { b"primary peg" } else { b"peg" }
        }
    }
}

fn is_code(code: u32, given: Option<u32>) -> bool
    ensures { result ≡ is_code code given }
{
    match given {
        None => false,
        Some(given) => given == code,
    }
}

fn is_nothing(amount: i128) -> bool
    ensures { result ≡ is_nothing amount }
{
    amount == 0
}

/// Appends an amount that is not zero, with its sign.
fn push_signed(out: &mut Vec<u8>, amount: i128) -> Result<(), NoMemory>
    ensures { OnOk result (out.new.items ≡ out.old.items ++ signed_text amount) }
{
    if amount == 0 {
        return Ok(());
    }
    push(out, if amount < 0 { b" " } else { b" +" })?;
    push_amount(out, amount)
}

fn push_offset(out: &mut Vec<u8>, offset: Option<i128>, kind: Option<u32>) -> Result<(), NoMemory>
    ensures { OnOk result (out.new.items ≡ out.old.items ++ offset_text offset kind) }
{
    let Some(offset) = offset else {
        return Ok(());
    };
    if is_nothing(offset) {
        return Ok(());
    }
    push_signed(out, offset)?;
    if is_code(2, kind) {
        push(out, b" ticks")?;
    }
    Ok(())
}

fn round_text(round: Option<u32>) -> &'static [u8]
    ensures { result.now ≡ round_text round }
{
    if is_code(1, round) {
        return b", rounded aggressively";
    }
    if is_code(2, round) {
        b", rounded passively"
    } else {
        b""
    }
}

fn method_text(method: Option<u32>) -> &'static [u8]
    ensures { result.now ≡ method_text method }
{
    if is_code(2, method) {
        b" in each trade"
    } else {
        b""
    }
}

fn push_minimum(
    out: &mut Vec<u8>,
    minimum: Option<i128>,
    method: Option<u32>,
) -> Result<(), NoMemory>
    ensures { OnOk result (out.new.items ≡ out.old.items ++ minimum_text minimum method) }
{
    let Some(minimum) = minimum else {
        return Ok(());
    };
    if is_nothing(minimum) {
        return Ok(());
    }
    push(out, b", minimum ")?;
    push_amount(out, minimum)?;
    push(out, method_text(method))
}

fn force_text(force: Option<u8>) -> &'static [u8]
    ensures { result.now ≡ force_text force }
{
    match force {
        Some(b'3') => b", immediate or cancel",
        _ => b"",
    }
}

/// Appends a limit after other words.
pub fn push_further_limit(out: &mut Vec<u8>, limit: Option<u32>) -> Result<(), NoMemory>
    ensures { OnOk result (out.new.items ≡ out.old.items ++ further_limit limit) }
{
    match limit {
        None => Ok(()),
        Some(price) => {
            push(out, b", limit ")?;
            push_price(out, price)
        }
    }
}

fn push_limit(out: &mut Vec<u8>, limit: Option<u32>) -> Result<(), NoMemory>
    ensures { OnOk result (out.new.items ≡ out.old.items ++ limit_text limit) }
{
    match limit {
        None => push(out, b"limit"),
        Some(price) => {
            push(out, b"limit ")?;
            push_price(out, price)
        }
    }
}

/// Appends at which price an order trades.
#[tactic(auto, unfolding(crate::specs::Words::price_words))]
fn push_price_words(
    out: &mut Vec<u8>,
    terms: &Terms,
    pegged: bool,
    limit: Option<u32>,
) -> Result<(), NoMemory>
    ensures { OnOk result (out.new.items ≡ out.old.items ++ price_words terms.now pegged limit) }
{
    if !pegged {
        return push_limit(out, limit);
    }
    push(out, peg_word(terms.peg))?;
    push_offset(out, terms.offset, terms.offset_kind)?;
    push(out, round_text(terms.round))?;
    push_further_limit(out, limit)
}

/// Appends all that the terms of an order ask.
#[tactic(auto, unfolding(crate::specs::Words::terms_words))]
pub fn push_terms(
    out: &mut Vec<u8>,
    terms: Option<Terms>,
    pegged: bool,
    limit: Option<u32>,
) -> Result<(), NoMemory>
    ensures { OnOk result (out.new.items ≡ out.old.items ++ terms_words terms pegged limit) }
{
    let Some(terms) = terms else {
        return Ok(());
    };
    push_price_words(out, &terms, pegged, limit)?;
    push_minimum(out, terms.minimum, terms.method)?;
    push(out, force_text(terms.force))
}
