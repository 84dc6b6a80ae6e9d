//! What each member did, and which rules the members' requests broke.
use crate::facts::MemberFacts;
use audit_html::numbers::{push_count, push_value};
use audit_html::texts::{push, push_html, push_shown};
use fix_write::digits::push_number;
use std::alloc::Global;
use venue_words::rule::RULES;
use venue_words::{Bytes, NoMemory};

/// Appends a cell with a number.
pub(crate) fn push_cell(alloc: Global, out: &mut Vec<u8>, number: u64) -> Result<(), NoMemory> {
    push(out, b"<td class=\"n\">")?;
    push_count(alloc, out, number)
}

/// Appends a line for each member.
pub(crate) fn push_members(
    alloc: Global,
    out: &mut Vec<u8>,
    names: &[Bytes],
    members: &[MemberFacts],
) -> Result<(), NoMemory> {
    push(
        out,
        b"<section id=\"members\"><h2>Members</h2><div class=\"box long few\"><table><thead><tr><th>Member<th class=\"n\">Requests<th class=\"n\">Orders<th class=\"n\">Trades<th class=\"n\">Bought<th class=\"n\">Sold<th class=\"n\">Value<th class=\"n\">Orders rest<th class=\"n\">Shares rest<th class=\"n\">Refused</thead><tbody>",
    )?;
    for (name, facts) in names.iter().zip(members.iter()) {
        push(out, b"<tr><td>")?;
        push_shown(alloc, out, name.as_slice())?;
        push_cell(alloc, out, facts.requests)?;
        push_cell(alloc, out, facts.orders)?;
        push_cell(alloc, out, facts.trades)?;
        push_cell(alloc, out, facts.bought)?;
        push_cell(alloc, out, facts.sold)?;
        push(out, b"<td class=\"n\">")?;
        push_value(alloc, out, facts.value)?;
        push_cell(alloc, out, facts.orders_resting)?;
        push_cell(alloc, out, facts.shares_resting)?;
        push_cell(alloc, out, facts.refused())?;
    }
    push(
        out,
        b"</tbody></table></div><p class=\"soft\">A trade between two orders of one member counts twice for that member. By symbol: <code>pegaudit summary</code>.</p>",
    )
}

/// How many requests of all members broke a rule.
fn broken_of(members: &[MemberFacts], place: usize) -> u64 {
    let mut all = 0u64;
    for facts in members {
        all = all.saturating_add(facts.broken.get(place).copied().unwrap_or(0));
    }
    all
}

/// Appends how many requests of each member broke a rule.
fn push_whom(
    alloc: Global,
    out: &mut Vec<u8>,
    names: &[Bytes],
    members: &[MemberFacts],
    place: usize,
) -> Result<(), NoMemory> {
    let mut is_first = true;
    for (name, facts) in names.iter().zip(members.iter()) {
        let count = facts.broken.get(place).copied().unwrap_or(0);
        if count > 0 {
            push(out, if is_first { b"" } else { b", " })?;
            push_shown(alloc, out, name.as_slice())?;
            push(out, b"&nbsp;")?;
            push_count(alloc, out, count)?;
            is_first = false;
        }
    }
    Ok(())
}

/// Appends a line for each rule that was broken, in words.
pub(crate) fn push_rules(
    alloc: Global,
    out: &mut Vec<u8>,
    names: &[Bytes],
    members: &[MemberFacts],
) -> Result<(), NoMemory> {
    let mut is_begun = false;
    let mut place = 0usize;
    for rule in RULES {
        let all = broken_of(members, place);
        if all > 0 {
            if !is_begun {
                push(
                    out,
                    b"<h3>Why requests were refused</h3><div class=\"box few\"><table class=\"rules\"><thead><tr><th class=\"n\">Rule<th>Broken because<th class=\"n\">Requests<th>Of whom</thead><tbody>",
                )?;
                is_begun = true;
            }
            push(out, b"<tr><td class=\"n\">")?;
            push_number(out, u64::from(rule.number()))?;
            push(out, b"<td class=\"words\">")?;
            push_html(out, rule.text().as_bytes())?;
            push_cell(alloc, out, all)?;
            push(out, b"<td class=\"words\">")?;
            push_whom(alloc, out, names, members, place)?;
        }
        place = place.saturating_add(1);
    }
    push(
        out,
        if is_begun {
            b"</tbody></table></div></section>\n"
        } else {
            b"</section>\n"
        },
    )
}
