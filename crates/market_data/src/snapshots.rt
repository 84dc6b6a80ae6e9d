//! Snapshots of market data (35=W), and why one is refused.
ghost use Rattle.std.specs.Prelude.{◌≡◌, ◌<◌, ◌≤◌, length, Some, None, Ok, map, IfOk, OnOk, IfErr, OnErr};
ghost use Rattle.venue_words.specs.Conditions.{IsConfig};
ghost use Rattle.venue_words.specs.declared.limits.TheConstants.{MAX_SYMBOLS, MAX_MARKETS};
ghost use Rattle.market_data.specs.Entries.{entries_of, used_quotes};
ghost use Rattle.market_data.specs.Faults.{count_of, first_some, head_faults, entries_fault, symbol_in};
ghost use Rattle.market_data.specs.Snapshots.{snapshot_of, IsRefusal, FailsFirst, PassesFirst};

use crate::entries::{EntryQuote, begins_entry, entry_of, read_entry};
use crate::quotes::quotes_of;
use crate::tags::{MD_ENTRY_TYPE, NO_MD_ENTRIES, SYMBOL};
use fix_fields::Field;
use quote_intake::number_in;
use session_core::lookup::number_in as number_of_tag;
use session_core::reasons::{TAG_MISSING, TAG_REPEATED, VALUE_OUT_OF_FORM, VALUE_OUT_OF_RANGE};
use session_core::{FailedCheck, MessageFields, Request};
use std::alloc::{AllocFailed, Global};
use venue_words::{Bytes, Command, Config, Items, NoMemory};

/// The quotes of a symbol, one for each market that the snapshot names, in the order in which they are named first.
#[derive(Debug, Drop)]
pub struct Snapshot {
    /// The symbol's number in the config.
    pub symbol: u32,
    pub quotes: Items<Command>,
}

/// Why a snapshot is refused.
#[derive(Clone, Copy, Debug, PartialEq, Eq)]
pub enum SnapshotRefusal {
    /// It fails a check: SessionRejectReason(373) and RefTagID(371) of the Reject (35=3) that answers it.
    Reject { reason: u8, tag: u32 },
    /// Memory was wanted.
    NoMemory,
}

impl From<NoMemory> for SnapshotRefusal {
    ghost use Rattle.market_data.specs.declared.snapshots.SnapshotRefusal.TheVariants.{NoMemory as memory};

    ghost from_gives = { λ _ refusal. refusal ≡ memory };

    fn from(_error: NoMemory) -> SnapshotRefusal {
        SnapshotRefusal::NoMemory
    }
}

impl<T: Drop> From<AllocFailed<T>> for SnapshotRefusal {
    ghost use Rattle.market_data.specs.declared.snapshots.SnapshotRefusal.TheVariants.{NoMemory as memory};

    ghost from_gives = { λ _ refusal. refusal ≡ memory };

    fn from(_error: AllocFailed<T>) -> SnapshotRefusal {
        SnapshotRefusal::NoMemory
    }
}

impl From<FailedCheck> for SnapshotRefusal {
    ghost use Rattle.market_data.specs.declared.snapshots.SnapshotRefusal.TheVariants.{Reject};

    ghost from_gives = { λ failed refusal. refusal ≡ Reject failed.reason failed.tag };

    fn from(failed: FailedCheck) -> SnapshotRefusal {
        SnapshotRefusal::Reject {
            reason: failed.reason,
            tag: failed.tag,
        }
    }
}

/// How often a tag stands among the fields.
fn count_of(tag: u32, fields: &MessageFields<'_>) -> usize
    ensures { result ≡ count_of tag fields.now }
{
    fields
        .as_slice()
        .iter()
        .filter(|field| field.tag == tag)
        .count()
}

/// The number of the symbol, where that is configured.
#[tactic(auto, unfolding(crate::specs::Faults::symbol_in))]
fn symbol_in(symbols: &[Bytes], fields: &MessageFields<'_>) -> Option<u32>
    requires { length symbols.now ≤ MAX_SYMBOLS }
    ensures { result ≡ symbol_in symbols.now fields.now }
{
    match fields.value_of(SYMBOL) {
        Some(name) => number_in(symbols, name),
        None => None,
    }
}

/// Reads what stands beside the entries, and gives the number of the symbol.
fn read_head(symbols: &[Bytes], fields: &MessageFields<'_>) -> Result<u32, FailedCheck>
    requires { length symbols.now ≤ MAX_SYMBOLS }
    ensures failed { IfErr result (λ failed. first_some (head_faults symbols.now fields.now) ≡ Some failed) }
    ensures passed { OnOk result (first_some (head_faults symbols.now fields.now) ≡ None) }
    ensures symbol { IfOk result (λ symbol. symbol_in symbols.now fields.now ≡ Some symbol) }
{
    let failed = |reason, tag| Err(FailedCheck { reason, tag });
    if fields.value_of(SYMBOL).is_none() {
        return failed(TAG_MISSING, SYMBOL);
    }
    if fields.value_of(NO_MD_ENTRIES).is_none() {
        return failed(TAG_MISSING, NO_MD_ENTRIES);
    }
    if count_of(SYMBOL, fields) > 1 {
        return failed(TAG_REPEATED, SYMBOL);
    }
    if count_of(NO_MD_ENTRIES, fields) > 1 {
        return failed(TAG_REPEATED, NO_MD_ENTRIES);
    }
    let Some(entries) = number_of_tag(NO_MD_ENTRIES, fields) else {
        return failed(VALUE_OUT_OF_FORM, NO_MD_ENTRIES);
    };
    let Some(symbol) = symbol_in(symbols, fields) else {
        return failed(VALUE_OUT_OF_RANGE, SYMBOL);
    };
    if count_of(MD_ENTRY_TYPE, fields) != entries as usize {
        return failed(VALUE_OUT_OF_RANGE, NO_MD_ENTRIES);
    }
    Ok(symbol)
}

/// Reads the entry that begins with the first of these fields, where one begins there, and adds what it says.
#[tactic(auto, unfolding(crate::specs::Entries::entries_of))]
fn read_first(
    markets: &[Bytes],
    fields: &[Field<'_>],
    quotes: &mut Vec<EntryQuote>,
) -> Result<(), SnapshotRefusal>
    requires markets { length markets.now ≤ MAX_MARKETS }
    requires some { 0 < length fields.now }
    ensures refused { IfErr result (FailsFirst (entries_fault markets.now (entries_of fields.now))) }
    ensures passed { OnOk result (PassesFirst markets.now fields.now quotes.old.items quotes.new.items) }
{
    if !begins_entry(&fields[0]) {
        return Ok(());
    }
    if let Some(quote) = read_entry(markets, entry_of(fields))? {
        quotes.push(quote)?;
    }
    Ok(())
}

/// Reads the entries one after the other, and gives what the used ones say.
fn read_entries(
    alloc: Global,
    markets: &[Bytes],
    fields: &[Field<'_>],
) -> Result<Vec<EntryQuote>, SnapshotRefusal>
    requires { length markets.now ≤ MAX_MARKETS }
    ensures refused { IfErr result (FailsFirst (entries_fault markets.now (entries_of fields.now))) }
    ensures passed { OnOk result (entries_fault markets.now (entries_of fields.now) ≡ None) }
    ensures quotes { IfOk result (λ quotes. quotes.items ≡ used_quotes markets.now (entries_of fields.now)) }
{
    let mut quotes = Vec::new(alloc);
    for at in 0..fields.len() {
        read_first(markets, &fields[at..], &mut quotes)?;
    }
    Ok(quotes)
}

/// Reads a snapshot of a symbol: a message of type W, of which only the fields count. Its entries of the types bid, offer and
/// empty book are used, and all others are ignored. A refusal names the first check that it fails, and nothing is changed by
/// it.
#[tactic(auto, unfolding(crate::specs::Snapshots::snapshot_of))]
pub fn read_snapshot(
    alloc: Global,
    request: &Request<'_>,
    config: &Config,
) -> Result<Snapshot, SnapshotRefusal>
    requires { IsConfig config.now }
    ensures snapshot { IfOk result (λ snapshot. snapshot_of request.now.fields config.now ≡ Ok snapshot) }
    ensures refused { IfErr result (IsRefusal (snapshot_of request.now.fields config.now)) }
{
    let fields = &request.fields;
    let symbol = read_head(config.symbols.as_slice(), fields)?;
    let said = read_entries(alloc, config.markets.as_slice(), fields.as_slice())?;
    Ok(Snapshot {
        symbol,
        quotes: quotes_of(alloc, &said)?,
    })
}
