//! The three parts of a symbol's section, and their words.
ghost use Rattle.std.specs.Prelude.{◌≡◌, ◌∷◌, [], OnOk};
ghost use Rattle.audit_html.specs.Chunks.{Adds};
ghost use Rattle.audit_report.specs.Parts.{box, class, hint, how, letter, many, most, title};

use audit_html::chunks::{Chunks, Tags};
use venue_words::NoMemory;

/// A part of a symbol's section.
#[derive(Clone, Copy, Debug, PartialEq, Eq)]
pub enum Part {
    Trades,
    Orders,
    /// Requests that broke a rule.
    Refusals,
}

/// Its title.
pub fn title(part: Part) -> &'static [u8]
    ensures { result.now ≡ title part }
{
    match part {
        Part::Trades => b"Trades",
        Part::Orders => b"Orders",
        Part::Refusals => b"Refused requests",
    }
}

/// What its rows are called.
pub fn many(part: Part) -> &'static [u8]
    ensures { result.now ≡ many part }
{
    match part {
        Part::Trades => b"trades",
        Part::Orders => b"orders",
        Part::Refusals => b"refused requests",
    }
}

/// How all of its rows are had.
pub fn how(part: Part) -> &'static [u8]
    ensures { result.now ≡ how part }
{
    match part {
        Part::Trades => b"pegaudit trades CONFIG LISTING",
        Part::Orders => b"pegaudit order CONFIG LISTING SYMBOL EVENT",
        Part::Refusals => b"pegaudit summary CONFIG LISTING",
    }
}

/// What can be searched in it.
pub fn hint(part: Part) -> &'static [u8]
    ensures { result.now ≡ hint part }
{
    match part {
        Part::Trades => b"Find a time, member or ClOrdID",
        Part::Orders => b"Find an order, member, ClOrdID or end",
        Part::Refusals => b"Find a member, ClOrdID or reason",
    }
}

/// The letter of its anchor.
pub fn letter(part: Part) -> &'static [u8]
    ensures { result.now ≡ letter part }
{
    match part {
        Part::Trades => b"t",
        Part::Orders => b"o",
        Part::Refusals => b"r",
    }
}

/// The class of the box of its rows.
pub fn class(part: Part) -> &'static [u8]
    ensures { result.now ≡ class part }
{
    match part {
        Part::Trades => b"box long",
        Part::Orders => b"orders",
        Part::Refusals => b"box long",
    }
}

/// At most so many of its rows are on the page, over all symbols.
pub fn most(part: Part) -> u32
    ensures { result ≡ most part }
{
    match part {
        Part::Trades => 50_000,
        Part::Orders => 20_000,
        Part::Refusals => 5_000,
    }
}

/// How a box of its rows begins and ends.
pub fn tags(part: Part) -> Tags<'static>
    ensures begin { result.begin.now ≡ (box part).begin }
    ensures end { result.end.now ≡ (box part).end }
{
    match part {
        Part::Trades => Tags {
            begin: b"<div class=\"chunk\"><table class=\"trades\"><colgroup><col class=\"c7\"><col class=\"c4\"><col class=\"c6\"><col class=\"c6\"><col class=\"c5\"><col class=\"c5\"><col class=\"c8\"><col><col class=\"c8\"><col><col class=\"c4\"></colgroup><thead><tr><th>Time<th>Event<th>Price<th>Shares<th>Bid<th>Offer<th>Buyer<th>ClOrdID<th>Seller<th>ClOrdID<th>Taker</thead><tbody>",
            end: b"</tbody></table></div>",
        },
        Part::Orders => Tags {
            begin: b"<div class=\"chunk\">",
            end: b"</div>",
        },
        Part::Refusals => Tags {
            begin: b"<div class=\"chunk\"><table class=\"refused\"><colgroup><col class=\"c7\"><col class=\"c4\"><col class=\"c8\"><col><col class=\"c8\"><col class=\"c20\"></colgroup><thead><tr><th>Time<th>Event<th>Member<th>ClOrdID<th>Request<th>Why</thead><tbody>",
            end: b"</tbody></table></div>",
        },
    }
}

/// Adds a row of it.
pub fn add_row(chunks: &mut Chunks, part: Part, row: &[u8]) -> Result<(), NoMemory>
    ensures { OnOk result (Adds (box part) (row.now ∷ []) chunks.old chunks.new) }
{
    chunks.add(tags(part), row)?;
    Ok(())
}
