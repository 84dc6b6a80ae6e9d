//! When two commands are the same.
ghost use Rattle.std.specs.Prelude.{◌≡◌};
ghost use Rattle.audit_feeds.specs.Alike.{is_command, same_command, same_order_terms, same_peg_terms, same_terms};

use venue_words::{Command, Event, Terms};

#[tactic(auto, unfolding(crate::specs::Alike::same_order_terms))]
fn same_order_terms(x: &Terms, y: &Terms) -> bool
    ensures { result ≡ same_order_terms x.now y.now }
{
    x.side == y.side
        && x.quantity == y.quantity
        && x.kind == y.kind
        && x.price == y.price
        && x.force == y.force
        && x.minimum == y.minimum
}

#[tactic(auto, unfolding(crate::specs::Alike::same_peg_terms))]
fn same_peg_terms(x: &Terms, y: &Terms) -> bool
    ensures { result ≡ same_peg_terms x.now y.now }
{
    x.method == y.method
        && x.peg == y.peg
        && x.offset == y.offset
        && x.offset_kind == y.offset_kind
        && x.moves == y.moves
        && x.round == y.round
}

fn same_terms(x: &Terms, y: &Terms) -> bool
    ensures { result ≡ same_terms x.now y.now }
{
    same_order_terms(x, y) && same_peg_terms(x, y)
}

#[tactic(auto, unfolding(crate::specs::Alike::same_command))]
fn same_command(x: &Command, y: &Command) -> bool
    ensures { result ≡ same_command x.now y.now }
{
    match (x, y) {
        (
            Command::Quote { market, bid, offer },
            Command::Quote {
                market: other_market,
                bid: other_bid,
                offer: other_offer,
            },
        ) => market == other_market && bid == other_bid && offer == other_offer,
        (
            Command::New { member, id, terms },
            Command::New {
                member: other,
                id: other_id,
                terms: other_terms,
            },
        ) => member == other
            && id.as_slice() == other_id.as_slice()
            && same_terms(&terms.get(), &other_terms.get()),
        (
            Command::Cancel { member, id, orig },
            Command::Cancel {
                member: other,
                id: other_id,
                orig: other_orig,
            },
        ) => {
            member == other
                && id.as_slice() == other_id.as_slice()
                && orig.get().as_slice() == other_orig.get().as_slice()
        }
        (
            Command::Replace {
                member,
                id,
                orig,
                terms,
            },
            Command::Replace {
                member: other,
                id: other_id,
                orig: other_orig,
                terms: other_terms,
            },
        ) => {
            member == other
                && id.as_slice() == other_id.as_slice()
                && orig.get().as_slice() == other_orig.get().as_slice()
                && same_terms(&terms.get(), &other_terms.get())
        }
        (
            Command::Status { member, id, side },
            Command::Status {
                member: other,
                id: other_id,
                side: other_side,
            },
        ) => member == other && id.as_slice() == other_id.as_slice() && side == other_side,
        _ => false,
    }
}

/// Whether an event is what a feed asks at its moment.
pub fn is_command(event: &Event, asked: &(u32, i64, Command)) -> bool
    ensures { result ≡ is_command event.now (asked.now.1, asked.now.2) }
{
    event.moment == asked.1 && same_command(&event.command, &asked.2)
}
