//! What minimum quantities ask of a trade.
ghost use Rattle.std.specs.Prelude.{◌≡◌, ◌≤◌, ◌<◌, IfSome};
ghost use Rattle.eager_meaning.specs.Floor.{floor};
ghost use Rattle.eager_meaning.specs.Walk.{least_fill, may_fill};

use venue_words::{Method, Row};

/// The floor of an order: the least number of shares that it trades at once. It is the lesser of the minimum
/// quantity and the shares left; 0 with no minimum, or where the minimum had to be met once and the order has traded.
#[tactic(auto, unfolding(eager_meaning::specs::Floor::floor))]
pub fn floor(row: &Row) -> u32
    ensures value { result ≡ floor row.now }
    ensures within { result ≤ row.now.leaves }
{
    if row.method == Method::Once && row.traded {
        0
    } else {
        row.minimum.min(row.leaves)
    }
}

/// The least that a taker takes from one contra: its minimum, or all that it has left, where each trade has to meet it.
fn least_fill(taker: &Row, left: u32) -> u32
    ensures { result ≡ least_fill taker.now left }
{
    match taker.method {
        Method::Once => 0,
        Method::Multiple => taker.minimum.min(left),
    }
}

/// The shares that a taker with `left` shares left takes from a contra that it crosses: the lesser of `left` and the
/// contra's shares. None where that is below the contra's floor, or below what the taker asks of each trade; the
/// contra is then passed over.
#[tactic(auto, unfolding(eager_meaning::specs::Walk::may_fill))]
pub fn may_fill(taker: &Row, contra: &Row, left: u32) -> Option<u32>
    ensures value { result ≡ may_fill taker.now contra.now left }
    ensures left { IfSome result (λ shares. shares ≤ left) }
    ensures there { IfSome result (λ shares. shares ≤ contra.now.leaves) }
    ensures some { 0 < left → 0 < contra.now.leaves → IfSome result (λ shares. 0 < shares) }
{
    let most = left.min(contra.leaves);
    if floor(contra) <= most && least_fill(taker, left) <= most {
        Some(most)
    } else {
        None
    }
}
