//! What the market's rules mean, over plain lists: the definitions in `specs/` that the contracts of every
//! crate above cite; and what the rules ask of a command: its terms as an order's row, and the first rule that it breaks. The plain
//! and slow program of these definitions is `plain_market`.
#![tactic(auto)]

mod amount;
mod known;
mod notice;
mod order;
mod rules;
mod showing;
mod terms;
mod trade;

pub use known::Known;
pub use notice::Notice;
pub use order::{Live, Order};
pub use rules::verdict;
pub use showing::live_at;
pub use terms::{is_immediate, is_pegged, key_of, limit_of, quantity_of, row_of, side_of};
pub use trade::{Fill, Party, Take};
