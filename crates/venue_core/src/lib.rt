//! A venue: one book for each symbol, for one thread or, over gates, for many.
#![tactic(auto)]

mod books;
mod calls;
mod plain_venue;
mod seated;
mod seats;
mod venue;

pub use books::{make, plain};
pub use plain_venue::PlainVenue;
pub use seated::Seated;
pub use seats::Seats;
pub use venue::Venue;
