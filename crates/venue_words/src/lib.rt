//! The words that every crate of the venue speaks: orders, quotes, reports and journals, the meaning
//! of a price and of priority, and the two interfaces through which commands reach a book.
#![tactic(auto)]

pub mod bytes;
pub mod command;
pub mod config;
pub mod floor;
pub mod held;
pub mod id;
pub mod items;
pub mod limits;
pub mod price;
pub mod refusal;
pub mod report;
pub mod row;
pub mod rule;
pub mod steps;
pub mod terms;

pub use bytes::Bytes;
pub use command::{Command, Event};
pub use config::Config;
pub use floor::Floor;
pub use held::Held;
pub use id::{BoxedId, Id, SHORT_ID_BYTES};
pub use items::Items;
pub use price::{Best, PRICE_END, Side, price_of, value};
pub use refusal::{FloorRefusal, NoMemory};
pub use report::{
    Execution, Kind, LiveOrder, Look, NamedOrder, OrderStatus, RefusedRequest, Report, View,
};
pub use row::{Key, Method, Priced, Reference, Rounding, Row, same_key};
pub use rule::{RULES, Rule};
pub use steps::Steps;
pub use terms::{BoxedTerms, Terms};
