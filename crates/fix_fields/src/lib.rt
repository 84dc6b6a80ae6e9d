//! Reads the fields of a message and the values that stand in them, and has the frame whose content they are.
#![tactic(auto)]

pub mod field;
pub mod forms;
pub mod frame;
pub mod moments;
pub mod splitting;

pub use field::{Field, FieldFault};
pub use forms::{amount, number};
pub use frame::{BEGIN_STRING_SIZE, Frame};
pub use moments::{FIRST_MOMENT, LAST_MOMENT, moment};
pub use splitting::fields;
