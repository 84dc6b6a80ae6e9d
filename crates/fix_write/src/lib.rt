//! Writes FIX frames: their fields, their head, and what stands round them.
#![tactic(auto)]

pub mod digits;
pub mod fields;
pub mod framing;
pub mod message_type;
pub mod moments;
pub mod tags;

pub use fields::{push_byte_field, push_field, push_moment_field, push_number_field};
pub use framing::{Head, checksum, frame, wrap};
pub use message_type::MessageType;
pub use moments::push_moment;
