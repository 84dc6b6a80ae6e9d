//! Laws of messages: what holds of fields, frames and sessions, in words of their own and not in those of the code. Each law is
//! a statement of `specs/`, proved as the contract of a function that does nothing. Beside them stand two calls for whoever has
//! a whole stream or a whole list of inputs: `read_frames` and `work_all`.
#![tactic(auto)]

mod faults;
mod framers;
mod framing;
mod reading;
mod runs;
mod sessions;

pub use faults::{fault_is_first, first_is_answered};
pub use framers::{any_calls, whole_frames, written_fields, written_frames, written_moments};
pub use framing::{
    content_comes_back, cuts_do_not_matter, fields_come_back, frame_behind_garbage,
    frames_come_through, too_long_behind_garbage, too_long_is_declared,
};
pub use reading::read_frames;
pub use runs::{work, work_all};
pub use sessions::{
    alike_stay, ended_stays, expected_stays_or_rises, handed_out_once, number_stays,
    numbers_are_consecutive, order_is_handed_out, range_is_asked, reject_is_alone,
    sending_is_alike, sent_again_as_first, sent_stays,
};
