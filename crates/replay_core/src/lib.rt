//! The whole of a replay: a script from a shelf, its transcript to a sink, and a status with its text.
#![tactic(auto)]

mod asked;
pub mod flushing;
pub mod lines;
pub mod loading;
pub mod news;
pub mod phase;
pub mod plain_floor;
pub mod plan;
pub mod player;
pub mod pulling;
pub mod replay;
pub mod replayer;
pub mod replaying;
pub mod status;
pub mod summary;
pub mod telling;
pub mod venue;
pub mod working;

pub use plain_floor::PlainFloor;
pub use player::Player;
pub use replayer::Replayer;
pub use status::Status;
