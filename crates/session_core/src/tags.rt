//! The tags of the fields that the session reads and writes, under their FIX names.
pub use fix_write::tags::{
    MSG_SEQ_NUM, MSG_TYPE, POSS_DUP_FLAG, SENDER_COMP_ID, SENDING_TIME, TARGET_COMP_ID,
};

/// The first number that is asked for again.
pub const BEGIN_SEQ_NO: u32 = 7;

/// The last number that is asked for again, or 0 for all.
pub const END_SEQ_NO: u32 = 16;

/// The number that the next message is to have.
pub const NEW_SEQ_NO: u32 = 36;

/// The number of the message that is rejected.
pub const REF_SEQ_NUM: u32 = 45;

/// Why a connection ends.
pub const TEXT: u32 = 58;

/// Always 0, which is no encryption.
pub const ENCRYPT_METHOD: u32 = 98;

/// The heartbeat interval in seconds.
pub const HEART_BT_INT: u32 = 108;

/// What the Heartbeat that answers a TestRequest gives back.
pub const TEST_REQ_ID: u32 = 112;

/// Whether a SequenceReset stands for messages of the session.
pub const GAP_FILL_FLAG: u32 = 123;

/// Whether a Logon has both sides begin again at number 1.
pub const RESET_SEQ_NUM_FLAG: u32 = 141;

/// The tag for which a message is rejected.
pub const REF_TAG_ID: u32 = 371;

/// The type of the message that is rejected.
pub const REF_MSG_TYPE: u32 = 372;

/// The code of the reason of a Reject.
pub const SESSION_REJECT_REASON: u32 = 373;

/// Always 9, which is FIX 5.0 SP2.
pub const DEFAULT_APPL_VER_ID: u32 = 1137;
