//! The tags of the fields round a message's body.

/// BeginString: always `FIXT.1.1`, and always the first field.
pub const BEGIN_STRING: u32 = 8;

/// BodyLength: how many bytes stand between it and CheckSum.
pub const BODY_LENGTH: u32 = 9;

/// CheckSum: the sum of all bytes before it modulo 256, in three digits.
pub const CHECK_SUM: u32 = 10;

/// MsgSeqNum: the number of the message in its session.
pub const MSG_SEQ_NUM: u32 = 34;

/// MsgType.
pub const MSG_TYPE: u32 = 35;

/// PossDupFlag: `Y` on what is sent again.
pub const POSS_DUP_FLAG: u32 = 43;

/// SenderCompID.
pub const SENDER_COMP_ID: u32 = 49;

/// SendingTime.
pub const SENDING_TIME: u32 = 52;

/// TargetCompID.
pub const TARGET_COMP_ID: u32 = 56;

/// OrigSendingTime: when what is sent again was sent first.
pub const ORIG_SENDING_TIME: u32 = 122;
