//! The numbers of messages, as they stand in bytes that came and in frames that were made.

/// The number after `34=` in a field.
fn number_of(field: &[u8]) -> Option<u32> {
    let digits = field.strip_prefix(b"34=".as_slice())?;
    match std::str::from_utf8(digits) {
        Ok(digits) => digits.parse::<u32>().ok(),
        Err(_) => None,
    }
}

/// MsgSeqNum(34) of the last message in a piece of a member's bytes that shows it whole.
pub(crate) fn last_number(bytes: &[u8]) -> Option<u32> {
    let mut last = None;
    for field in bytes.split(|byte| *byte == 1) {
        if let Some(number) = number_of(field) {
            last = Some(number);
        }
    }
    last
}

/// MsgSeqNum(34) of a frame as a line of a transcript shows it; none of one that is sent again (43=Y), whose number is an old one.
pub(crate) fn new_number(frame: &[u8]) -> Option<u32> {
    let mut number = None;
    for field in frame.split(|byte| *byte == b'|') {
        if field == b"43=Y".as_slice() {
            return None;
        }
        if number.is_none() {
            number = number_of(field);
        }
    }
    number
}
