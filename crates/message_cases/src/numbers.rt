//! Numbers, amounts, moments and fields, each read from its bytes.
use case_text::Told;
use fix_fields::{amount, fields, moment, number};
use venue_words::limits::MAX_FRAME_BYTES;

/// Tells the fields of bytes, or why they are none.
fn tell_fields(bytes: &[u8], told: &mut Told) {
    if bytes.len() > MAX_FRAME_BYTES {
        return told.word("too many bytes");
    }
    match fields(told.alloc, bytes) {
        Ok(found) => {
            told.push(" =");
            for field in &found {
                told.push(" ");
                told.show(&field.tag);
                told.push("=");
                told.bytes(field.bytes);
            }
        }
        Err(fault) => told.code(&fault),
    }
}

/// `number`, `amount` and `moment` tell what a text is, and `fields` how it is split.
pub fn play(word: &str, input: &[u8], told: &mut Told) -> bool {
    match word {
        "number" => told.maybe(&number(input)),
        "amount" => told.maybe(&amount(input)),
        "moment" => told.maybe(&moment(input)),
        "fields" => tell_fields(input, told),
        _ => return false,
    }
    true
}
