//! Lines as listings write them, and texts that differ from them by little.
use case_text::Told;
use listing_reader::{has_word_names, read_event, read_symbol};
use script_text::read_header;
use venue_words::{Command, Config, Event, NoMemory};

/// Members A and B.C, markets N and P, and symbol X.
const CONFIG: &[u8] =
    b"PEGV 1\nMEMBER A\nMEMBER B.C\nMARKET N\nMARKET P\nSYMBOL X 1000\nBEGIN 20240102-14:30:00.000\n";

/// Tells the event of a line.
fn tell_event(event: &Event, told: &mut Told) {
    told.word("event ");
    told.show(&event.number);
    told.push(" of feed ");
    told.show(&event.feed);
    told.push(" at ");
    told.show(&event.moment);
    if let Command::Status { member, id, side } = &event.command {
        told.push(": status for member ");
        told.show(member);
        told.push(", ");
        told.bytes(&[*side]);
        told.push(" ");
        told.bytes(id.as_slice());
    }
}

/// `event` tells the event that a line of symbol X is, and `counts` the counts of its line.
pub fn play(word: &str, input: &[u8], told: &mut Told) -> Result<bool, NoMemory> {
    if word != "event" && word != "counts" {
        return Ok(false);
    }
    let Ok((config, _)) = read_header(told.alloc, CONFIG) else {
        return Err(NoMemory);
    };
    if !has_word_names(&config) {
        return Err(NoMemory);
    }
    if word == "event" {
        match read_event(told.alloc, input, &config, 0)? {
            Some(event) => tell_event(&event, told),
            None => told.word("none"),
        }
    } else {
        match read_symbol(told.alloc, input, &config, 0)? {
            Some(counts) => told.code(&counts),
            None => told.word("none"),
        }
    }
    Ok(true)
}
