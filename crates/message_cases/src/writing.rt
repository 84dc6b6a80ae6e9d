//! Frames and moments as they are written.
use case_text::{Told, Words};
use fix_fields::moment;
use fix_write::{Head, frame, push_moment, wrap};
use venue_words::NoMemory;

/// Tells the frame of a head and a body: `frame kind=BYTE from=NAME to=NAME number=NUMBER at=MOMENT [first=MOMENT] [body=FIELDS]`.
fn tell_frame(input: &[u8], told: &mut Told) -> Result<(), NoMemory> {
    let words = Words::new(told.alloc, input)?;
    let head = Head {
        kind: words.byte(b"kind"),
        sender: words.value(b"from").unwrap_or(&[]),
        target: words.value(b"to").unwrap_or(&[]),
        number: u64::from(words.number(b"number").unwrap_or(0)),
        moment: words.moment(b"at").unwrap_or(0),
        first_sent: words.moment(b"first"),
    };
    let sent = frame(told.alloc, &head, words.value(b"body").unwrap_or(&[]))?;
    told.line(sent.as_slice());
    Ok(())
}

/// Tells how a number of milliseconds is written, and what that is read as.
fn tell_written(input: &[u8], told: &mut Told) -> Result<(), NoMemory> {
    let text = String::from_utf8_lossy(told.alloc, input)?;
    let Ok(milliseconds) = text.parse::<i64>() else {
        told.word("no number");
        return Ok(());
    };
    let mut written = Vec::new(told.alloc);
    push_moment(&mut written, milliseconds)?;
    told.push(" = ");
    told.bytes(written.as_slice());
    told.maybe(&moment(written.as_slice()));
    Ok(())
}

/// `frame` and `wrap` tell what is sent, and `written` how a moment is written and read again.
pub fn play(word: &str, input: &[u8], told: &mut Told) -> Result<bool, NoMemory> {
    match word {
        "frame" => tell_frame(input, told)?,
        "wrap" => {
            let sent = wrap(told.alloc, input)?;
            told.line(sent.as_slice());
        }
        "written" => tell_written(input, told)?,
        _ => return Ok(false),
    }
    Ok(true)
}
