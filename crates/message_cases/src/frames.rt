//! The frames of a stream, however it is cut.
use case_text::Told;
use fix_frames::Reading;
use message_laws::read_frames;
use std::alloc::Global;
use venue_words::NoMemory;

/// Whether two readings gave the same.
fn are_same(one: &Reading, other: &Reading) -> bool {
    let (frames, others) = (one.frames.as_slice(), other.frames.as_slice());
    one.too_long == other.too_long
        && frames.len() == others.len()
        && frames
            .iter()
            .zip(others.iter())
            .all(|(frame, other)| frame.as_slice() == other.as_slice())
}

/// The most bytes of a stream that is cut at each place.
const MAX_CUT: usize = 1000;

/// Where a longer one is cut.
const CUTS: [usize; 5] = [0, 1, 20, 4096, 8191];

/// Whether a stream gives this reading cut in two, and byte by byte.
fn is_same_in_pieces(alloc: Global, bytes: &[u8], whole: &Reading) -> Result<bool, NoMemory> {
    for cut in 0..bytes.len() {
        if bytes.len() > MAX_CUT && !CUTS.contains(&cut) {
            continue;
        }
        let reading = read_frames(alloc, &[&bytes[..cut], &bytes[cut..]])?;
        if !are_same(&reading, whole) {
            return Ok(false);
        }
    }
    if bytes.len() > MAX_CUT {
        return Ok(true);
    }
    let mut single = Vec::new(alloc);
    for byte in bytes.chunks(1) {
        single.push(byte)?;
    }
    Ok(are_same(&read_frames(alloc, single.as_slice())?, whole))
}

/// Tells the frames of a stream, and whether it ends with one that is too long.
fn tell_stream(bytes: &[u8], told: &mut Told) -> Result<(), NoMemory> {
    let whole = read_frames(told.alloc, &[bytes])?;
    told.lines(whole.frames.as_slice());
    if whole.too_long {
        told.push("\n  too long");
    }
    if !is_same_in_pieces(told.alloc, bytes, &whole)? {
        told.push("\n  other frames in pieces");
    }
    Ok(())
}

/// `stream` tells the frames of a stream.
pub fn play(word: &str, input: &[u8], told: &mut Told) -> Result<bool, NoMemory> {
    if word != "stream" {
        return Ok(false);
    }
    tell_stream(input, told)?;
    Ok(true)
}
