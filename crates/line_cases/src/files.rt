//! The lines of a file in memory that is read in pieces.
ghost use Rattle.std.specs.Prelude.{◌<◌, ◌^◌};

use case_text::Told;
use fix_fields::number;
use io_edge::{MemShelf, Shelf};
use line_reader::{LineReader, NextLine};
use script_text::words::cut_word;
use std::alloc::{AllocError, Global};
use venue_words::NoMemory;

/// The most bytes of a file.
pub const MAX_BYTES: u32 = 1_000_000;

/// The most bytes of a file that is also read in small pieces.
const MAX_IN_SMALL_PIECES: usize = 20_000;

/// A shelf with one file named `f`, which gives pieces of so many bytes. The call of this number fails, if it is not 0.
pub fn shelf(alloc: Global, text: &[u8], piece: usize, fails: u32) -> Result<MemShelf, AllocError>
    requires { 0 < piece }
{
    let mut files = Vec::new(alloc);
    files.push((String::from_str(alloc, "f")?, Vec::from_slice(alloc, text)?))?;
    let mut calls = Vec::new(alloc);
    if fails > 0 {
        calls.push(u64::from(fails))?;
    }
    Ok(MemShelf::new(files, piece, calls))
}

/// What comes of a file up to its end, a line that is over or too long, or three failed reads: each line with a mark behind
/// it, and how many lines there were.
fn read_all<H: Shelf>(alloc: Global, file: &mut H, most: u64) -> Result<(Vec<u8>, u32), AllocError>
    requires { most < 2 ^ 31 }
{
    let mut out = Vec::new(alloc);
    let Ok(mut reader) = LineReader::new(alloc, 0, most) else {
        return Ok((out, 0));
    };
    if file.begin("f").is_err() {
        return Ok((out, 0));
    }
    let mut faults = 0u8;
    for _ in 0..4000 {
        match reader.next(file) {
            NextLine::Line { text, is_over } => {
                out.extend_from_slice(text)?;
                if is_over {
                    out.push(b'!')?;
                    return Ok((out, reader.lines()));
                }
                out.push(b';')?;
            }
            NextLine::End { rest } => {
                out.extend_from_slice(rest)?;
                out.push(b'.')?;
                return Ok((out, reader.lines()));
            }
            NextLine::TooLong => {
                out.push(b'>')?;
                return Ok((out, reader.lines()));
            }
            NextLine::ReadFault => {
                out.push(b'?')?;
                faults = faults.saturating_add(1);
                if faults == 3 {
                    return Ok((out, reader.lines()));
                }
            }
        }
    }
    Ok((out, reader.lines()))
}

/// What comes of a file that is read without a fault to its end: its bytes, each LF as a mark.
fn marked(alloc: Global, text: &[u8]) -> Result<Vec<u8>, AllocError> {
    let mut out = Vec::new(alloc);
    for byte in text {
        out.push(if *byte == b'\n' { b';' } else { *byte })?;
    }
    out.push(b'.')?;
    Ok(out)
}

/// Tells what comes of a file of which at most so many bytes are read, where it is the same in pieces of each size.
fn tell_lines(most: u64, text: &[u8], told: &mut Told) -> Result<(), NoMemory>
    requires { most < 2 ^ 31 }
{
    let mut whole = shelf(told.alloc, text, 100_000, 0)?;
    let (out, lines) = read_all(told.alloc, &mut whole, most)?;
    for piece in [1usize, 3, 7, 1000, 65_536] {
        if piece < 1000 && text.len() > MAX_IN_SMALL_PIECES {
            continue;
        }
        let mut file = shelf(told.alloc, text, piece, 0)?;
        let (other, others) = read_all(told.alloc, &mut file, most)?;
        if other.as_slice() != out.as_slice() || others != lines {
            told.word("other lines in pieces");
            return Ok(());
        }
    }
    if out.len() < 100 {
        told.push(" = ");
        told.bytes(out.as_slice());
    } else {
        told.value(&out.len());
        let is_whole = out.as_slice() == marked(told.alloc, text)?.as_slice();
        told.push(if is_whole {
            " bytes as they stand"
        } else {
            " other bytes"
        });
    }
    told.push(" of ");
    told.show(&lines);
    told.push(" lines");
    Ok(())
}

/// Tells what comes of a file in pieces of two bytes where a call fails, and how often that is told.
fn tell_failed(call: u32, text: &[u8], told: &mut Told) -> Result<(), NoMemory> {
    let mut file = shelf(told.alloc, text, 2, call)?;
    let (out, _) = read_all(told.alloc, &mut file, 100)?;
    let mut kept = Vec::new(told.alloc);
    for byte in out.as_slice() {
        if *byte != b'?' {
            kept.push(*byte)?;
        }
    }
    told.push(" = ");
    told.bytes(kept.as_slice());
    told.push(" and ");
    told.show(&out.len().saturating_sub(kept.len()));
    told.push(" failed reads");
    Ok(())
}

/// `lines MOST TEXT` tells the lines of a file and how it ends, and `failed_lines CALL TEXT` the same where a call fails.
pub fn play(word: &str, input: &[u8], told: &mut Told) -> Result<bool, NoMemory> {
    if word != "lines" && word != "failed_lines" {
        return Ok(false);
    }
    let (front, text) = cut_word(input).unwrap_or((input, &[]));
    let front = number(front).unwrap_or(0);
    if word == "lines" {
        tell_lines(u64::from(front.min(MAX_BYTES)), text, told)?;
    } else {
        tell_failed(front, text, told)?;
    }
    Ok(true)
}
