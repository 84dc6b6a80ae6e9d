//! Frames of contents.
use super::Texts;
use fix_write::wrap;
use std::alloc::{AllocError, Global};
use venue_words::{Bytes, NoMemory};

/// The bytes of a text in which `|` stands for the end of a field.
pub fn bytes_of(alloc: Global, text: &[u8]) -> Result<Vec<u8>, AllocError> {
    let mut bytes = Vec::new(alloc);
    for byte in text {
        bytes.push(if *byte == b'|' { 1 } else { *byte })?;
    }
    Ok(bytes)
}

/// The frame of a content.
fn frame_of(alloc: Global, text: &[u8]) -> Result<Vec<u8>, NoMemory> {
    let content = bytes_of(alloc, text)?;
    let frame = wrap(alloc, &content);
    drop(content);
    frame
}

/// Appends the frame of a content.
fn push_frame(alloc: Global, bytes: &mut Vec<u8>, text: &[u8]) -> Result<(), NoMemory> {
    let frame = frame_of(alloc, text)?;
    let pushed = bytes.extend_from_slice(&frame);
    drop(frame);
    Ok(pushed?)
}

/// The frames of these contents, joined.
pub fn frames_of(alloc: Global, texts: Texts) -> Result<Vec<u8>, NoMemory> {
    let mut bytes = Vec::new(alloc);
    for text in texts {
        push_frame(alloc, &mut bytes, text)?;
    }
    Ok(bytes)
}

/// Whether a frame has this content.
fn has_content(alloc: Global, frame: &Bytes, text: &[u8]) -> Result<bool, NoMemory> {
    let wanted = frame_of(alloc, text)?;
    let is_same = frame.as_slice() == wanted.as_slice();
    drop(wanted);
    Ok(is_same)
}

/// Whether the frames have these contents.
pub fn have_contents(alloc: Global, frames: &[Bytes], expected: Texts) -> Result<bool, NoMemory> {
    if frames.len() != expected.len() {
        return Ok(false);
    }
    for (frame, text) in frames.iter().zip(expected) {
        if !has_content(alloc, frame, text)? {
            return Ok(false);
        }
    }
    Ok(true)
}
