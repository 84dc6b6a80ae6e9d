//! Lines of output.
ghost use Rattle.std.specs.Prelude.{◌≡◌, ◌++◌, OnOk};
ghost use Rattle.member_gate.specs.Answering.{name_at};
ghost use Rattle.line_work.specs.Output.{frame_line, frame_lines};

use script_text::push_escaped_text;
use venue_words::{Bytes, NoMemory};

/// Appends a frame to a member: his name, a space and the frame's text. A refusal leaves a part of it.
#[tactic(auto, unfolding(crate::specs::Output::frame_line))]
fn push_frame(out: &mut Vec<u8>, name: &[u8], frame: &[u8]) -> Result<(), NoMemory>
    ensures { OnOk result (out.new.items ≡ out.old.items ++ frame_line name.now frame.now) }
{
    out.extend_from_slice(name)?;
    out.push(b' ')?;
    push_escaped_text(out, frame)?;
    out.push(b'\n')?;
    Ok(())
}

/// Appends frames to a member, one in a line. A refusal leaves a part of them.
#[tactic(auto, unfolding(crate::specs::Output::frame_lines))]
pub fn push_frames(out: &mut Vec<u8>, name: &[u8], frames: &[Bytes]) -> Result<(), NoMemory>
    ensures { OnOk result (out.new.items ≡ out.old.items ++ frame_lines name.now frames.now) }
{
    for frame in frames {
        push_frame(out, name, frame.as_slice())?;
    }
    Ok(())
}

/// A member's name, or nothing behind the last.
pub fn name_at(names: &[Bytes], number: usize) -> &[u8]
    ensures { result.now ≡ name_at names.now number }
{
    match names.get(number) {
        Some(name) => name.as_slice(),
        None => &[],
    }
}
