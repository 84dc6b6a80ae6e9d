//! A config: a header that nothing follows.
ghost use Rattle.std.specs.Prelude.{◌≡◌, ◌<◌, ◌≤◌, ◌+◌, ◌^◌, ◌-◌, IfOk, length, nat_lt, if◌then◌else◌};
ghost use Rattle.script_text.specs.declared.fault.LineFault.TheVariants.{Bad, Limit};
ghost use Rattle.script_text.specs.declared.fault.LimitCause.TheVariants.{Line};
ghost use Rattle.venue_words.specs.Conditions.{IsConfig};
ghost use Rattle.script_text.specs.Meets.{Meets};
ghost use Rattle.script_text.specs.Config.{unended, behind_text, config_of};

use crate::fault::{LimitCause, LineCause, LineFault};
use crate::header::Header;
use crate::lines::cut_line;
use std::alloc::Global;
use venue_words::Config;
use venue_words::limits::MAX_LINE_BYTES;

/// A line that is too long, or else one with this cause.
fn bad_line(line: u32, text: &[u8], cause: LineCause) -> LineFault
    ensures { result ≡ (if nat_lt MAX_LINE_BYTES (length text.now) then Limit line Line else Bad line cause) }
{
    if text.len() > MAX_LINE_BYTES {
        LineFault::Limit {
            line,
            which: LimitCause::Line,
        }
    } else {
        LineFault::Bad { line, cause }
    }
}

/// A whole header, unless something stands behind it.
#[tactic(auto, using(crate::proofs::Configs::behind_first, crate::proofs::Configs::behind_rest))]
fn whole(config: Config, lines: u32, text: &[u8]) -> Result<(Config, u32), LineFault>
    requires { lines < 2 ^ 32 - 1 }
    ensures read { result ≡ behind_text lines config text.now }
    ensures same { IfOk result (λ read. read.0 ≡ config) }
{
    match cut_line(text) {
        Some((part, _)) => Err(bad_line(lines + 1, part, LineCause::BadHeader)),
        None => {
            if text.is_empty() {
                Ok((config, lines))
            } else {
                Err(bad_line(lines + 1, text, LineCause::NoEnd))
            }
        }
    }
}

/// The config that a text says, which is a header alone, and the number of its lines. Else the first line that is
/// refused, and why. The limit on the bytes of a whole text is judged by the caller.
pub fn read_header(alloc: Global, text: &[u8]) -> Result<(Config, u32), LineFault>
    requires { length text.now < 2 ^ 31 }
    ensures read { Meets (config_of text.now) result }
    ensures config { IfOk result (λ read. IsConfig read.0) }
{
    let mut header = Header::new(alloc);
    let mut lines = 0u32;
    let mut rest = text;
    while let Some((part, behind)) = cut_line(rest) {
        lines += 1;
        match header.line(alloc, lines, part) {
            Ok(true) => return whole(header.config, lines, behind),
            Ok(false) => rest = behind,
            Err(fault) => return Err(fault),
        }
    }
    Err(bad_line(lines + 1, rest, LineCause::NoEnd))
}
