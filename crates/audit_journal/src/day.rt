//! The lines of a day, and the texts that they make.
ghost use Rattle.std.specs.Prelude.{◌≡◌, ◌≤◌, length, IfOk};
ghost use Rattle.audit_journal.specs.Days.{ends_header, head_count, head_of, body_of, text_of};

use std::alloc::{AllocError, Global};
use venue_words::Bytes;

/// Whether a line ends the header: `BEGIN` with the day's first moment.
fn ends_header(line: &[u8]) -> bool
    ensures { result ≡ ends_header line.now }
{
    line.starts_with(b"BEGIN ")
}

/// How many lines the header has: up to the first that ends it.
fn head_count(lines: &[Bytes]) -> usize
    ensures count { result ≡ head_count lines.now }
    ensures within { result ≤ length lines.now }
{
    let mut count = 0;
    let mut rest = lines;
    while let Some((line, more)) = rest.split_first() {
        count += 1;
        if ends_header(line.as_slice()) {
            return count;
        }
        rest = more;
    }
    count
}

/// The lines of the header: a config.
pub fn head_of(lines: &[Bytes]) -> &[Bytes]
    ensures { result.now ≡ head_of lines.now }
{
    &lines[..head_count(lines)]
}

/// The lines after the header: what came in, as a feed has it.
pub fn body_of(lines: &[Bytes]) -> &[Bytes]
    ensures { result.now ≡ body_of lines.now }
{
    &lines[head_count(lines)..]
}

/// Lines as a text, each with an LF.
pub fn text_of(alloc: Global, lines: &[Bytes]) -> Result<Vec<u8>, AllocError>
    ensures { IfOk result (λ text. text.items ≡ text_of lines.now) }
{
    let mut text = Vec::new(alloc);
    for line in lines {
        text.extend_from_slice(line.as_slice())?;
        text.push(b'\n')?;
    }
    Ok(text)
}
