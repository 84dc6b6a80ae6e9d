//! The verdict at the top of the page.
use crate::difference::push_difference;
use crate::page::Head;
use crate::rows::Gathered;
use audit_core::Verdict;
use audit_html::numbers::push_count;
use audit_html::texts::{push, push_html};
use std::alloc::Global;
use venue_words::{Bytes, NoMemory};

/// Appends a number with the word for one or for many.
fn push_many(alloc: Global, out: &mut Vec<u8>, number: u64, one: &[u8]) -> Result<(), NoMemory> {
    push_count(alloc, out, number)?;
    push(out, b" ")?;
    push(out, one)?;
    push(out, if number == 1 { b"" } else { b"s" })
}

/// How many events there are in all.
fn events_of(symbols: &[Gathered]) -> u64 {
    let mut all = 0u64;
    for symbol in symbols {
        all = all.saturating_add(symbol.facts.events);
    }
    all
}

/// Where the events of a listing come from.
#[derive(Clone, Copy)]
pub enum Source<'a> {
    /// No feeds were named.
    Unknown,
    /// They are what so many feeds ask.
    Feeds(usize),
    /// They are not what the feeds ask; the lines say where.
    Departs(&'a [u8]),
}

/// Appends where the events are not what the feeds ask, a line for each place.
fn push_departures(alloc: Global, out: &mut Vec<u8>, lines: &[u8]) -> Result<(), NoMemory> {
    push(
        out,
        b"<p><b>The events are not what the feeds ask.</b> All that is told below is of the listing&rsquo;s events.</p>",
    )?;
    for line in lines.split(|byte| *byte == b'\n') {
        if !line.is_empty() {
            let plain = plain_of(alloc, line)?;
            push(out, b"<pre>")?;
            push_html(out, &plain)?;
            push(out, b"</pre>")?;
        }
    }
    Ok(())
}

/// Appends where the events come from.
fn push_source(alloc: Global, out: &mut Vec<u8>, source: Source<'_>) -> Result<(), NoMemory> {
    match source {
        Source::Unknown => push(
            out,
            b"<p class=\"soft\">Where the events come from is the venue&rsquo;s word: no feeds were named.</p>",
        ),
        Source::Feeds(count) => {
            push(out, b"<p>The events are what ")?;
            push_many(alloc, out, count as u64, b"feed")?;
            push(
                out,
                b" asked for: each command once, in its feed&rsquo;s order, and nothing else.</p>",
            )
        }
        Source::Departs(lines) => push_departures(alloc, out, lines),
    }
}

/// How the verdict looks where no line differs.
fn opening_of(source: Source<'_>) -> &'static [u8] {
    match source {
        Source::Departs(_) => b"<section id=\"verdict\" class=\"verdict bad\">",
        Source::Unknown | Source::Feeds(_) => b"<section id=\"verdict\" class=\"verdict\">",
    }
}

/// Appends that no line differs.
fn push_same(
    alloc: Global,
    out: &mut Vec<u8>,
    head: &Head<'_>,
    symbols: &[Gathered],
) -> Result<(), NoMemory> {
    push(out, opening_of(head.source))?;
    push(
        out,
        b"<b>Same: no line differs</b><p>Each of the listing&rsquo;s ",
    )?;
    push_count(alloc, out, head.lines)?;
    push(
        out,
        b" lines is the one that the market&rsquo;s rules ask for. All that is told below was computed anew from its ",
    )?;
    push_many(alloc, out, events_of(symbols), b"event")?;
    push(out, b".</p>")?;
    push_source(alloc, out, head.source)?;
    push(out, b"</section>\n")
}

/// The number of bytes at the beginning of two texts that are the same.
fn same_front(one: &[u8], other: &[u8]) -> usize {
    let most = one.len().min(other.len());
    for place in 0..most {
        if one[place] != other[place] {
            return place;
        }
    }
    most
}

/// The byte before so many at a text's end.
fn last_but(text: &[u8], count: usize) -> u8 {
    let place = text.len().saturating_sub(count).saturating_sub(1);
    text.get(place).copied().unwrap_or(0)
}

/// The number of bytes at the end of two texts that are the same, after this many at the beginning.
fn same_end(one: &[u8], other: &[u8], front: usize) -> usize {
    let most = one.len().min(other.len()).saturating_sub(front);
    for count in 0..most {
        if last_but(one, count) != last_but(other, count) {
            return count;
        }
    }
    most
}

/// Appends a line, with what differs from another marked.
fn push_marked(out: &mut Vec<u8>, line: &[u8], other: &[u8]) -> Result<(), NoMemory> {
    let front = same_front(line, other);
    let end = line.len().saturating_sub(same_end(line, other, front));
    push(out, b"<pre>")?;
    push_html(out, line.get(..front).unwrap_or(b""))?;
    push(out, b"<mark>")?;
    push_html(out, line.get(front..end).unwrap_or(b""))?;
    push(out, b"</mark>")?;
    push_html(out, line.get(end..).unwrap_or(b""))?;
    push(out, b"</pre>")
}

/// A line of a file: a byte that no listing has is shown as a question mark.
fn plain_of(alloc: Global, text: &[u8]) -> Result<Vec<u8>, NoMemory> {
    let mut plain = Vec::new(alloc);
    for byte in text {
        let is_plain = *byte >= b' ' && *byte <= b'~';
        plain.push(if is_plain { *byte } else { b'?' })?;
    }
    Ok(plain)
}

/// Appends which line differs, and how.
fn push_differs(
    alloc: Global,
    out: &mut Vec<u8>,
    head: &Head<'_>,
    line: u32,
    expected: Option<&Bytes>,
) -> Result<(), NoMemory> {
    push(
        out,
        b"<section id=\"verdict\" class=\"verdict bad\"><b>Line ",
    )?;
    push_count(alloc, out, u64::from(line))?;
    push(out, b" differs</b>")?;
    let wanted: &[u8] = expected.map_or(b"", |text| text.as_slice());
    let found = plain_of(alloc, head.found.unwrap_or(b""))?;
    push_difference(out, &found, wanted)?;
    match head.found {
        Some(_) => {
            push(out, b"<p class=\"soft\">The listing has</p>")?;
            push_marked(out, &found, wanted)?;
        }
        None => push(
            out,
            b"<p>The listing ends there, or its line could not be shown.</p>",
        )?,
    }
    match expected {
        Some(text) => {
            push(out, b"<p class=\"soft\">The rules ask for</p>")?;
            push_marked(out, text.as_slice(), &found)?;
        }
        None => push(
            out,
            b"<p>Which line should stand there isn&rsquo;t known: one of a symbol or of an event, as far as the counts of the symbol&rsquo;s line allow, or none, where the listing is at its end.</p>",
        )?,
    }
    push(out, b"<p>All that is told below is of the ")?;
    push_many(alloc, out, head.lines, b"line")?;
    push(
        out,
        b" before it. Of what follows nothing is known. What was changed may stand before the line that differs.</p></section>\n",
    )
}

/// Appends the verdict.
pub(crate) fn push_verdict(
    alloc: Global,
    out: &mut Vec<u8>,
    head: &Head<'_>,
    verdict: &Verdict,
    symbols: &[Gathered],
) -> Result<(), NoMemory> {
    match verdict {
        Verdict::Same => push_same(alloc, out, head, symbols),
        Verdict::Differs { line, expected } => {
            push_differs(alloc, out, head, *line, expected.as_ref())
        }
    }
}
