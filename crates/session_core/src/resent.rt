//! The frames of messages that are sent again.
ghost use Rattle.std.specs.Prelude.{◌≡◌, ◌++◌, IfOk, OnOk, None};
ghost use Rattle.session_core.specs.Resent.{old_frame, gap_frame, gap_before, frames_at, run_behind, frames_from, part_of, frames_of_span};

use crate::bodies::gap_body;
use crate::plan::Span;
use crate::sent::{SentMessages, Stored};
use fix_write::{Head, MessageType, frame};
use std::alloc::Global;
use venue_words::limits::VENUE;
use venue_words::{Bytes, NoMemory};

/// An application message again, with its own number and the moment at which it was first sent.
#[tactic(auto, unfolding(crate::specs::Resent::old_frame))]
fn old_frame(
    alloc: Global,
    member: &[u8],
    moment: i64,
    number: u64,
    kept: &Stored<'_>,
) -> Result<Bytes, NoMemory>
    ensures { IfOk result (λ f. f ≡ old_frame member.now moment number kept.now) }
{
    let head = Head {
        kind: kept.kind.byte(),
        sender: VENUE,
        target: member,
        number,
        moment,
        first_sent: Some(kept.moment),
    };
    Ok(Bytes(frame(alloc, &head, kept.body)?))
}

/// The SequenceReset that stands for a run of messages of the session, up to before a number.
#[tactic(auto, unfolding(crate::specs::Resent::gap_frame))]
fn gap_frame(
    alloc: Global,
    member: &[u8],
    moment: i64,
    first: u64,
    next: u64,
) -> Result<Bytes, NoMemory>
    ensures { IfOk result (λ f. f ≡ gap_frame member.now moment first next) }
{
    let body = gap_body(alloc, next)?;
    let head = Head {
        kind: MessageType::SequenceReset.byte(),
        sender: VENUE,
        target: member,
        number: first,
        moment,
        first_sent: Some(moment),
    };
    Ok(Bytes(frame(alloc, &head, body.as_slice())?))
}

/// Adds the run that ends before a number, where one has begun.
fn push_gap(
    frames: &mut Vec<Bytes>,
    member: &[u8],
    moment: i64,
    run: Option<u64>,
    next: u64,
) -> Result<(), NoMemory>
    ensures { OnOk result (frames.new.items ≡ frames.old.items ++ gap_before member.now moment run next) }
{
    if let Some(first) = run {
        let alloc = *frames.allocator();
        frames.push(gap_frame(alloc, member, moment, first, next)?)?;
    }
    Ok(())
}

/// Adds what is sent at a number, and gives the first number of the run that is open behind it.
fn push_entry(
    frames: &mut Vec<Bytes>,
    member: &[u8],
    moment: i64,
    run: Option<u64>,
    number: u64,
    entry: Option<Stored<'_>>,
) -> Result<Option<u64>, NoMemory>
    ensures frames { OnOk result (frames.new.items
        ≡ frames.old.items ++ frames_at member.now moment run number entry.entry) }
    ensures run { IfOk result (λ r. r ≡ run_behind run number entry.entry) }
{
    match entry {
        None => Ok(Some(run.unwrap_or(number))),
        Some(kept) => {
            push_gap(frames, member, moment, run, number)?;
            let alloc = *frames.allocator();
            frames.push(old_frame(alloc, member, moment, number, &kept)?)?;
            Ok(None)
        }
    }
}

/// What is sent again of what was sent, from the first number to the last.
#[tactic(auto, unfolding(crate::specs::Resent::frames_from))]
fn old_frames(
    alloc: Global,
    member: &[u8],
    moment: i64,
    sent: &SentMessages,
    span: Span,
) -> Result<Vec<Bytes>, NoMemory>
    ensures { IfOk result (λ frames. frames.items
        ≡ frames_from member.now moment None span.first (part_of sent.now span)) }
{
    let begin = span.first.saturating_sub(1);
    let end = span.last.min(sent.len() as u64);
    let mut frames = Vec::new(alloc);
    let mut run = None;
    let mut number = span.first;
    for index in begin..end {
        let entry = sent.get(index as usize);
        run = push_entry(&mut frames, member, moment, run, number, entry)?;
        number += 1;
    }
    push_gap(&mut frames, member, moment, run, number)?;
    Ok(frames)
}

/// The frames that are sent again, where something is.
#[tactic(auto, using(crate::proofs::SentAgain::frames_of_resent))]
pub fn frames_of_span(
    alloc: Global,
    member: &[u8],
    moment: i64,
    sent: &SentMessages,
    span: Option<Span>,
) -> Result<Vec<Bytes>, NoMemory>
    ensures { IfOk result (λ frames. frames.items ≡ frames_of_span member.now moment sent.now span) }
{
    match span {
        None => Ok(Vec::new(alloc)),
        Some(span) => old_frames(alloc, member, moment, sent, span),
    }
}
