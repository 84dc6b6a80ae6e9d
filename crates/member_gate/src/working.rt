//! What the frames of a stream make of a member's session.
ghost use Rattle.std.specs.Prelude.{◌≡◌, ◌+◌, ◌≤◌, ◌<◌, ◌++◌, ◌∷◌, ◌⊎◌, [], length, IfOk, OnOk, OnErr, IfErr};
ghost use Rattle.venue_words.specs.Conditions.{IsConfig};
ghost use Rattle.venue_words.specs.Floors.{IsSetUpFor};
ghost use Rattle.fix_frames.specs.Reading.{reading_of};
ghost use Rattle.session_core.specs.Machine.{IsUp, IsOver, given_up};
ghost use Rattle.member_gate.specs.Answering.{answer};
ghost use Rattle.member_gate.specs.Submitting.{TookAll, TookNone, Stopped};
ghost use Rattle.member_gate.specs.Working.{work_of_frame, work_at_limit, work_of_reading, AreUnread, GaveUp};

use crate::answering::answer;
use crate::origin::Origin;
use crate::refusal::DeskRefusal;
use crate::worked::Worked;
use fix_fields::Frame;
use fix_frames::{Framer, Next};
use session_core::{Request, Session};
use std::sync::ledger::Ledger;
use venue_words::limits::MAX_FRAME_BYTES;
use venue_words::{Bytes, Floor, Steps};

/// Works a message that the session handed out: its answer is added, or its command counted. After a refusal neither is, and
/// the session is as it was.
fn work_request<F: Floor, L: Ledger>(
    session: &mut Session,
    floor: &mut F,
    origin: Origin<'_>,
    request: &Request<'_>,
    worked: &mut Worked,
    steps: &mut Steps<L>,
) -> Result<(), DeskRefusal>
    requires up { IsUp session.old }
    requires config { IsConfig origin.config.now }
    requires setup { IsSetUpFor origin.config.now (F.mark floor.old).setup }
    requires member { origin.member < length origin.config.now.members }
    ensures session { OnOk result (session.new
        ≡ (answer origin.entry.config.now origin.entry.member origin.entry.moment session.old request.now).session) }
    ensures replies { OnOk result (worked.new.replies.items ≡ worked.old.replies.items
        ++ (answer origin.entry.config.now origin.entry.member origin.entry.moment session.old request.now).replies) }
    ensures mark { F.mark floor.new ≡ F.mark floor.old }
    ensures took { OnOk result (TookAll F.at F.step_limit (F.mark floor.old) origin.entry.feed origin.entry.moment
        (answer origin.entry.config.now origin.entry.member origin.entry.moment session.old request.now).submissions
        (floor.old, steps.old) (floor.new, steps.new)) }
    ensures count { OnOk result (worked.new.submitted ≡ worked.old.submitted + length (answer origin.entry.config.now
        origin.entry.member origin.entry.moment session.old request.now).submissions) }
    ensures err { OnErr result (session.new ≡ session.old) }
    ensures uncounted { OnErr result (worked.new.submitted ≡ worked.old.submitted) }
    ensures none { IfErr result (λ refusal. TookNone F.at F.step_limit (F.mark floor.old)
        origin.entry.feed origin.entry.moment refusal
        (answer origin.entry.config.now origin.entry.member origin.entry.moment session.old request.now).submissions
        (floor.old, steps.old) (floor.new, steps.new)) }
{
    // Room is taken first, so that no answer is lost that has its number, and no command goes uncounted.
    worked.replies.reserve(1)?;
    let Some(count) = worked.submitted.checked_add(1) else {
        return Err(DeskRefusal::NoMemory);
    };
    match answer(session, floor, origin, request, steps)? {
        Some(reply) => {
            worked.replies.push_reserved(reply);
            Ok(())
        }
        None => {
            worked.submitted = count;
            Ok(())
        }
    }
}

/// Works a frame: its replies are added. After a refusal some of them may be.
#[tactic(auto, unfolding(crate::specs::Working::work_of_frame))]
fn work_frame<F: Floor, L: Ledger>(
    session: &mut Session,
    floor: &mut F,
    origin: Origin<'_>,
    frame: Frame<'_>,
    worked: &mut Worked,
    steps: &mut Steps<L>,
) -> Result<(), DeskRefusal>
    requires config { IsConfig origin.config.now }
    requires setup { IsSetUpFor origin.config.now (F.mark floor.old).setup }
    requires member { origin.member < length origin.config.now.members }
    ensures session { OnOk result (session.new
        ≡ (work_of_frame origin.entry.config.now origin.entry.member origin.entry.moment session.old frame.entry.bytes.now).session) }
    ensures replies { OnOk result (worked.new.replies.items ≡ worked.old.replies.items
        ++ (work_of_frame origin.entry.config.now origin.entry.member origin.entry.moment session.old frame.entry.bytes.now).replies) }
    ensures mark { F.mark floor.new ≡ F.mark floor.old }
    ensures took { OnOk result (TookAll F.at F.step_limit (F.mark floor.old) origin.entry.feed origin.entry.moment
        (work_of_frame origin.entry.config.now origin.entry.member origin.entry.moment session.old frame.entry.bytes.now).submissions
        (floor.old, steps.old) (floor.new, steps.new)) }
    ensures count { OnOk result (worked.new.submitted ≡ worked.old.submitted + length (work_of_frame origin.entry.config.now
        origin.entry.member origin.entry.moment session.old frame.entry.bytes.now).submissions) }
    ensures gave_up { OnErr result (GaveUp origin.entry.moment session.old (frame.entry.bytes.now ∷ []) (given_up session.new)) }
    ensures uncounted { OnErr result (worked.new.submitted ≡ worked.old.submitted) }
    ensures none { IfErr result (λ refusal. TookNone F.at F.step_limit (F.mark floor.old)
        origin.entry.feed origin.entry.moment refusal
        (work_of_frame origin.entry.config.now origin.entry.member origin.entry.moment session.old frame.entry.bytes.now).submissions
        (floor.old, steps.old) (floor.new, steps.new)) }
{
    let turn = session.take(frame, origin.moment)?;
    let mut own = turn.replies.into_vec();
    worked.replies.append(&mut own)?;
    let Some(request) = turn.request else {
        return Ok(());
    };
    work_request(session, floor, origin, &request, worked, steps)
}

/// The connection ends, since the next frame is too long. What is sent then is added.
fn end_too_long(
    session: &mut Session,
    origin: Origin<'_>,
    replies: &mut Vec<Bytes>,
) -> Result<(), DeskRefusal>
    ensures session { OnOk result (session.new ≡ (work_at_limit origin.entry.moment session.old).session) }
    ensures replies { OnOk result (replies.new.items
        ≡ replies.old.items ++ (work_at_limit origin.entry.moment session.old).replies) }
    ensures no_memory { IfErr result (λ refusal. refusal ≡ DeskRefusal.NoMemory) }
    ensures gave_up { OnErr result ((given_up session.new ≡ given_up session.old)
        ⊎ (given_up session.new ≡ given_up (work_at_limit origin.entry.moment session.old).session)) }
{
    let turn = session.too_long(origin.moment)?;
    let mut own = turn.replies.into_vec();
    replies.append(&mut own)?;
    Ok(())
}

/// Works all frames that a stream has now.
pub fn work_frames<F: Floor, L: Ledger>(
    framer: &mut Framer,
    session: &mut Session,
    floor: &mut F,
    origin: Origin<'_>,
    worked: &mut Worked,
    steps: &mut Steps<L>,
) -> Result<(), DeskRefusal>
    requires config { IsConfig origin.config.now }
    requires setup { IsSetUpFor origin.config.now (F.mark floor.old).setup }
    requires member { origin.member < length origin.config.now.members }
    requires none { worked.old.submitted ≡ 0 }
    ensures session { OnOk result (session.new ≡ (work_of_reading origin.entry.config.now origin.entry.member
        origin.entry.moment session.old (reading_of framer.old.kept)).session) }
    ensures replies { OnOk result (worked.new.replies.items ≡ worked.old.replies.items ++ (work_of_reading origin.entry.config.now
        origin.entry.member origin.entry.moment session.old (reading_of framer.old.kept)).replies) }
    ensures count { OnOk result (worked.new.submitted ≡ length (work_of_reading origin.entry.config.now
        origin.entry.member origin.entry.moment session.old (reading_of framer.old.kept)).submissions) }
    ensures unread { OnOk result (AreUnread framer.old.kept framer.new.kept) }
    ensures few { OnOk result (IsOver session.new ⊎ (length framer.new.kept < MAX_FRAME_BYTES)) }
    ensures mark { F.mark floor.new ≡ F.mark floor.old }
    ensures took { OnOk result (TookAll F.at F.step_limit (F.mark floor.old) origin.entry.feed origin.entry.moment
        (work_of_reading origin.entry.config.now origin.entry.member origin.entry.moment session.old
        (reading_of framer.old.kept)).submissions (floor.old, steps.old) (floor.new, steps.new)) }
    ensures stopped { IfErr result (λ refusal. Stopped F.at F.step_limit (F.mark floor.old) origin.entry.config.now
        origin.entry.member origin.entry.feed origin.entry.moment session.old (reading_of framer.old.kept).frames
        refusal (given_up session.new) worked.new.submitted (floor.old, steps.old) (floor.new, steps.new)) }
{
    'frames: loop {
        match framer.next() {
            Next::Frame(frame) => {
                work_frame(session, floor, origin, frame, worked, steps)?;
            }
            Next::Wait => return Ok(()),
            Next::TooLong => {
                end_too_long(session, origin, &mut worked.replies)?;
                return Ok(());
            }
        }
    }
}
