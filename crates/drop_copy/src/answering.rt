//! What the frames of a drop session's stream make of it.
ghost use Rattle.std.specs.Prelude.{◌≡◌, ◌≤◌, ◌<◌, ◌⊎◌, ◌++◌, ◌∷◌, [], length, IfOk, OnOk, OnErr, OnSome};
ghost use Rattle.venue_words.specs.declared.limits.TheConstants.{MAX_FRAME_BYTES};
ghost use Rattle.fix_frames.specs.Reading.{reading_of};
ghost use Rattle.session_core.specs.Machine.{IsUp, IsOver, given_up};
ghost use Rattle.session_stream.specs.Work.{answered, work_of_frame, work_at_limit, work_of_reading};
ghost use Rattle.drop_copy.specs.Answering.{refuses};
ghost use Rattle.member_gate.specs.Working.{GaveUp};
ghost use Rattle.drop_copy.specs.Desks.{AreUnread, GaveUpOver};

use fix_fields::Frame;
use fix_frames::{Framer, Next};
use fix_write::MessageType;
use member_gate::business::business_body;
use session_core::lookup::text_in;
use session_core::tags::MSG_TYPE;
use session_core::{Request, Session, Turn};
use std::alloc::Global;
use venue_words::{Bytes, NoMemory};

/// Answers a message that the session handed out: it takes none.
fn refuse(
    alloc: Global,
    session: &mut Session,
    request: &Request<'_>,
    moment: i64,
) -> Result<Bytes, NoMemory>
    requires { IsUp session.old }
    ensures session { OnOk result (session.new ≡ (refuses moment session.old request.now).machine) }
    ensures reply { IfOk result (λ frame. frame ∷ [] ≡ (refuses moment session.old request.now).turn.replies) }
    ensures err { OnErr result (session.new ≡ session.old) }
{
    let kind = text_in(MSG_TYPE, &request.fields);
    let body = business_body(alloc, request.number, kind)?;
    session.send(MessageType::BusinessReject, &body, moment)
}

/// Adds what a turn sends, and the answer to the message that it hands out, if any. After a refusal some of them may be added, and
/// the session is as it was.
fn work_turn(
    alloc: Global,
    session: &mut Session,
    turn: Turn<'_>,
    moment: i64,
    replies: &mut Vec<Bytes>,
) -> Result<(), NoMemory>
    requires { OnSome turn.request (IsUp session.old) }
    ensures session { OnOk result (session.new ≡ (answered (refuses moment) session.old turn.entry.request).session) }
    ensures replies { OnOk result (replies.new.items
        ≡ replies.old.items ++ (turn.entry.replies ++ (answered (refuses moment) session.old turn.entry.request).replies)) }
    ensures err { OnErr result (session.new ≡ session.old) }
{
    let mut own = turn.replies.into_vec();
    replies.append(&mut own)?;
    let Some(request) = turn.request else {
        return Ok(());
    };
    // Room is taken first, so that no answer is lost that has its number.
    replies.reserve(1)?;
    let reply = refuse(alloc, session, &request, moment)?;
    replies.push_reserved(reply);
    Ok(())
}

/// Works a frame: what the session sends for it is added, and the answer to the message that it hands out, if any. After a
/// refusal some of them may be added.
#[tactic(auto, unfolding(session_stream::specs::Work::work_of_frame))]
fn work_frame(
    alloc: Global,
    session: &mut Session,
    frame: Frame<'_>,
    moment: i64,
    replies: &mut Vec<Bytes>,
) -> Result<(), NoMemory>
    ensures session { OnOk result (session.new ≡ (work_of_frame (refuses moment) moment session.old frame.entry.bytes.now).session) }
    ensures replies { OnOk result (replies.new.items
        ≡ replies.old.items ++ (work_of_frame (refuses moment) moment session.old frame.entry.bytes.now).replies) }
    ensures gave_up { OnErr result (GaveUp moment session.old (frame.entry.bytes.now ∷ []) (given_up session.new)) }
{
    let turn = session.take(frame, moment)?;
    work_turn(alloc, session, turn, moment, replies)
}

/// The connection ends, since the next frame is too long. What is sent then is added.
fn end_too_long(
    session: &mut Session,
    moment: i64,
    replies: &mut Vec<Bytes>,
) -> Result<(), NoMemory>
    ensures session { OnOk result (session.new ≡ (work_at_limit moment session.old).session) }
    ensures replies { OnOk result (replies.new.items ≡ replies.old.items ++ (work_at_limit moment session.old).replies) }
    ensures gave_up { OnErr result (GaveUp moment session.old [] (given_up session.new)) }
{
    let turn = session.too_long(moment)?;
    let mut own = turn.replies.into_vec();
    replies.append(&mut own)?;
    Ok(())
}

/// Works all frames that a stream has now: what the session sends is added. After a refusal some of it may be.
pub fn work_frames(
    alloc: Global,
    framer: &mut Framer,
    session: &mut Session,
    moment: i64,
    replies: &mut Vec<Bytes>,
) -> Result<(), NoMemory>
    ensures session { OnOk result (session.new
        ≡ (work_of_reading (refuses moment) moment session.old (reading_of framer.old.kept)).session) }
    ensures replies { OnOk result (replies.new.items ≡ replies.old.items
        ++ (work_of_reading (refuses moment) moment session.old (reading_of framer.old.kept)).replies) }
    ensures unread { OnOk result (IsOver session.new ⊎ AreUnread framer.old.kept framer.new.kept) }
    ensures few { OnOk result (IsOver session.new ⊎ (length framer.new.kept < MAX_FRAME_BYTES)) }
    ensures gave_up { OnErr result (GaveUpOver moment session.old (reading_of framer.old.kept).frames (given_up session.new)) }
{
    'frames: loop {
        match framer.next() {
            Next::Frame(frame) => {
                work_frame(alloc, session, frame, moment, replies)?;
            }
            Next::Wait => return Ok(()),
            Next::TooLong => {
                end_too_long(session, moment, replies)?;
                return Ok(());
            }
        }
    }
}
