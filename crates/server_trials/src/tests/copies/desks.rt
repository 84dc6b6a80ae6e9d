//! Worked examples over a drop desk.
ghost use Rattle.std.specs.Prelude.{◌≡◌, ◌<◌, length};
ghost use Rattle.venue_words.specs.Conditions.{IsConfig};
ghost use Rattle.venue_words.specs.Floors.{IsSetUpFor};
ghost use Rattle.drop_copy.specs.Desks.{AreConfigured};

use super::{
    FIRST_AGAIN, FIRST_COPY, LOGON, LOGON_ANSWER, ORDER, ORDER_ANSWER, RESEND, SECOND_AGAIN,
    SECOND_COPY, config_of, desk_of, frame_of, frames_of, start, trade,
};
use drop_copy::DropDesk;
use std::alloc::Global;
use std::marker::Brand;
use std::sync::ledger::Blank;
use std::test::Fail;
use symbol_book::HashSeed;
use venue_core::plain;
use venue_words::{Bytes, Config, Floor, NoMemory};

/// Whether this is the frame of this text.
fn is_frame(alloc: Global, frame: &Bytes, text: &[u8]) -> Result<bool, NoMemory> {
    let wanted = frame_of(alloc, text)?;
    let is_same = frame.as_slice() == wanted.as_slice();
    drop(wanted);
    Ok(is_same)
}

/// Whether these are the frames of these texts, in their order.
fn are_frames(alloc: Global, frames: &[Bytes], texts: &[&[u8]]) -> Result<bool, NoMemory> {
    if frames.len() != texts.len() {
        return Ok(false);
    }
    for (frame, text) in frames.iter().zip(texts) {
        if !is_frame(alloc, frame, text)? {
            return Ok(false);
        }
    }
    Ok(true)
}

/// Whether a desk pulls the frames of these texts.
fn pulls<F: Floor>(
    alloc: Global,
    desk: &mut DropDesk,
    floor: &mut F,
    config: &Config,
    texts: &[&[u8]],
) -> Result<bool, NoMemory>
    requires config { IsConfig config.now }
    requires setup { IsSetUpFor config.now (F.mark floor.old).setup }
    requires members { AreConfigured desk.old.members config.now }
    ensures members { desk.new.members ≡ desk.old.members }
    ensures mark { F.mark floor.new ≡ F.mark floor.old }
{
    let frames = desk.pull(floor, config, start())?;
    let are_wanted = are_frames(alloc, &frames, texts);
    drop(frames);
    are_wanted
}

/// Whether a desk sends the frames of these texts for a piece.
fn replies(
    alloc: Global,
    desk: &mut DropDesk,
    piece: &[u8],
    texts: &[&[u8]],
) -> Result<bool, NoMemory>
    ensures { desk.new.members ≡ desk.old.members }
{
    let turn = desk.take(start(), piece)?;
    let are_wanted = are_frames(alloc, turn.replies.as_slice(), texts);
    drop(turn);
    are_wanted
}

/// Whether a desk answers the frames of some texts with those of others.
fn answers(
    alloc: Global,
    desk: &mut DropDesk,
    texts: &[&[u8]],
    answers: &[&[u8]],
) -> Result<bool, NoMemory>
    ensures { desk.new.members ≡ desk.old.members }
{
    let piece = frames_of(alloc, texts)?;
    let are_wanted = replies(alloc, desk, &piece, answers);
    drop(piece);
    are_wanted
}

const LOGONS: &[&[u8]] = &[LOGON];

const LOGGED_ON: &[&[u8]] = &[LOGON_ANSWER];

const COPIES: &[&[u8]] = &[FIRST_COPY, SECOND_COPY];

const REQUESTS: &[&[u8]] = &[RESEND, ORDER];

const AGAIN: &[&[u8]] = &[FIRST_AGAIN, SECOND_AGAIN, ORDER_ANSWER];

/// Whether a logon, two pulls behind a trade, and a request for both copies again and an order are answered as they are to be.
#[derive(Clone, Copy)]
struct Seen {
    logon: bool,
    pulled: bool,
    no_more: bool,
    again: bool,
}

fn worked_with<F: Floor>(
    alloc: Global,
    config: &Config,
    floor: &mut F,
    desk: &mut DropDesk,
) -> Result<Seen, NoMemory>
    requires config { IsConfig config.now }
    requires setup { IsSetUpFor config.now (F.mark floor.old).setup }
    requires members { AreConfigured desk.old.members config.now }
{
    Ok(Seen {
        logon: answers(alloc, desk, LOGONS, LOGGED_ON)?,
        pulled: pulls(alloc, desk, floor, config, COPIES)?,
        no_more: pulls(alloc, desk, floor, config, &[])?,
        again: answers(alloc, desk, REQUESTS, AGAIN)?,
    })
}

fn worked_over<F: Floor>(alloc: Global, config: &Config, floor: &mut F) -> Result<Seen, NoMemory>
    requires config { IsConfig config.now }
    requires setup { IsSetUpFor config.now (F.mark floor.old).setup }
    requires members { length config.now.members ≡ 2 }
    requires markets { length config.now.markets ≡ 1 }
    requires symbols { 0 < length (F.mark floor.old).setup.limits }
{
    trade::<_, Brand>(alloc, floor, Blank::new(1))?;
    let mut desk = desk_of(alloc, config)?;
    let seen = worked_with(alloc, config, floor, &mut desk);
    drop(desk);
    seen
}

fn worked_under(alloc: Global, config: &Config) -> Result<Seen, NoMemory>
    requires config { IsConfig config.now }
    requires members { length config.now.members ≡ 2 }
    requires markets { length config.now.markets ≡ 1 }
    requires symbols { length config.now.limits ≡ 2 }
{
    let mut floor = plain(alloc, HashSeed::fixed(), config)?;
    let seen = worked_over(alloc, config, &mut floor);
    drop(floor);
    seen
}

fn worked(alloc: Global) -> Result<Seen, NoMemory> {
    let config = config_of(alloc)?;
    let seen = worked_under(alloc, &config);
    drop(config);
    seen
}

#[test]
fn a_members_reports_are_copied_once_and_again_where_they_are_asked_for(
    rt: HostRuntime,
) -> Result<(), Fail> {
    let seen = worked(rt.alloc())?;
    assert!(rt; seen.logon);
    assert!(rt; seen.pulled);
    assert!(rt; seen.no_more);
    assert!(rt; seen.again);
    Ok(())
}
