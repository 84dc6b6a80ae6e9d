//! A market data session that is fed piece by piece, and the lines that its messages make.
ghost use Rattle.std.specs.Prelude.{◌≡◌, ◌≤◌, ◌++◌, ℕ, List, length, IfOk, OnOk, OnErr, IsSome, None};
ghost use Rattle.venue_words.specs.Conditions.{IsConfig};
ghost use Rattle.market_data.specs.Lines.{handed_quotes, last_moment, lines_from, quotes_in, sending_time};
ghost use Rattle.session_core.specs.Machine.{on_frame, on_overlong};
ghost use Rattle.market_data.specs.Feeding.{feeding_of, IsFed, StandsFor, Adds};

use crate::lines::push_snapshot;
use crate::snapshots::{SnapshotRefusal, read_snapshot};
use fix_fields::{Frame, moment};
use fix_frames::{Framer, Next};
use fix_write::MessageType;
use session_core::tags::SENDING_TIME;
use session_core::{EndCause, Request, Session, Turn};
use std::alloc::Global;
use std::marker::Model;
use venue_words::{Bytes, Config, NoMemory};

/// The moment of a message: its SendingTime(52), in milliseconds since 1970-01-01 00:00 UTC.
#[tactic(auto, unfolding(crate::specs::Lines::sending_time))]
fn sending_time(request: &Request<'_>) -> Option<i64>
    ensures { result ≡ sending_time request.now }
{
    match request.fields.value_of(SENDING_TIME) {
        Some(bytes) => moment(bytes),
        None => None,
    }
}

/// Appends the lines of a message, which are those of a snapshot that is taken. After a refusal the text may hold a part of
/// them.
#[tactic(auto, unfolding(crate::specs::Lines::quotes_in))]
fn push_message(
    alloc: Global,
    text: &mut Vec<u8>,
    last: &mut Option<i64>,
    config: &Config,
    request: &Request<'_>,
) -> Result<(), NoMemory>
    requires { IsConfig config.now }
    ensures lines { OnOk result (text.new.items
        ≡ text.old.items ++ lines_from config.now last.old (quotes_in config.now request.now)) }
    ensures last { OnOk result (last.new ≡ last_moment last.old (quotes_in config.now request.now)) }
{
    if !matches!(request.kind, MessageType::MarketDataSnapshot) {
        return Ok(());
    }
    match read_snapshot(alloc, request, config) {
        Ok(snapshot) => match sending_time(request) {
            Some(moment) => push_snapshot(text, last, config, moment, &snapshot),
            None => Ok(()),
        },
        Err(SnapshotRefusal::Reject { .. }) => Ok(()),
        Err(SnapshotRefusal::NoMemory) => Err(NoMemory),
    }
}

/// Appends the lines of the message that a turn hands out, if any. After a refusal the text may hold a part of them.
fn push_handed(
    alloc: Global,
    text: &mut Vec<u8>,
    last: &mut Option<i64>,
    config: &Config,
    handed: Option<Request<'_>>,
) -> Result<(), NoMemory>
    requires { IsConfig config.now }
    ensures lines { OnOk result (text.new.items
        ≡ text.old.items ++ lines_from config.now last.old (handed_quotes config.now handed.entry)) }
    ensures last { OnOk result (last.new ≡ last_moment last.old (handed_quotes config.now handed.entry)) }
{
    match handed {
        Some(request) => push_message(alloc, text, last, config, &request),
        None => Ok(()),
    }
}

/// Works a frame: the lines of the message that it hands out, if any, are appended, and the cause comes back where the session
/// has ended. After a refusal the text may hold a part of them.
fn work_frame(
    alloc: Global,
    session: &mut Session,
    frame: Frame<'_>,
    last: &mut Option<i64>,
    config: &Config,
    text: &mut Vec<u8>,
) -> Result<Option<EndCause>, NoMemory>
    requires config { IsConfig config.now }
    ensures session { OnOk result (session.new ≡ (on_frame session.old frame.entry.bytes.now config.now.begin).machine) }
    ensures lines { OnOk result (text.new.items ≡ text.old.items ++ lines_from config.now last.old
        (handed_quotes config.now (on_frame session.old frame.entry.bytes.now config.now.begin).turn.request)) }
    ensures last { OnOk result (last.new ≡ last_moment last.old
        (handed_quotes config.now (on_frame session.old frame.entry.bytes.now config.now.begin).turn.request)) }
    ensures ended { IfOk result (λ ended. ended ≡ (on_frame session.old frame.entry.bytes.now config.now.begin).turn.ended) }
{
    let Turn { request, ended, .. } = session.take(frame, config.begin)?;
    push_handed(alloc, text, last, config, request)?;
    Ok(ended)
}

/// The session ends, since its next frame is too long: why it has ended. Without a cause it ended for want of memory.
fn end_too_long(session: &mut Session, config: &Config) -> Result<Option<EndCause>, NoMemory>
    ensures { IfOk result (λ ended. (session.new ≡ (on_overlong session.old config.now.begin).machine)
        × IsSome ended × ((on_overlong session.old config.now.begin).turn.ended ≡ ended)) }
{
    let turn = session.too_long(config.begin)?;
    match turn.ended {
        Some(cause) => Ok(Some(cause)),
        None => Err(NoMemory),
    }
}

/// Works all frames that a stream has now, and appends their lines. The cause comes back where the session ends in them. After
/// a refusal the text may hold a part of the lines.
fn work_frames(
    alloc: Global,
    framer: &mut Framer,
    session: &mut Session,
    last: &mut Option<i64>,
    config: &Config,
    text: &mut Vec<u8>,
) -> Result<Option<EndCause>, NoMemory>
    requires { IsConfig config.now }
    ensures adds { IfOk result (λ ended. (source bytes piece : List ℕ)
        → IsFed config.now source bytes piece (feeding_of session.old framer.old.kept last.old)
        → (added : List ℕ) × (text.new.items ≡ text.old.items ++ added)
        × Adds config.now source bytes piece added ended (feeding_of session.new framer.new.kept last.new)) }
{
    'frames: loop {
        match framer.next() {
            Next::Frame(frame) => match work_frame(alloc, session, frame, last, config, text)? {
                Some(cause) => return Ok(Some(cause)),
                None => {}
            },
            Next::Wait => return Ok(None),
            Next::TooLong => return end_too_long(session, config),
        }
    }
}

/// A session with a source whose bytes come piece by piece. What it would send reaches nobody, so it answers no message:
/// what is answered changes nothing of what comes. Of a message that the session sends by itself it keeps only the number.
#[derive(Drop)]
pub struct MarketSession {
    alloc: Global,
    session: Session,
    framer: Framer,
    /// The moment of the last T line.
    last: Option<i64>,
}

impl Model for MarketSession {
    ghost use Rattle.market_data.specs.Feeding.{Feeding};

    ghost Value = { Feeding };

    ghost view = { λ m. record { session = m.session; unread = m.framer.kept; last = m.last } };
}

impl MarketSession {
    ghost use Rattle.session_core.specs.Machine.{IsOver};
    ghost use Rattle.session_core.specs.State.{cause_of};
    ghost use Rattle.market_data.specs.Feeding.{unfed};

    /// A session with a source, before its first byte.
    pub fn new(alloc: Global, source: Bytes) -> MarketSession
        ensures { result ≡ unfed source }
    {
        MarketSession {
            alloc,
            session: Session::new(alloc, source),
            framer: Framer::new(alloc),
            last: None,
        }
    }

    /// Works the next piece of the source's bytes. After a refusal it is not known how far.
    fn work_piece(
        &mut self,
        config: &Config,
        piece: &[u8],
        text: &mut Vec<u8>,
    ) -> Result<Option<EndCause>, NoMemory>
        requires { IsConfig config.now }
        ensures adds { IfOk result (λ ended. (source bytes : List ℕ) → StandsFor config.now source bytes self.old →
            (added : List ℕ) × (text.new.items ≡ text.old.items ++ added)
            × Adds config.now source bytes piece.now added ended self.new) }
    {
        self.framer.feed(piece)?;
        work_frames(
            self.alloc,
            &mut self.framer,
            &mut self.session,
            &mut self.last,
            config,
            text,
        )
    }

    /// Works the next piece of the source's bytes: the lines that it makes are appended to the text, and the cause comes back
    /// where the session ends in it. Then no further piece is to come. After a refusal the session has ended without a cause,
    /// and the text may hold a part of the lines.
    pub fn take(
        &mut self,
        config: &Config,
        piece: &[u8],
        text: &mut Vec<u8>,
    ) -> Result<Option<EndCause>, NoMemory>
        requires { IsConfig config.now }
        ensures adds { IfOk result (λ ended. (source bytes : List ℕ) → StandsFor config.now source bytes self.old →
            (added : List ℕ) × (text.new.items ≡ text.old.items ++ added)
            × Adds config.now source bytes piece.now added ended self.new) }
        ensures over { OnErr result (IsOver self.new.session) }
        ensures no_cause { OnErr result (cause_of self.new.session.state.phase ≡ None) }
    {
        match self.work_piece(config, piece, text) {
            Ok(ended) => Ok(ended),
            Err(_) => {
                self.session.give_up();
                Err(NoMemory)
            }
        }
    }
}
