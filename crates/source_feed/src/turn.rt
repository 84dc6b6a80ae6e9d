//! One turn of a session: what the source sent is worked, and its quotes are put to the desk.
ghost use Rattle.std.specs.Prelude.{◌≡◌, ◌<◌, ◌≤◌, [], ℕ, List, false, length, take, IfOk, OnOk, IfErr};
ghost use Rattle.std.specs.Io.KnownBytes.{Appends};
ghost use Rattle.venue_words.specs.Conditions.{IsConfig};
ghost use Rattle.quote_flow.specs.Tables.{turned, passed};
ghost use Rattle.source_session.specs.Hearing.{StandsFor};
ghost use Rattle.source_session.specs.Messages.{is_over};
ghost use Rattle.source_feed.specs.Serving.{lines_of};
ghost use Rattle.source_feed.specs.Turns.{Gave, IsQuietEnd, IsPassEnd, HearsPiece};

use crate::end::FeedEnd;
use crate::lines::push_lines;
use crate::watch::{Note, Watch};
use io_edge::{Link, Pulled, Sink};
use quote_flow::{Conflater, MarketQuote};
use source_session::{Said, SourcePhase, SourceSession};
use venue_words::{Config, NoMemory};

/// Room for the quotes that pass, and for their lines.
#[derive(Drop)]
pub(crate) struct Room {
    pub passed: Vec<MarketQuote>,
    pub text: Vec<u8>,
}

/// Pulls the link once: so many bytes stand at the front of the buffer.
pub(crate) fn pull_piece<K: Link>(link: &mut K, buffer: &mut [u8]) -> Result<usize, FeedEnd>
    requires { 0 < length buffer.old }
    ensures inside { IfOk result (λ count. count ≤ length buffer.new) }
    ensures gave { IfOk result (λ count. Gave (take count buffer.new) (K.told link.old) (K.told link.new)) }
    ensures none { IfErr result (λ _. Gave [] (K.told link.old) (K.told link.new)) }
    ensures end { IfErr result IsQuietEnd }
{
    match link.pull(buffer) {
        Ok(pulled) => match pulled {
            Pulled::Bytes(count) => Ok(count),
            Pulled::Quiet => Ok(0),
            Pulled::End => Err(FeedEnd::SourceGone),
        },
        Err(_) => Err(FeedEnd::SourceFault),
    }
}

/// Works the first bytes of a buffer, so many, at a moment: what was said is what they say.
pub(crate) fn work_piece(
    session: &mut SourceSession,
    config: &Config,
    buffer: &[u8],
    count: usize,
    moment: i64,
    said: &mut Said,
) -> Result<(), NoMemory>
    requires config { IsConfig config.now }
    requires inside { count ≤ length buffer.now }
    ensures names { session.new.names ≡ session.old.names }
    ensures heard { OnOk result ((came : List ℕ) → StandsFor config.now came session.old
        → HearsPiece config.now came (take count buffer.now) said.new.quotes.items session.new) }
{
    said.clear();
    match session.take(config, &buffer[..count], moment, said) {
        Ok(()) => session.tick(moment, &mut said.replies),
        Err(_) => Err(NoMemory),
    }
}

/// Puts the quotes that pass to the desk.
pub(crate) fn pass<S: Sink>(
    config: &Config,
    conflater: &mut Conflater,
    said: &Said,
    moment: i64,
    room: &mut Room,
    desk: &mut S,
) -> Result<(), FeedEnd>
    ensures table { OnOk result (conflater.new ≡ turned conflater.old moment said.now.quotes.items) }
    ensures put { OnOk result (Appends (S.told desk.old) (S.told desk.new)
        (lines_of config.now (passed conflater.old moment said.now.quotes.items))) }
    ensures end { IfErr result (λ end. IsPassEnd end (S.told desk.old) (S.told desk.new)
        (lines_of config.now (passed conflater.old moment said.now.quotes.items))) }
{
    room.passed.clear();
    room.text.clear();
    let Ok(()) = conflater.turn(moment, &said.quotes, &mut room.passed) else {
        return Err(FeedEnd::NoMemory);
    };
    let Ok(()) = push_lines(&mut room.text, config, &room.passed) else {
        return Err(FeedEnd::NoMemory);
    };
    match desk.put(&room.text) {
        Ok(()) => Ok(()),
        Err(_) => Err(FeedEnd::DeskFault),
    }
}

/// Sends what is to be sent to the source.
pub(crate) fn put_replies<K: Link>(said: &Said, link: &mut K) -> Result<(), FeedEnd>
    ensures gave { Gave [] (K.told link.old) (K.told link.new) }
    ensures end { IfErr result IsQuietEnd }
{
    match link.put(&said.replies) {
        Ok(()) => Ok(()),
        Err(_) => Err(FeedEnd::SourceFault),
    }
}

/// Whether the session goes on, or how it ended.
pub(crate) fn goes_on(session: &SourceSession) -> Result<(), FeedEnd>
    ensures end { IfErr result IsQuietEnd }
    ensures open { OnOk result (is_over session.now.state.phase ≡ false) }
{
    match session.phase() {
        SourcePhase::Ended(end) => Err(FeedEnd::Ended(end)),
        SourcePhase::Asked | SourcePhase::Up => Ok(()),
    }
}

/// Tells what happened.
pub(crate) fn tell<W: Watch>(
    watch: &mut W,
    moment: i64,
    before: SourcePhase,
    now: SourcePhase,
    said: &Said,
) {
    if before == SourcePhase::Asked && now == SourcePhase::Up {
        watch.note(moment, Note::LoggedOn);
    }
    if said.complains {
        watch.note(moment, Note::Complains);
    }
    for refused in said.refused.as_slice() {
        watch.note(moment, Note::Refused(*refused));
    }
}
