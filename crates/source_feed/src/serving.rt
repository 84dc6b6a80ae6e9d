//! A session between a source and a desk.
ghost use Rattle.std.specs.Prelude.{◌≡◌, ◌<◌, [], ℕ, List, Option, length, IfErr, OnOk};
ghost use Rattle.io_edge.specs.Links.{Told};
ghost use Rattle.venue_words.specs.Conditions.{IsConfig};
ghost use Rattle.source_session.specs.declared.names.Names.{Names as NamesMeant};
ghost use Rattle.source_session.specs.Hearing.{unheard};
ghost use Rattle.source_feed.specs.Serving.{Serves, table_of};
ghost use Rattle.source_feed.specs.Turns.{Gave, IsQuietEnd, Stands};

use crate::end::FeedEnd;
use crate::turn::{Room, goes_on, pass, pull_piece, put_replies, tell, work_piece};
use crate::watch::Watch;
use io_edge::{Link, Sink};
use line_reader::window::{READ_BYTES, buffer_of};
use quote_flow::Conflater;
use source_session::{Names, Said, SourceSession};
use std::alloc::Global;
use venue_words::Config;

/// What a session is run by.
#[derive(Drop)]
pub struct Setup {
    /// SenderCompID(49) of both sides.
    pub names: Names,
    /// The body of the MarketDataRequest, or nothing.
    pub request: Vec<u8>,
    /// How many milliseconds apart quotes of a symbol at a market pass, or none where all do.
    pub pace: Option<u64>,
}

/// What one turn works with.
#[derive(Drop)]
struct Serving {
    session: SourceSession,
    conflater: Conflater,
    said: Said,
    room: Room,
}

/// One turn. At its end the session has ended, or stands after what came.
fn work_turn<K: Link, S: Sink, W: Watch>(
    config: &Config,
    serving: &mut Serving,
    buffer: &mut [u8],
    link: &mut K,
    desk: &mut S,
    watch: &mut W,
) -> Result<(), FeedEnd>
    requires config { IsConfig config.now }
    requires room { 0 < length buffer.old }
    ensures goes_on { OnOk result ((names : NamesMeant) (pace : Option ℕ) (first : Option Told) (begun : Option (List ℕ))
        → Stands config.now names pace first (K.told link.old) begun (S.told desk.old) serving.old.session serving.old.conflater
        → Stands config.now names pace first (K.told link.new) begun (S.told desk.new) serving.new.session serving.new.conflater) }
    ensures ends { IfErr result (λ end. (names : NamesMeant) (pace : Option ℕ) (first : Option Told) (begun : Option (List ℕ))
        → Stands config.now names pace first (K.told link.old) begun (S.told desk.old) serving.old.session serving.old.conflater
        → Serves config.now names pace first (K.told link.new) begun (S.told desk.new) end) }
{
    let before = serving.session.phase();
    let count = match pull_piece(link, buffer) {
        Ok(count) => count,
        Err(end) => return Err(end),
    };
    let moment = watch.now();
    match work_piece(
        &mut serving.session,
        config,
        buffer,
        count,
        moment,
        &mut serving.said,
    ) {
        Ok(()) => {}
        Err(_) => return Err(FeedEnd::NoMemory),
    }
    match pass(
        config,
        &mut serving.conflater,
        &serving.said,
        moment,
        &mut serving.room,
        desk,
    ) {
        Ok(()) => {}
        Err(end) => return Err(end),
    }
    tell(
        watch,
        moment,
        before,
        serving.session.phase(),
        &serving.said,
    );
    match put_replies(&serving.said, link) {
        Ok(()) => goes_on(&serving.session),
        Err(end) => Err(end),
    }
}

/// Turns, until the session ends.
fn serve_turns<K: Link, S: Sink, W: Watch>(
    config: &Config,
    serving: &mut Serving,
    buffer: &mut [u8],
    link: &mut K,
    desk: &mut S,
    watch: &mut W,
) -> FeedEnd
    requires config { IsConfig config.now }
    requires room { 0 < length buffer.old }
    ensures { (names : NamesMeant) (pace : Option ℕ) (first : Option Told) (begun : Option (List ℕ))
        → Stands config.now names pace first (K.told link.old) begun (S.told desk.old) serving.old.session serving.old.conflater
        → Serves config.now names pace first (K.told link.new) begun (S.told desk.new) result }
{
    'turns: for _turn in 0..u64::MAX {
        match work_turn(config, serving, buffer, link, desk, watch) {
            Ok(()) => {}
            Err(end) => return end,
        }
    }
    FeedEnd::SourceGone
}

/// A session before anything came or went.
fn begin(alloc: Global, setup: Setup, moment: i64) -> Serving
    ensures session { result.session ≡ unheard setup.names }
    ensures conflater { result.conflater ≡ table_of setup.pace }
{
    let Setup {
        names,
        request,
        pace,
    } = setup;
    Serving {
        session: SourceSession::new(alloc, names, request, moment),
        conflater: Conflater::new(alloc, pace),
        said: Said::new(alloc),
        room: Room {
            passed: Vec::new(alloc),
            text: Vec::new(alloc),
        },
    }
}

/// Sends our Logon.
fn log_on<K: Link>(serving: &mut Serving, moment: i64, link: &mut K) -> Result<(), FeedEnd>
    ensures gave { Gave [] (K.told link.old) (K.told link.new) }
    ensures session { serving.new.session ≡ serving.old.session }
    ensures conflater { serving.new.conflater ≡ serving.old.conflater }
    ensures end { IfErr result IsQuietEnd }
{
    match serving.session.log_on(moment, &mut serving.said.replies) {
        Ok(()) => put_replies(&serving.said, link),
        Err(_) => Err(FeedEnd::NoMemory),
    }
}

/// Serves one session: logs on to the source over a new link, and puts the quotes of its snapshots to the desk as lines, until the
/// session ends.
pub fn serve_source<K: Link, S: Sink, W: Watch>(
    alloc: Global,
    config: &Config,
    setup: Setup,
    link: &mut K,
    desk: &mut S,
    watch: &mut W,
) -> FeedEnd
    requires { IsConfig config.now }
    ensures { Serves config.now setup.names setup.pace (K.told link.old) (K.told link.new) (S.told desk.old) (S.told desk.new) result }
{
    let moment = watch.now();
    let mut serving = begin(alloc, setup, moment);
    match log_on(&mut serving, moment, link) {
        Ok(()) => {}
        Err(end) => return end,
    }
    match buffer_of(alloc, READ_BYTES) {
        Ok(mut buffer) => { serve_turns(config, &mut serving, &mut buffer, link, desk, watch) }
        Err(_) => FeedEnd::NoMemory,
    }
}
