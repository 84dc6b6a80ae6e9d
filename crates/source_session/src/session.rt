//! A session with a source whose bytes come piece by piece.
ghost use Rattle.std.specs.Prelude.{◌≡◌, ◌++◌, ℕ, List, OnOk};
ghost use Rattle.venue_words.specs.Conditions.{IsConfig};
ghost use Rattle.quote_flow.specs.declared.quote.MarketQuote.{MarketQuote};
ghost use Rattle.source_session.specs.Hearing.{hearing_of, IsFed, Adds};

use crate::listener::Listener;
use crate::names::Names;
use crate::said::Said;
use crate::state::{SourceEnd, SourcePhase};
use fix_frames::{Framer, Next};
use std::alloc::Global;
use std::marker::Model;
use venue_words::{Config, NoMemory};

/// Works all frames that a stream has now.
fn work_frames(
    framer: &mut Framer,
    listener: &mut Listener,
    config: &Config,
    moment: i64,
    said: &mut Said,
) -> Result<(), NoMemory>
    requires { IsConfig config.now }
    ensures names { listener.new.names ≡ listener.old.names }
    ensures adds { OnOk result ((bytes piece : List ℕ)
        → IsFed config.now bytes piece (hearing_of listener.old.names listener.old.state framer.old.kept)
        → (added : List MarketQuote) × (said.new.quotes.items ≡ said.old.quotes.items ++ added)
        × Adds config.now bytes piece added (hearing_of listener.new.names listener.new.state framer.new.kept)) }
{
    'frames: loop {
        match framer.next() {
            Next::Frame(frame) => listener.take(config, frame, moment, said)?,
            Next::Wait => return Ok(()),
            Next::TooLong => {
                listener.end(SourceEnd::TooLong);
                return Ok(());
            }
        }
    }
}

/// A session with a source over one connection. Contracts see who speaks, how far the connection has come, and the bytes that are
/// unread.
#[derive(Drop)]
pub struct SourceSession {
    framer: Framer,
    listener: Listener,
}

impl Model for SourceSession {
    ghost use Rattle.source_session.specs.Hearing.{Hearing};

    ghost Value = { Hearing };

    ghost view = { λ s. record { names = s.listener.names; state = s.listener.state; unread = s.framer.kept } };
}

impl SourceSession {
    ghost use Rattle.std.specs.Prelude.{true, false, IsTrue, ◌⊎◌};
    ghost use Rattle.source_session.specs.Hearing.{unheard, StandsFor};
    ghost use Rattle.source_session.specs.Messages.{is_over};

    /// A session that begins at a moment, in milliseconds since 1970-01-01 00:00 UTC. `request` is the body of the MarketDataRequest
    /// that is sent once the source is there, or nothing.
    pub fn new(alloc: Global, names: Names, request: Vec<u8>, moment: i64) -> SourceSession
        ensures { result ≡ unheard names }
    {
        SourceSession {
            framer: Framer::new(alloc),
            listener: Listener::new(alloc, names, request, moment),
        }
    }

    /// How far the connection has come.
    pub fn phase(&self) -> SourcePhase
        ensures { result ≡ self.now.state.phase }
    {
        self.listener.state.phase
    }

    /// Appends our Logon, which comes before anything else that is sent.
    pub fn log_on(&mut self, moment: i64, out: &mut Vec<u8>) -> Result<(), NoMemory>
        ensures { self.new ≡ self.old }
    {
        self.listener.log_on(moment, out)
    }

    /// Works the next piece of the source's bytes: its quotes and what is to be sent are appended to what was said. After a
    /// refusal it is not known how far it was worked, so the connection is to be ended.
    pub fn take(
        &mut self,
        config: &Config,
        piece: &[u8],
        moment: i64,
        said: &mut Said,
    ) -> Result<(), NoMemory>
        requires { IsConfig config.now }
        ensures names { self.new.names ≡ self.old.names }
        ensures adds { OnOk result ((bytes : List ℕ) → StandsFor config.now bytes self.old
            → (added : List MarketQuote) × (said.new.quotes.items ≡ said.old.quotes.items ++ added)
            × Adds config.now bytes piece.now added self.new) }
    {
        self.framer.feed(piece)?;
        work_frames(&mut self.framer, &mut self.listener, config, moment, said)
    }

    /// The clock says a moment. A source that said nothing for three heartbeat intervals ends the connection.
    pub fn tick(&mut self, moment: i64, out: &mut Vec<u8>) -> Result<(), NoMemory>
        ensures names { self.new.names ≡ self.old.names }
        ensures unread { self.new.unread ≡ self.old.unread }
        ensures state { (self.new.state ≡ self.old.state) ⊎ (is_over self.new.state.phase ≡ true) }
    {
        self.listener.tick(moment, out)
    }
}
