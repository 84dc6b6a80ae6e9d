//! The edge of a live day.
ghost use Rattle.std.specs.Prelude.{◌≡◌, [], ℕ, IfOk};
ghost use Rattle.venue_words.specs.Conditions.{IsConfig};
ghost use Rattle.live_edge.specs.Joins.{IsRun};
ghost use Rattle.live_words.specs.Frames.{frames_of};

use crate::connections::Connections;
use crate::desk::{Desk, MAX_READ_BYTES};
use crate::outside::Outside;
use crate::silence::markets_of;
use crate::turns::Turns;
use io_edge::{Clock, Failed};
use live_core::{Edge, Going};
use live_words::{Access, Setup};
use script_text::words::script_moment;
use std::alloc::{AllocError, Global};
use std::marker::Model;
use venue_words::{Bytes, Config};

/// Members' connections and operators, over the outside. Contracts see it as the lines that it brought, the lines of transcripts that
/// were put, its count of faults, the rounds that it has left, and the members' names.
#[derive(Drop)]
pub struct LiveEdge<O: Outside, C: Clock> {
    desk: Desk<O, C>,
}

impl<O: Outside, C: Clock> Model for LiveEdge<O, C> {
    ghost use Rattle.std.specs.Prelude.{◌+◌};
    ghost use Rattle.live_edge.specs.Edges.{Edged, IsEdge};

    ghost Value = { Edged };

    ghost view = { λ e. record {
      brought = e.desk.connections.story.tale.brought;
      told = e.desk.connections.story.tale.told;
      faults = O.faults e.desk.connections.outside + e.desk.connections.faults;
      left = e.desk.left;
      names = e.desk.setup.members;
    } };

    ghost invariant = { λ e. IsEdge e.desk.connections.story.tale e.desk.setup.members e.desk.connections.table (O.came e.desk.connections.outside) (O.went e.desk.connections.outside) };
}

/// The moment that a line `T` of a journal says.
fn moment_in(line: &[u8]) -> Option<i64> {
    if line.starts_with(b"T ") {
        script_moment(&line[2..])
    } else {
        None
    }
}

/// The moment that the last line `T` of a journal says, and another where there is none.
fn last_moment(had: &[Bytes], begin: i64) -> i64 {
    let mut last = begin;
    for line in had {
        last = moment_in(line.as_slice()).unwrap_or(last);
    }
    last
}

impl<O: Outside + Drop, C: Clock + Drop> LiveEdge<O, C> {
    /// An edge before its first round, at which members log on as the access lets them. Time begins at the moment of the config, and
    /// goes on from the journal's last. The quotes of a market of which nothing comes for `stale` milliseconds are taken away; 0 is no
    /// limit.
    pub fn new(
        alloc: Global,
        outside: O,
        clock: C,
        config: Config,
        access: Access,
        stale: u64,
    ) -> Result<LiveEdge<O, C>, AllocError>
        requires config { IsConfig config }
        requires fresh { (port : ℕ) → O.went outside port ≡ [] }
        ensures brought { IfOk result (λ edge. edge.brought ≡ []) }
        ensures told { IfOk result (λ edge. edge.told ≡ []) }
        ensures names { IfOk result (λ edge. edge.names ≡ config.members) }
    {
        let begin = config.begin;
        let members = config.members.len();
        let symbols = config.symbols.len();
        let markets = markets_of(alloc, config.markets.len(), symbols)?;
        let connections = Connections::new(alloc, outside, members)?;
        Ok(LiveEdge {
            desk: Desk {
                connections,
                clock,
                setup: Setup::new(config),
                access,
                room: vec![in alloc; 0; MAX_READ_BYTES]?,
                word: Vec::new(alloc),
                last: begin,
                start: 0,
                busy: false,
                stop: false,
                named: vec![in alloc; u64::MAX; members]?,
                turns: vec![in alloc; Turns::new(); members]?,
                now: 0,
                left: u64::MAX,
                rounds: 0,
                lines: 0,
                bytes: 0,
                halted: vec![in alloc; false; symbols]?,
                markets,
                stale,
            },
        })
    }
}

impl<O: Outside, C: Clock> LiveEdge<O, C> {
    /// The outside. At any moment of a day all that a port took of its connection is a run of the frames that the lines which were put
    /// have for one member.
    pub fn outside(&self) -> &O
        ensures took { (port : ℕ) → IsRun (O.went result.now port) (λ member. frames_of self.now.names member self.now.told) }
    {
        &self.desk.connections.outside
    }
}

impl<O: Outside, C: Clock> Edge for LiveEdge<O, C> {
    ghost use Rattle.live_words.specs.Lines.{text_of_lines};

    ghost faults = { λ e. e.faults };

    ghost brought = { λ e. e.brought };

    ghost told = { λ e. text_of_lines e.told };

    ghost rounds_left = { λ e. e.left };

    fn begin(&mut self, had: &[Bytes]) {
        self.desk.last = last_moment(had, self.desk.last);
        self.desk.begin_markets(had);
    }

    fn round(&mut self, lines: &mut Vec<Bytes>) -> Result<Going, Failed> {
        self.desk.round(lines)
    }

    fn put(&mut self, text: &[u8]) -> Result<(), Failed> {
        self.desk.connections.put_text(&self.desk.setup, text)
    }
}
