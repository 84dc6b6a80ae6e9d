//! A turn of a member's session over a link.
ghost use Rattle.std.specs.Prelude.{◌≡◌, ◌≢◌, ◌≤◌, ◌<◌, ◌⊎◌, ℕ, Some, None, length, IfOk, IfErr, MatchOption, OnOk, OnErr, Err};
ghost use Rattle.venue_words.specs.Causes.{Rose};
ghost use Rattle.venue_words.specs.Conditions.{IsConfig};
ghost use Rattle.venue_words.specs.Floors.{IsSetUpFor};
ghost use Rattle.io_edge.specs.Links.{Tells, WasPut};
ghost use Rattle.io_edge.specs.Links.Answer.{piece as brought, quiet};
ghost use Rattle.session_core.specs.Machine.{IsUp, on_clock};
ghost use Rattle.session_core.specs.State.{cause_of};
ghost use Rattle.session_core.specs.declared.state.EndCause.{EndCause};
ghost use Rattle.member_gate.specs.Submitting.{Waited};
ghost use Rattle.venue_words.specs.Floors.{TurnsRose};
ghost use Rattle.line_work.specs.Commands.{at_moment};
ghost use Rattle.line_work.specs.LineWork.{fed, ticked, work_of_bytes};
ghost use Rattle.link_work.specs.Ends.{end_of};
ghost use Rattle.link_work.specs.Turns.{LinkTurn, joined};
ghost use Rattle.serve_core.specs.Rounds.{Served, Serves};
ghost use Rattle.serve_core.specs.Turning.{GrewBy, RefusedPiece, ReportsWere, StoppedTurn, TookTurn, TurnWas};

use io_edge::Link;
use line_work::source::Source;
use link_work::{LinkEnd, put_all};
use member_gate::{Desk, DeskRefusal, Turn};
use std::marker::Brand;
use std::sync::ledger::{Blank, Ledger};
use venue_words::{Floor, Steps};

/// Feeds a piece to the desk, with a counter of steps of its own.
fn take_counted<F: Floor, L: Ledger>(
    source: Source<'_>,
    floor: &mut F,
    desk: &mut Desk,
    piece: &[u8],
    blank: Blank,
) -> Result<Turn<'static>, DeskRefusal>
    requires config { IsConfig source.config.now }
    requires setup { IsSetUpFor source.config.now (F.mark floor.old).setup }
    requires own { desk.old.member ≡ source.member }
    requires member { source.member < length source.config.now.members }
    requires blank { (blank.name ≡ L.name) × (blank.parts ≡ L.parts) × (L.parts ≡ 1) }
    ensures serves { OnOk result ((before : Served) → Serves desk.old before → Serves desk.new
        (record before { connection = fed source.entry.config.now source.entry.moment before.connection piece.now })) }
    ensures replies { IfOk result (λ turn. (before : Served) → Serves desk.old before → turn.replies
        ≡ (work_of_bytes source.entry.config.now source.entry.moment before.connection piece.now).replies) }
    ensures ended { IfOk result (λ turn. turn.ended ≡ cause_of desk.new.session.state.phase) }
    ensures grew { OnOk result ((before : Served) → Serves desk.old before → GrewBy F.at source.entry.feed
        (at_moment source.entry.moment (work_of_bytes source.entry.config.now source.entry.moment before.connection piece.now).submissions)
        floor.old floor.new) }
    ensures refused { IfErr result (λ refusal. (before : Served) → Serves desk.old before
        → RefusedPiece F.at (F.mark floor.old) source.entry.config.now source.entry.feed source.entry.moment before.connection
        piece.now refusal desk.new.session floor.old floor.new) }
    ensures mark { F.mark floor.new ≡ F.mark floor.old }
    ensures member { desk.new.member ≡ desk.old.member }
    ensures cursors { desk.new.cursors ≡ desk.old.cursors }
{
    let mut steps: Steps<L> = Steps::start(blank);
    match desk.take(
        floor,
        source.config,
        source.feed,
        source.moment,
        piece,
        &mut steps,
    ) {
        Ok(turn) => Ok(turn),
        Err(refusal) => Err(refusal),
    }
}

/// What is left of a turn behind the session's replies: where the connection goes on, the member's reports are put.
fn put_reports<F: Floor, K: Link>(
    source: Source<'_>,
    floor: &mut F,
    desk: &mut Desk,
    link: &mut K,
) -> Result<(), LinkEnd>
    requires config { IsConfig source.config.now }
    requires setup { IsSetUpFor source.config.now (F.mark floor.old).setup }
    requires own { desk.old.member ≡ source.member }
    requires member { source.member < length source.config.now.members }
    ensures reports { (before : Served) → Serves desk.old before → ReportsWere source.entry.config.now source.entry.moment
        (λ symbol. (F.at floor.new symbol).reports) before desk.new (K.told link.old) (K.told link.new) result }
    ensures waited { (symbol : ℕ) → Waited (F.at floor.old symbol) (F.at floor.new symbol) }
    ensures turns { OnOk result (IsUp desk.old.session → (symbol : ℕ) → symbol < length source.entry.config.now.symbols
        → TurnsRose (F.at floor.old symbol).turns (F.at floor.new symbol).turns) }
    ensures mark { F.mark floor.new ≡ F.mark floor.old }
    ensures member { desk.new.member ≡ desk.old.member }
    ensures end { K.ends link.new ≡ K.ends link.old }
    ensures later { K.faults link.old ≤ K.faults link.new }
    ensures fault { result ≡ Err LinkEnd.LinkFault → Rose (K.faults link.old) (K.faults link.new) }
    ensures others { (result ≢ Err LinkEnd.PeerEnd) × (result ≢ Err LinkEnd.InUse) }
{
    let reports = match desk.pull(floor, source.config, source.moment) {
        Ok(reports) => reports,
        Err(_) => return Err(LinkEnd::NoMemory),
    };
    match put_all(link, reports.as_slice()) {
        Ok(()) => Ok(()),
        Err(_) => Err(LinkEnd::LinkFault),
    }
}

/// The end that a turn of the session says, if it ended the connection.
fn end_in(turn: &Turn<'_>) -> Option<LinkEnd>
    ensures { MatchOption result (turn.now.ended ≡ None) (λ end. (cause : EndCause) × (turn.now.ended ≡ Some cause)
        × (end ≡ end_of cause)) }
{
    match turn.ended {
        Some(cause) => Some(LinkEnd::from(cause)),
        None => None,
    }
}

/// Puts what a turn of the session sends, and where the connection goes on, the member's reports.
fn put_turn<F: Floor, K: Link>(
    source: Source<'_>,
    floor: &mut F,
    desk: &mut Desk,
    link: &mut K,
    turn: &Turn<'_>,
) -> Result<(), LinkEnd>
    requires config { IsConfig source.config.now }
    requires setup { IsSetUpFor source.config.now (F.mark floor.old).setup }
    requires own { desk.old.member ≡ source.member }
    requires member { source.member < length source.config.now.members }
    requires ended { turn.now.ended ≡ cause_of desk.old.session.state.phase }
    ensures turn { (mid : Served) → Serves desk.old mid → TurnWas source.entry.config.now source.entry.moment turn.now.replies
        (λ symbol. (F.at floor.new symbol).reports) mid desk.new (K.told link.old) (K.told link.new) result }
    ensures waited { (symbol : ℕ) → Waited (F.at floor.old symbol) (F.at floor.new symbol) }
    ensures turns { OnOk result (IsUp desk.old.session → (symbol : ℕ) → symbol < length source.entry.config.now.symbols
        → TurnsRose (F.at floor.old symbol).turns (F.at floor.new symbol).turns) }
    ensures mark { F.mark floor.new ≡ F.mark floor.old }
    ensures member { desk.new.member ≡ desk.old.member }
    ensures end { K.ends link.new ≡ K.ends link.old }
    ensures later { K.faults link.old ≤ K.faults link.new }
    ensures fault { result ≡ Err LinkEnd.LinkFault → Rose (K.faults link.old) (K.faults link.new) }
    ensures others { (result ≢ Err LinkEnd.PeerEnd) × (result ≢ Err LinkEnd.InUse) }
{
    match put_all(link, turn.replies.as_slice()) {
        Ok(()) => {}
        Err(_) => return Err(LinkEnd::LinkFault),
    }
    match end_in(turn) {
        Some(end) => Err(end),
        None => put_reports(source, floor, desk, link),
    }
}

/// Lets the other links know of commands that were submitted, if there were any.
fn ring_for<K: Link>(link: &mut K, submitted: u32)
    ensures told { K.told link.new ≡ K.told link.old }
    ensures end { K.ends link.new ≡ K.ends link.old }
    ensures faults { K.faults link.new ≡ K.faults link.old }
{
    if submitted > 0 {
        link.ring();
    }
}

/// A turn that brought bytes: the desk takes them, what the session sends is put, and then the member's reports. Where commands
/// were submitted the other links are rung, also behind a refusal.
pub fn on_piece<F: Floor, K: Link>(
    source: Source<'_>,
    floor: &mut F,
    desk: &mut Desk,
    link: &mut K,
    piece: &[u8],
) -> Result<(), LinkEnd>
    requires config { IsConfig source.config.now }
    requires setup { IsSetUpFor source.config.now (F.mark floor.old).setup }
    requires own { desk.old.member ≡ source.member }
    requires member { source.member < length source.config.now.members }
    ensures took { OnOk result ((before : Served) → Serves desk.old before → TookTurn F.at source.entry.config.now
        source.entry.feed (record { answer = brought piece.now; moment = source.entry.moment }) before desk.new floor.old floor.new
        (K.told link.old) (K.told link.new)) }
    ensures stopped { IfErr result (λ end. (before : Served) → Serves desk.old before → StoppedTurn F.at (F.mark floor.old)
        source.entry.config.now source.entry.feed (record { answer = brought piece.now; moment = source.entry.moment }) before end desk.new
        floor.old floor.new (K.told link.old) (K.told link.new)) }
    ensures mark { F.mark floor.new ≡ F.mark floor.old }
    ensures member { desk.new.member ≡ desk.old.member }
    ensures end { K.ends link.new ≡ K.ends link.old }
    ensures later { K.faults link.old ≤ K.faults link.new }
    ensures fault { result ≡ Err LinkEnd.LinkFault → Rose (K.faults link.old) (K.faults link.new) }
    ensures others { (result ≢ Err LinkEnd.PeerEnd) × (result ≢ Err LinkEnd.InUse) }
{
    let taken = take_counted::<F, Brand>(source, floor, desk, piece, Blank::new(1));
    ring_for(link, desk.submitted());
    match taken {
        Ok(turn) => match put_turn(source, floor, desk, link, &turn) {
            Ok(()) => Ok(()),
            Err(end) => Err(end),
        },
        Err(refusal) => Err(LinkEnd::from(refusal)),
    }
}

/// A turn in which nothing came: the session hears of the moment, what it sends is put, and then the member's reports.
pub fn on_quiet<F: Floor, K: Link>(
    source: Source<'_>,
    floor: &mut F,
    desk: &mut Desk,
    link: &mut K,
) -> Result<(), LinkEnd>
    requires config { IsConfig source.config.now }
    requires setup { IsSetUpFor source.config.now (F.mark floor.old).setup }
    requires own { desk.old.member ≡ source.member }
    requires member { source.member < length source.config.now.members }
    ensures took { OnOk result ((before : Served) → Serves desk.old before → TookTurn F.at source.entry.config.now
        source.entry.feed (record { answer = quiet; moment = source.entry.moment }) before desk.new floor.old floor.new
        (K.told link.old) (K.told link.new)) }
    ensures stopped { IfErr result (λ end. (before : Served) → Serves desk.old before → StoppedTurn F.at (F.mark floor.old)
        source.entry.config.now source.entry.feed (record { answer = quiet; moment = source.entry.moment }) before end desk.new
        floor.old floor.new (K.told link.old) (K.told link.new)) }
    ensures mark { F.mark floor.new ≡ F.mark floor.old }
    ensures member { desk.new.member ≡ desk.old.member }
    ensures end { K.ends link.new ≡ K.ends link.old }
    ensures later { K.faults link.old ≤ K.faults link.new }
    ensures fault { result ≡ Err LinkEnd.LinkFault → Rose (K.faults link.old) (K.faults link.new) }
    ensures others { (result ≢ Err LinkEnd.PeerEnd) × (result ≢ Err LinkEnd.InUse) }
{
    match desk.tick(source.moment) {
        Ok(turn) => match put_turn(source, floor, desk, link, &turn) {
            Ok(()) => Ok(()),
            Err(end) => Err(end),
        },
        Err(_) => Err(LinkEnd::NoMemory),
    }
}
