//! A turn of a drop session over a link.
ghost use Rattle.std.specs.Prelude.{◌≡◌, ◌≢◌, ◌≤◌, ◌<◌, ◌⊎◌, ℕ, length, IfOk, IfErr, OnOk, Err};
ghost use Rattle.venue_words.specs.Causes.{Rose};
ghost use Rattle.venue_words.specs.Conditions.{IsConfig};
ghost use Rattle.venue_words.specs.Floors.{IsSetUpFor};
ghost use Rattle.io_edge.specs.Links.{IsInside};
ghost use Rattle.io_edge.specs.declared.link.Pulled.TheVariants as pulled;
ghost use Rattle.session_core.specs.State.{cause_of};
ghost use Rattle.link_work.specs.Turns.{turn_of};
ghost use Rattle.drop_copy.specs.Desks.{AreConfigured};
ghost use Rattle.drop_copy.specs.Rounds.{GaveUpIn, HeardInput, work_in};
ghost use Rattle.drop_copy.specs.Sessions.{IsDropEnd, StoppedTurn, TookTurn};

use crate::desk::DropDesk;
use io_edge::{Link, Pulled};
use link_work::{Asked, LinkEnd, put_all};
use session_core::Turn;
use venue_words::{Config, Floor};

/// The input of a turn: what the session sends for it at once.
pub fn hear_input(
    desk: &mut DropDesk,
    asked: Asked,
    buffer: &[u8],
) -> Result<Turn<'static>, LinkEnd>
    requires { IsInside asked.pulled buffer.now }
    ensures heard { IfOk result (λ turn. HeardInput (turn_of asked buffer.now) desk.old desk.new) }
    ensures replies { IfOk result (λ turn. turn.replies ≡ (work_in (turn_of asked buffer.now) desk.old).replies) }
    ensures cause { IfOk result (λ turn. turn.ended ≡ cause_of desk.new.session.state.phase) }
    ensures members { desk.new.members ≡ desk.old.members }
    ensures cursors { desk.new.cursors ≡ desk.old.cursors }
    ensures ended { asked.pulled ≡ pulled.End → result ≡ Err LinkEnd.PeerEnd }
    ensures failed { IfErr result (λ end. ((end ≡ LinkEnd.PeerEnd) × (asked.pulled ≡ pulled.End) × (desk.new ≡ desk.old))
        ⊎ ((end ≡ LinkEnd.NoMemory) × GaveUpIn (turn_of asked buffer.now) desk.old desk.new.session)) }
{
    match asked.pulled {
        Pulled::Bytes(count) => match desk.take(asked.moment, &buffer[..count]) {
            Ok(turn) => Ok(turn),
            Err(_) => Err(LinkEnd::NoMemory),
        },
        Pulled::Quiet => match desk.tick(asked.moment) {
            Ok(turn) => Ok(turn),
            Err(_) => Err(LinkEnd::NoMemory),
        },
        Pulled::End => Err(LinkEnd::PeerEnd),
    }
}

/// A whole turn: the session's replies to its input are put, and where the connection goes on, the copies of the listed members'
/// reports past the cursors.
pub fn take_turn<F: Floor, K: Link>(
    config: &Config,
    floor: &mut F,
    desk: &mut DropDesk,
    link: &mut K,
    asked: Asked,
    buffer: &[u8],
) -> Result<(), LinkEnd>
    requires config { IsConfig config.now }
    requires setup { IsSetUpFor config.now (F.mark floor.old).setup }
    requires members { AreConfigured desk.old.members config.now }
    requires inside { IsInside asked.pulled buffer.now }
    ensures took { OnOk result (TookTurn F.at (F.reports_in (F.mark floor.old)) config.now (turn_of asked buffer.now)
        desk.old desk.new floor.old floor.new (K.told link.old) (K.told link.new)) }
    ensures stopped { IfErr result (λ end. StoppedTurn F.at (F.reports_in (F.mark floor.old)) config.now
        (turn_of asked buffer.now) desk.old end desk.new floor.old floor.new (K.told link.old) (K.told link.new)) }
    ensures mark { F.mark floor.new ≡ F.mark floor.old }
    ensures members { desk.new.members ≡ desk.old.members }
    ensures counted { K.ends link.new ≡ K.ends link.old }
    ensures later { K.faults link.old ≤ K.faults link.new }
    ensures fault { result ≡ Err LinkEnd.LinkFault → Rose (K.faults link.old) (K.faults link.new) }
    ensures ended { asked.pulled ≡ pulled.End → result ≡ Err LinkEnd.PeerEnd }
    ensures goes_on { result ≡ Err LinkEnd.PeerEnd → asked.pulled ≡ pulled.End }
    ensures never { IfErr result IsDropEnd }
{
    let turn = match hear_input(desk, asked, buffer) {
        Ok(turn) => turn,
        Err(end) => return Err(end),
    };
    match put_all(link, turn.replies.as_slice()) {
        Ok(()) => {}
        Err(_) => return Err(LinkEnd::LinkFault),
    }
    match turn.ended {
        Some(cause) => return Err(LinkEnd::from(cause)),
        None => {}
    }
    let copies = match desk.pull(floor, config, asked.moment) {
        Ok(copies) => copies,
        Err(_) => return Err(LinkEnd::NoMemory),
    };
    match put_all(link, copies.as_slice()) {
        Ok(()) => Ok(()),
        Err(_) => Err(LinkEnd::LinkFault),
    }
}
