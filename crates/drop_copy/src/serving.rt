//! One connection of a drop session, from its first byte to its end.
ghost use Rattle.std.specs.Prelude.{◌≡◌, ◌≢◌, ◌≤◌, ◌<◌, false, length, IfOk};
ghost use Rattle.venue_words.specs.Causes.{Rose};
ghost use Rattle.venue_words.specs.Conditions.{IsConfig};
ghost use Rattle.venue_words.specs.Floors.{IsSetUpFor};
ghost use Rattle.session_core.specs.State.{is_up};
ghost use Rattle.drop_copy.specs.Desks.{AreConfigured, connected_drop};
ghost use Rattle.drop_copy.specs.Sessions.{Connection, CursorsMoved, IsDropEnd, ground};

use crate::desk::DropDesk;
use crate::turns::take_turn;
use io_edge::{Clock, Link};
use link_work::{LinkEnd, ask};
use std::alloc::{AllocError, Global};
use std::sync::Wait;
use venue_core::Seated;
use venue_words::{Config, Floor, Held};

/// How many bytes are pulled at once, at most.
const PULL_BYTES: usize = 16_384;

/// Room for what is pulled at once.
fn buffer_of(alloc: Global) -> Result<Vec<u8>, AllocError>
    ensures { IfOk result (λ buffer. 0 < length buffer.items) }
{
    vec![in alloc; 0u8; PULL_BYTES]
}

/// Takes turns until the connection ends.
fn take_turns<R: Wait, F: Floor, K: Link, C: Clock>(
    rt: &R,
    config: &Config,
    floor: &mut F,
    desk: &mut DropDesk,
    link: &mut K,
    clock: &mut C,
    buffer: &mut [u8],
) -> LinkEnd
    requires config { IsConfig config.now }
    requires setup { IsSetUpFor config.now (F.mark floor.old).setup }
    requires members { AreConfigured desk.old.members config.now }
    requires down { is_up desk.old.session.state ≡ false }
    requires buffer { 0 < length buffer.old }
    ensures connection { Connection F.at (F.reports_in (F.mark floor.old)) config.now desk.old result desk.new
        (ground floor.old (K.told link.old) (C.told clock.old)) (ground floor.new (K.told link.new) (C.told clock.new)) }
    ensures mark { F.mark floor.new ≡ F.mark floor.old }
    ensures later { K.faults link.old ≤ K.faults link.new }
    ensures ends_later { K.ends link.old ≤ K.ends link.new }
    ensures fault { result ≡ LinkEnd.LinkFault → Rose (K.faults link.old) (K.faults link.new) }
    ensures ended { result ≡ LinkEnd.PeerEnd → Rose (K.ends link.old) (K.ends link.new) }
    ensures goes_on { result ≢ LinkEnd.PeerEnd → K.ends link.new ≡ K.ends link.old }
    ensures never { IsDropEnd result }
{
    'turns: for _ in rt.forever() {
        let asked = match ask(link, clock, buffer) {
            Ok(asked) => asked,
            Err(_) => return LinkEnd::LinkFault,
        };
        match take_turn(config, floor, desk, link, asked, buffer) {
            Ok(()) => {}
            Err(end) => return end,
        }
    }
    unreachable!()
}

/// Serves one connection of a drop session, over any floor: see `serve_drop`.
pub fn serve_drop_over<R: Wait, F: Floor, K: Link, C: Clock>(
    rt: &R,
    alloc: Global,
    config: &Config,
    floor: &mut F,
    desk: &mut DropDesk,
    link: &mut K,
    clock: &mut C,
) -> LinkEnd
    requires config { IsConfig config.now }
    requires setup { IsSetUpFor config.now (F.mark floor.old).setup }
    requires members { AreConfigured desk.old.members config.now }

    // What was put, turn by turn, and how it ended. Where the peer ended, what became of the cursors.
    ensures connection { Connection F.at (F.reports_in (F.mark floor.old)) config.now (connected_drop desk.old) result desk.new
        (ground floor.old (K.told link.old) (C.told clock.old)) (ground floor.new (K.told link.new) (C.told clock.new)) }
    ensures cursors { result ≡ LinkEnd.PeerEnd → CursorsMoved F.at (F.reports_in (F.mark floor.old))
        (length config.now.symbols) (connected_drop desk.old) desk.new floor.old floor.new }
    ensures mark { F.mark floor.new ≡ F.mark floor.old }

    // The link failed only where its count of faults rose, and the peer ended exactly where its count of ends did.
    ensures later { K.faults link.old ≤ K.faults link.new }
    ensures ends_later { K.ends link.old ≤ K.ends link.new }
    ensures fault { result ≡ LinkEnd.LinkFault → Rose (K.faults link.old) (K.faults link.new) }
    ensures ended { result ≡ LinkEnd.PeerEnd → Rose (K.ends link.old) (K.ends link.new) }
    ensures goes_on { result ≢ LinkEnd.PeerEnd → K.ends link.new ≡ K.ends link.old }
    ensures never { IsDropEnd result }
{
    desk.open();
    let Ok(mut buffer) = buffer_of(alloc) else {
        return LinkEnd::NoMemory;
    };
    take_turns(rt, config, floor, desk, link, clock, buffer.as_mut_slice())
}

/// Serves one connection of a drop session, over a thread's floor of a venue, until it ends: the session begins a new connection,
/// and in each turn what it sends is put, and then the copies of the listed members' reports past the cursors. Reports that are in
/// no book are not copied.
pub fn serve_drop<'a, R: Wait, V: Held, K: Link, C: Clock>(
    alloc: Global,
    config: &Config,
    floor: &mut Seated<'a, R, V>,
    desk: &mut DropDesk,
    link: &mut K,
    clock: &mut C,
) -> LinkEnd
    requires config { IsConfig config.now }
    requires setup { IsSetUpFor config.now (⟦<Seated<'a, R, V> as Floor>⟧.mark floor.old).setup }
    requires members { AreConfigured desk.old.members config.now }

    // What was put, turn by turn, and how it ended. Where the peer ended, what became of the cursors.
    ensures connection { Connection ⟦<Seated<'a, R, V> as Floor>⟧.at
        (⟦<Seated<'a, R, V> as Floor>⟧.reports_in (⟦<Seated<'a, R, V> as Floor>⟧.mark floor.old))
        config.now (connected_drop desk.old) result desk.new
        (ground floor.old (K.told link.old) (C.told clock.old)) (ground floor.new (K.told link.new) (C.told clock.new)) }
    ensures cursors { result ≡ LinkEnd.PeerEnd → CursorsMoved ⟦<Seated<'a, R, V> as Floor>⟧.at
        (⟦<Seated<'a, R, V> as Floor>⟧.reports_in (⟦<Seated<'a, R, V> as Floor>⟧.mark floor.old))
        (length config.now.symbols) (connected_drop desk.old) desk.new floor.old floor.new }
    ensures mark { ⟦<Seated<'a, R, V> as Floor>⟧.mark floor.new ≡ ⟦<Seated<'a, R, V> as Floor>⟧.mark floor.old }

    // The link failed only where its count of faults rose, and the peer ended exactly where its count of ends did.
    ensures later { K.faults link.old ≤ K.faults link.new }
    ensures ends_later { K.ends link.old ≤ K.ends link.new }
    ensures fault { result ≡ LinkEnd.LinkFault → Rose (K.faults link.old) (K.faults link.new) }
    ensures ended { result ≡ LinkEnd.PeerEnd → Rose (K.ends link.old) (K.ends link.new) }
    ensures goes_on { result ≢ LinkEnd.PeerEnd → K.ends link.new ≡ K.ends link.old }
    ensures never { IsDropEnd result }
{
    let rt = floor.rt;
    serve_drop_over(rt, alloc, config, floor, desk, link, clock)
}
