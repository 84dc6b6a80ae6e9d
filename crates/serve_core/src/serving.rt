//! One connection, from its first byte to its end.
ghost use Rattle.std.specs.Prelude.{◌≡◌, ◌≢◌, ◌≤◌, ◌<◌, ◌++◌, Ok, Err, None, length, IfOk, IfErr, IfSome, OnOk};
ghost use Rattle.venue_core.specs.Marks.{mark_of};
ghost use Rattle.venue_words.specs.Causes.{Rose};
ghost use Rattle.venue_words.specs.Conditions.{IsConfig};
ghost use Rattle.venue_words.specs.Floors.{IsSetUpFor};
ghost use Rattle.venue_words.specs.declared.limits.TheConstants.{MAX_MEMBERS};
ghost use Rattle.io_edge.specs.Links.{IsInside, answer_of};
ghost use Rattle.session_core.specs.declared.state.EndCause.{EndCause};
ghost use Rattle.link_work.specs.Ends.{end_of};
ghost use Rattle.serve_core.specs.Connections.{Connects, Visits, first_turn, seen_at, served_by};
ghost use Rattle.serve_core.specs.Greeting.{IsAmong, SayTheSame, greeting_of};
ghost use Rattle.serve_core.specs.Naming.{EndsUnnamed, Named, Stranger, bytes_in, edge};
ghost use Rattle.serve_core.specs.Rounds.{Served, Serves};
ghost use Rattle.serve_core.specs.Sessions.{Session, TurnEnds, ground};
ghost use Rattle.serve_core.specs.Turning.{TookTurn};

use crate::greeting::{Greeting, hear};
use crate::turns::{on_piece, on_quiet};
use fix_frames::Framer;
use io_edge::{Clock, Link, Pulled};
use line_work::source::Source;
use link_work::{LinkEnd, ask};
use member_gate::{Desk, Desks};
use std::alloc::Global;
use std::sync::Wait;
use symbol_book::Book;
use venue_core::Seated;
use venue_words::{Config, Floor, NoMemory};

/// How many bytes are pulled at once, at most.
const PULL_BYTES: usize = 16_384;

/// A connection whose member is known: the moment at which he was, and all bytes that had come by then.
#[derive(Drop)]
struct Greeted {
    member: u32,
    moment: i64,
    bytes: Vec<u8>,
}

/// Room for what is pulled at once.
fn buffer_of(alloc: Global) -> Result<Vec<u8>, NoMemory>
    ensures { IfOk result (λ buffer. 0 < length buffer.items) }
{
    Ok(vec![in alloc; 0u8; PULL_BYTES]?)
}

/// Takes a piece behind the bytes that came before: what all of them say.
fn hear_piece(
    alloc: Global,
    config: &Config,
    framer: &mut Framer,
    bytes: &mut Vec<u8>,
    piece: &[u8],
) -> Result<Greeting, NoMemory>
    requires members { length config.now.members ≤ MAX_MEMBERS }
    requires heard { SayTheSame config.now bytes.old.items framer.old.kept }
    ensures bytes { OnOk result (bytes.new.items ≡ bytes.old.items ++ piece.now) }
    ensures said { IfOk result (λ greeting. greeting ≡ greeting_of config.now (bytes.old.items ++ piece.now)) }
    ensures on { result ≡ Ok Greeting.Unnamed → SayTheSame config.now (bytes.old.items ++ piece.now) framer.new.kept }
    ensures member { IfOk result (IsAmong (length config.now.members)) }
{
    bytes.extend_from_slice(piece)?;
    hear(alloc, config, framer, piece)
}

/// The number of the member who is named, if one is.
fn named_by(greeting: Greeting) -> Result<Option<u32>, LinkEnd>
    ensures unnamed { result ≡ Ok None → greeting ≡ Greeting.Unnamed }
    ensures named { IfOk result (λ said. IfSome said (λ member. greeting ≡ Greeting.Member member)) }
    ensures refused { IfErr result (λ end. (cause : EndCause) × (greeting ≡ Greeting.Refused cause) × (end ≡ end_of cause)) }
{
    match greeting {
        Greeting::Unnamed => Ok(None),
        Greeting::Member(member) => Ok(Some(member)),
        Greeting::Refused(cause) => Err(LinkEnd::from(cause)),
    }
}

/// Takes a turn of a connection whose member is not known: his number, where what comes now names him.
fn greet_turn(
    alloc: Global,
    config: &Config,
    framer: &mut Framer,
    bytes: &mut Vec<u8>,
    pulled: Pulled,
    buffer: &[u8],
) -> Result<Option<u32>, LinkEnd>
    requires members { length config.now.members ≤ MAX_MEMBERS }
    requires inside { IsInside pulled buffer.now }
    requires heard { SayTheSame config.now bytes.old.items framer.old.kept }
    requires unnamed { greeting_of config.now bytes.old.items ≡ Greeting.Unnamed }
    ensures bytes { OnOk result (bytes.new.items ≡ bytes.old.items ++ bytes_in (answer_of pulled buffer.now)) }
    ensures on { result ≡ Ok None → SayTheSame config.now bytes.new.items framer.new.kept }
    ensures unnamed { result ≡ Ok None → greeting_of config.now bytes.new.items ≡ Greeting.Unnamed }
    ensures named { IfOk result (λ said. IfSome said (λ member. greeting_of config.now bytes.new.items ≡ Greeting.Member member)) }
    ensures member { IfOk result (λ said. IfSome said (λ member. member < length config.now.members)) }
    ensures ends { IfErr result (λ end. EndsUnnamed config.now (bytes.old.items ++ bytes_in (answer_of pulled buffer.now))
        (answer_of pulled buffer.now) end) }
    ensures ended { pulled ≡ Pulled.End → result ≡ Err LinkEnd.PeerEnd }
    ensures others { (result ≡ Err LinkEnd.PeerEnd → pulled ≡ Pulled.End)
        × (result ≢ Err LinkEnd.InUse) × (result ≢ Err LinkEnd.LinkFault) }
{
    match pulled {
        Pulled::Bytes(count) => match hear_piece(alloc, config, framer, bytes, &buffer[..count]) {
            Ok(greeting) => named_by(greeting),
            Err(_) => Err(LinkEnd::NoMemory),
        },
        Pulled::Quiet => Ok(None),
        Pulled::End => Err(LinkEnd::PeerEnd),
    }
}

/// Takes turns until a frame names the member.
fn greet<R: Wait, K: Link, C: Clock>(
    rt: &R,
    alloc: Global,
    config: &Config,
    link: &mut K,
    clock: &mut C,
    buffer: &mut [u8],
) -> Result<Greeted, LinkEnd>
    requires config { IsConfig config.now }
    requires buffer { 0 < length buffer.old }
    ensures named { IfOk result (λ greeted. Named config.now greeted.member greeted.moment greeted.bytes.items
        (edge (K.told link.old) (C.told clock.old)) (edge (K.told link.new) (C.told clock.new))) }
    ensures stranger { IfErr result (λ end. Stranger config.now end
        (edge (K.told link.old) (C.told clock.old)) (edge (K.told link.new) (C.told clock.new))) }
    ensures member { IfOk result (λ greeted. greeted.member < length config.now.members) }
    ensures in_use { result ≢ Err LinkEnd.InUse }
    ensures later { K.faults link.old ≤ K.faults link.new }
    ensures ends_later { K.ends link.old ≤ K.ends link.new }
    ensures fault { result ≡ Err LinkEnd.LinkFault → Rose (K.faults link.old) (K.faults link.new) }
    ensures ended { result ≡ Err LinkEnd.PeerEnd → Rose (K.ends link.old) (K.ends link.new) }
    ensures goes_on { result ≢ Err LinkEnd.PeerEnd → K.ends link.new ≡ K.ends link.old }
{
    let mut bytes = Vec::new(alloc);
    let mut framer = Framer::new(alloc);
    'turns: for _ in rt.forever() {
        let asked = match ask(link, clock, buffer) {
            Ok(asked) => asked,
            Err(_) => return Err(LinkEnd::LinkFault),
        };
        let moment = asked.moment;
        match greet_turn(alloc, config, &mut framer, &mut bytes, asked.pulled, buffer) {
            Ok(None) => {}
            Ok(Some(member)) => {
                return Ok(Greeted {
                    member,
                    moment,
                    bytes,
                });
            }
            Err(end) => return Err(end),
        }
    }
    unreachable!()
}

/// Takes a turn by what the link gave.
fn take_turn<F: Floor, K: Link>(
    source: Source<'_>,
    floor: &mut F,
    desk: &mut Desk,
    link: &mut K,
    pulled: Pulled,
    buffer: &[u8],
) -> Result<(), LinkEnd>
    requires config { IsConfig source.config.now }
    requires setup { IsSetUpFor source.config.now (F.mark floor.old).setup }
    requires own { desk.old.member ≡ source.member }
    requires member { source.member < length source.config.now.members }
    requires inside { IsInside pulled buffer.now }
    ensures took { OnOk result ((before : Served) → Serves desk.old before → TookTurn F.at source.entry.config.now
        source.entry.feed (record { answer = answer_of pulled buffer.now; moment = source.entry.moment }) before desk.new
        floor.old floor.new (K.told link.old) (K.told link.new)) }
    ensures ends { IfErr result (λ end. (before : Served) → Serves desk.old before → TurnEnds F.at (F.mark floor.old)
        source.entry.config.now source.entry.feed (record { answer = answer_of pulled buffer.now; moment = source.entry.moment })
        before end desk.new floor.old floor.new (K.told link.old) (K.told link.new)) }
    ensures mark { F.mark floor.new ≡ F.mark floor.old }
    ensures member { desk.new.member ≡ desk.old.member }
    ensures counted { K.ends link.new ≡ K.ends link.old }
    ensures later { K.faults link.old ≤ K.faults link.new }
    ensures fault { result ≡ Err LinkEnd.LinkFault → Rose (K.faults link.old) (K.faults link.new) }
    ensures ended { pulled ≡ Pulled.End → result ≡ Err LinkEnd.PeerEnd }
    ensures others { (result ≡ Err LinkEnd.PeerEnd → pulled ≡ Pulled.End) × (result ≢ Err LinkEnd.InUse) }
{
    match pulled {
        Pulled::Bytes(count) => on_piece(source, floor, desk, link, &buffer[..count]),
        Pulled::Quiet => on_quiet(source, floor, desk, link),
        Pulled::End => Err(LinkEnd::PeerEnd),
    }
}

/// Takes turns with a member's desk until the connection ends.
fn take_turns<R: Wait, F: Floor, K: Link, C: Clock>(
    rt: &R,
    source: Source<'_>,
    floor: &mut F,
    desk: &mut Desk,
    link: &mut K,
    clock: &mut C,
    buffer: &mut [u8],
) -> LinkEnd
    requires config { IsConfig source.config.now }
    requires setup { IsSetUpFor source.config.now (F.mark floor.old).setup }
    requires own { desk.old.member ≡ source.member }
    requires member { source.member < length source.config.now.members }
    requires buffer { 0 < length buffer.old }
    ensures session { (start : Served) → Serves desk.old start → Session F.at (F.mark floor.old)
        source.entry.config.now source.entry.feed start result desk.new
        (ground floor.old (K.told link.old) (C.told clock.old)) (ground floor.new (K.told link.new) (C.told clock.new)) }
    ensures mark { F.mark floor.new ≡ F.mark floor.old }
    ensures member { desk.new.member ≡ desk.old.member }
    ensures in_use { result ≢ LinkEnd.InUse }
    ensures later { K.faults link.old ≤ K.faults link.new }
    ensures ends_later { K.ends link.old ≤ K.ends link.new }
    ensures fault { result ≡ LinkEnd.LinkFault → Rose (K.faults link.old) (K.faults link.new) }
    ensures ended { result ≡ LinkEnd.PeerEnd → Rose (K.ends link.old) (K.ends link.new) }
    ensures goes_on { result ≢ LinkEnd.PeerEnd → K.ends link.new ≡ K.ends link.old }
{
    'turns: for _ in rt.forever() {
        let asked = match ask(link, clock, buffer) {
            Ok(asked) => asked,
            Err(_) => return LinkEnd::LinkFault,
        };
        let source = Source {
            moment: asked.moment,
            ..source
        };
        match take_turn(source, floor, desk, link, asked.pulled, buffer) {
            Ok(()) => {}
            Err(end) => return end,
        }
    }
    unreachable!()
}

/// Serves a connection whose member is known, over his desk, from the bytes that named him on.
fn serve_member<R: Wait, F: Floor, K: Link, C: Clock>(
    rt: &R,
    source: Source<'_>,
    floor: &mut F,
    desk: &mut Desk,
    link: &mut K,
    clock: &mut C,
    first: &[u8],
    buffer: &mut [u8],
) -> LinkEnd
    requires config { IsConfig source.config.now }
    requires setup { IsSetUpFor source.config.now (F.mark floor.old).setup }
    requires own { desk.old.member ≡ source.member }
    requires member { source.member < length source.config.now.members }
    requires buffer { 0 < length buffer.old }
    ensures visits { Visits F.at (F.mark floor.old) source.entry.config.now source.entry.feed
        (first_turn first.now source.entry.moment) (served_by desk.old) result desk.new
        (ground floor.old (K.told link.old) (C.told clock.old)) (ground floor.new (K.told link.new) (C.told clock.new)) }
    ensures mark { F.mark floor.new ≡ F.mark floor.old }
    ensures member { desk.new.member ≡ desk.old.member }
    ensures in_use { result ≢ LinkEnd.InUse }
    ensures later { K.faults link.old ≤ K.faults link.new }
    ensures ends_later { K.ends link.old ≤ K.ends link.new }
    ensures fault { result ≡ LinkEnd.LinkFault → Rose (K.faults link.old) (K.faults link.new) }
    ensures ended { result ≡ LinkEnd.PeerEnd → Rose (K.ends link.old) (K.ends link.new) }
    ensures goes_on { result ≢ LinkEnd.PeerEnd → K.ends link.new ≡ K.ends link.old }
{
    desk.open();
    match on_piece(source, floor, desk, link, first) {
        Ok(()) => take_turns(rt, source, floor, desk, link, clock, buffer),
        Err(end) => end,
    }
}

/// Serves one connection, over any floor.
pub fn serve_over<R: Wait, F: Floor, K: Link, C: Clock, D: Desks>(
    rt: &R,
    alloc: Global,
    config: &Config,
    floor: &mut F,
    desks: &mut D,
    link: &mut K,
    clock: &mut C,
) -> LinkEnd
    requires config { IsConfig config.now }
    requires setup { IsSetUpFor config.now (F.mark floor.old).setup }
    requires desks { D.members desks.old ≡ length config.now.members }

    // How the connection ended, and all that it did by then.
    ensures connection { Connects F.at (F.mark floor.old) config.now result
        (ground floor.old (K.told link.old) (C.told clock.old)) (ground floor.new (K.told link.new) (C.told clock.new))
        (D.told desks.old) (D.told desks.new) }

    ensures mark { F.mark floor.new ≡ F.mark floor.old }

    // The link failed only where its count of faults rose, and the peer ended exactly where its count of ends did.
    ensures later { K.faults link.old ≤ K.faults link.new }
    ensures ends_later { K.ends link.old ≤ K.ends link.new }
    ensures fault { result ≡ LinkEnd.LinkFault → Rose (K.faults link.old) (K.faults link.new) }
    ensures ended { result ≡ LinkEnd.PeerEnd → Rose (K.ends link.old) (K.ends link.new) }
    ensures goes_on { result ≢ LinkEnd.PeerEnd → K.ends link.new ≡ K.ends link.old }

    // The member's desk was not there only where the count of refusals rose.
    ensures in_use { result ≡ LinkEnd.InUse → Rose (D.refused desks.old) (D.refused desks.new) }
    ensures refused { D.refused desks.old ≤ D.refused desks.new }
    ensures members { D.members desks.new ≡ D.members desks.old }
{
    let Ok(mut buffer) = buffer_of(alloc) else {
        return LinkEnd::NoMemory;
    };
    let greeted = match greet(rt, alloc, config, link, clock, buffer.as_mut_slice()) {
        Ok(greeted) => greeted,
        Err(end) => return end,
    };
    let member = greeted.member;
    let Some(mut desk) = desks.take(member) else {
        return LinkEnd::InUse;
    };
    let source = Source {
        config,
        member,
        feed: member + 1,
        moment: greeted.moment,
    };
    let end = serve_member(
        rt,
        source,
        floor,
        &mut desk,
        link,
        clock,
        greeted.bytes.as_slice(),
        buffer.as_mut_slice(),
    );
    desks.give(member, desk);
    end
}

/// Serves one connection of a venue: see `serve_over`.
pub fn serve_link<R: Wait, K: Link, C: Clock, D: Desks>(
    alloc: Global,
    config: &Config,
    floor: &mut Seated<'_, R, Book>,
    desks: &mut D,
    link: &mut K,
    clock: &mut C,
) -> LinkEnd
    requires config { IsConfig config.now }
    requires setup { IsSetUpFor config.now (mark_of floor.old.venue.now floor.old.seats).setup }
    requires desks { D.members desks.old ≡ length config.now.members }

    // How the connection ended, and all that it did by then; the floor shows of a symbol what its seat has seen.
    ensures connection { Connects (λ seated symbol. seen_at seated.seats symbol)
        (mark_of floor.old.venue.now floor.old.seats) config.now result
        (ground floor.old (K.told link.old) (C.told clock.old)) (ground floor.new (K.told link.new) (C.told clock.new))
        (D.told desks.old) (D.told desks.new) }

    ensures mark { mark_of floor.new.venue.now floor.new.seats ≡ mark_of floor.old.venue.now floor.old.seats }

    // The link failed only where its count of faults rose, and the peer ended exactly where its count of ends did.
    ensures later { K.faults link.old ≤ K.faults link.new }
    ensures ends_later { K.ends link.old ≤ K.ends link.new }
    ensures fault { result ≡ LinkEnd.LinkFault → Rose (K.faults link.old) (K.faults link.new) }
    ensures ended { result ≡ LinkEnd.PeerEnd → Rose (K.ends link.old) (K.ends link.new) }
    ensures goes_on { result ≢ LinkEnd.PeerEnd → K.ends link.new ≡ K.ends link.old }

    // The member's desk was not there only where the count of refusals rose.
    ensures in_use { result ≡ LinkEnd.InUse → Rose (D.refused desks.old) (D.refused desks.new) }
    ensures refused { D.refused desks.old ≤ D.refused desks.new }
    ensures members { D.members desks.new ≡ D.members desks.old }
{
    let rt = floor.rt;
    serve_over(rt, alloc, config, floor, desks, link, clock)
}
