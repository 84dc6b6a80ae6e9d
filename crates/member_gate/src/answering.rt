//! What a message that the session hands out gets.
ghost use Rattle.std.specs.Prelude.{◌≡◌, ◌+◌, ◌<◌, ◌∷◌, [], length, Err, IfOk, OnOk, OnErr, IfErr, IsSome};
ghost use Rattle.std.specs.Option.{option_to_list};
ghost use Rattle.venue_words.specs.Conditions.{IsConfig};
ghost use Rattle.venue_words.specs.Floors.{IsSetUpFor};
ghost use Rattle.fix_write.specs.declared.message_type.MessageType.TheVariants.{BusinessReject};
ghost use Rattle.session_core.specs.Lookup.{text_in};
ghost use Rattle.session_core.specs.Machine.{IsUp, on_send_one};
ghost use Rattle.member_gate.specs.Answering.{answer, answer_to, answer_stray, business_body, name_at};
ghost use Rattle.member_gate.specs.declared.refusal.DeskRefusal.TheVariants.{NoMemory as no_memory};
ghost use Rattle.member_gate.specs.Submitting.{TookAll, TookNone};

use crate::business::business_body;
use crate::names::name_at;
use crate::origin::Origin;
use crate::refusal::DeskRefusal;
use crate::submitting::submit;
use exec_reports::{body, kind};
use fix_write::MessageType;
use order_fields::tags::SYMBOL;
use order_fields::{Decoded, Refusal, read_order};
use session_core::lookup::text_in;
use session_core::tags::MSG_TYPE;
use session_core::{Request, Session};
use std::alloc::Global;
use std::sync::ledger::Ledger;
use venue_words::{Bytes, Floor, NoMemory, Report, Steps};

/// Answers a message whose type is not that of an order.
fn answer_business(
    alloc: Global,
    session: &mut Session,
    request: &Request<'_>,
    moment: i64,
) -> Result<Bytes, NoMemory>
    requires { IsUp session.old }
    ensures session { OnOk result (session.new ≡ (on_send_one session.old BusinessReject
        (business_body request.now.number (text_in MSG_TYPE request.now.fields)) moment).machine) }
    ensures reply { IfOk result (λ frame. frame ∷ [] ≡ (on_send_one session.old BusinessReject
        (business_body request.now.number (text_in MSG_TYPE request.now.fields)) moment).turn.replies) }
    ensures err { OnErr result (session.new ≡ session.old) }
{
    let kind = text_in(MSG_TYPE, &request.fields);
    let body = business_body(alloc, request.number, kind)?;
    session.send(MessageType::BusinessReject, &body, moment)
}

/// Sends the report that answers an order of a symbol that is not configured. It stands apart, so that what is accepted does
/// not clear its locals.
#[inline(never)]
fn answer_stray(
    session: &mut Session,
    origin: Origin<'_>,
    request: &Request<'_>,
    report: &Report,
) -> Result<Option<Bytes>, DeskRefusal>
    requires { IsUp session.old }
    ensures session { OnOk result (session.new
        ≡ (answer_stray (name_at origin.entry.config.now.members origin.entry.member) origin.entry.moment
        session.old request.now report.now).session) }
    ensures reply { IfOk result (λ reply. option_to_list reply
        ≡ (answer_stray (name_at origin.entry.config.now.members origin.entry.member) origin.entry.moment
        session.old request.now report.now).replies) }
    ensures some { IfOk result IsSome }
    ensures err { OnErr result (session.new ≡ session.old) }
    ensures none { IfErr result (λ refusal. refusal ≡ no_memory) }
{
    let symbol = text_in(SYMBOL, &request.fields);
    let name = name_at(origin.config.members.as_slice(), origin.member);
    let body = body(origin.alloc, report, symbol, name)?;
    Ok(Some(session.send(kind(report), &body, origin.moment)?))
}

/// Answers a message that is refused. It stands apart, as `answer_stray` does.
#[inline(never)]
fn answer_refused(
    session: &mut Session,
    origin: Origin<'_>,
    request: &Request<'_>,
    refusal: Refusal,
) -> Result<Option<Bytes>, DeskRefusal>
    requires { IsUp session.old }
    ensures session { OnOk result (session.new
        ≡ (answer_to (name_at origin.entry.config.now.members origin.entry.member) origin.entry.moment
        session.old request.now (Err refusal)).session) }
    ensures reply { IfOk result (λ reply. option_to_list reply
        ≡ (answer_to (name_at origin.entry.config.now.members origin.entry.member) origin.entry.moment
        session.old request.now (Err refusal)).replies) }
    ensures some { IfOk result IsSome }
    ensures err { OnErr result (session.new ≡ session.old) }
    ensures none { IfErr result (λ refusal. refusal ≡ no_memory) }
{
    match refusal {
        Refusal::Reject { reason, tag } => {
            let moment = origin.moment;
            Ok(Some(session.reject(request.number, request.kind, tag, reason, moment)?))
        }
        Refusal::Business => {
            Ok(Some(answer_business(origin.alloc, session, request, origin.moment)?))
        }
        Refusal::NoMemory => Err(DeskRefusal::NoMemory),
    }
}

/// Works a message that the session handed out: it is answered at once, or, where no answer comes, a command goes to a
/// book. After a refusal the session is as it was.
#[tactic(auto, unfolding(crate::specs::Answering::answer))]
pub fn answer<F: Floor, L: Ledger>(
    session: &mut Session,
    floor: &mut F,
    origin: Origin<'_>,
    request: &Request<'_>,
    steps: &mut Steps<L>,
) -> Result<Option<Bytes>, DeskRefusal>
    requires up { IsUp session.old }
    requires config { IsConfig origin.config.now }
    requires setup { IsSetUpFor origin.config.now (F.mark floor.old).setup }
    requires member { origin.member < length origin.config.now.members }
    ensures session { OnOk result (session.new
        ≡ (answer origin.entry.config.now origin.entry.member origin.entry.moment session.old request.now).session) }
    ensures reply { IfOk result (λ reply. option_to_list reply
        ≡ (answer origin.entry.config.now origin.entry.member origin.entry.moment session.old request.now).replies) }
    ensures one { IfOk result (λ reply. length (option_to_list reply) + length (answer origin.entry.config.now
        origin.entry.member origin.entry.moment session.old request.now).submissions ≡ 1) }
    ensures err { OnErr result (session.new ≡ session.old) }
    ensures mark { F.mark floor.new ≡ F.mark floor.old }
    ensures took { OnOk result (TookAll F.at F.step_limit (F.mark floor.old) origin.entry.feed origin.entry.moment
        (answer origin.entry.config.now origin.entry.member origin.entry.moment session.old request.now).submissions
        (floor.old, steps.old) (floor.new, steps.new)) }
    ensures none { IfErr result (λ refusal. TookNone F.at F.step_limit (F.mark floor.old)
        origin.entry.feed origin.entry.moment refusal
        (answer origin.entry.config.now origin.entry.member origin.entry.moment session.old request.now).submissions
        (floor.old, steps.old) (floor.new, steps.new)) }
{
    match read_order(
        origin.alloc,
        request,
        origin.member,
        origin.config,
        origin.moment,
    ) {
        Ok(Decoded::Book { symbol, command }) => {
            match submit(floor, origin, symbol, &command, steps) {
                Ok(()) => Ok(None),
                Err(refusal) => Err(refusal),
            }
        }
        Ok(Decoded::Stray { report }) => answer_stray(session, origin, request, &report),
        Err(refusal) => answer_refused(session, origin, request, refusal),
    }
}
