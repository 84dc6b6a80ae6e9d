//! Laws of sessions: over every list of inputs, or of one message over every session that is up.
ghost use Rattle.message_laws.specs.Ledgers.{SentAgainAsFirst};
ghost use Rattle.message_laws.specs.Numbers.{NumbersAreConsecutive};
ghost use Rattle.message_laws.specs.Sessions.{ExpectedStaysOrRises, HandedOutOnce};
ghost use Rattle.message_laws.specs.Stays.{AlikeStay, EndedStays, NumberStays, SendingIsAlike, SentStays};
ghost use Rattle.message_laws.specs.Turns.{OrderIsHandedOut, RangeIsAsked, RejectIsAlone};

/// The number that the member's next message is to have falls by a Logon with ResetSeqNumFlag (141) Y alone: over any inputs
/// without one it stays or rises.
// Rules out a SequenceReset, a new connection or a message with a lower number that lets numbers be taken again.
pub fn expected_stays_or_rises()
    ensures { ExpectedStaysOrRises }
{}

/// Between two such Logons the numbers of the messages that are handed out ascend: each number is handed out at most once.
// Rules out an order that is handed out twice, as when it comes again with PossDupFlag or over a new connection, and one
// that is handed out with a number that came before.
pub fn handed_out_once()
    ensures { HandedOutOnce }
{}

/// What a session sends has consecutive numbers, from 1 at its first connection on, and from 1 again where a Logon with
/// ResetSeqNumFlag (141) Y is taken. What is sent again has a number that came before, and takes none.
// Rules out a number that is left out or given twice, a resend that takes new numbers, numbers that begin again with a
// connection, and ones that go on behind such a Logon.
pub fn numbers_are_consecutive()
    ensures { NumbersAreConsecutive }
{}

/// What a session sends again is what it sent first. A turn sends at most one range of numbers again, all of which were sent
/// since numbers began: each number of the range exactly once and in order. Under the number of an application message goes
/// that message, with the type, the names, the number and the body of the first time, and with PossDupFlag (43), the first
/// moment (122) and a moment of its own (52). In place of messages of the session goes a SequenceReset up to the next number.
// Rules out a number that is left out of a resend or sent twice, another body or type under an old number, an application
// message that a gap fill stands for, and a message of the session that is sent again itself.
pub fn sent_again_as_first()
    ensures { SentAgainAsFirst }
{}

/// One message, over every session that is up: a ResendRequest (35=2) that was to come and passes its checks is answered by
/// frames that cover the numbers from BeginSeqNo (7) to EndSeqNo (16) and no others, where these were sent. EndSeqNo 0, or one
/// above the last number sent, stands for that number.
// Rules out a resend of fewer or more numbers than were asked for, and one with anything else beside them.
pub fn range_is_asked()
    ensures { RangeIsAsked }
{}

/// One message that was to come, over every session that is up: one that is no order and fails a check is rejected. And of
/// whichever message: either it is rejected, which changes nothing but the number that is to come and the clocks, and sends one
/// Reject (35=3), under the next number, and nothing else; or no new Reject is sent.
// Rules out a rejected message that is handed out, one that is worked all the same, one that ends the connection, and a
// Reject that names another number, tag or reason.
pub fn reject_is_alone()
    ensures { RejectIsAlone }
{}

/// One message that was to come, over every session that is up: an order is handed out under its number with all its fields;
/// one number more is expected, and nothing is sent.
// Rules out an order that is dropped, one that is answered by the session itself, and one whose fields are those of another
// message.
pub fn order_is_handed_out()
    ensures { OrderIsHandedOut }
{}

/// A session that is over stays as it is until a new connection, and answers every input alike.
pub fn ended_stays()
    ensures { EndedStays }
{}

/// The number that is to come stays where a frame is garbled and where a message of another number comes, but for a
/// SequenceReset(35=4) that is no gap fill.
pub fn number_stays()
    ensures { NumberStays }
{}

/// What a session that is up has sent stays under its number.
pub fn sent_stays()
    ensures { SentStays }
{}

/// What a session takes, hands out and ends by depends on what it received alone: two that differ only in what they sent go
/// on so, whatever comes, and hand the same out.
// Rules out a request, a state or an end that depends on what the member was sent.
pub fn alike_stay()
    ensures { AlikeStay }
{}

/// What a session sends of itself, its reports and its Rejects, changes nothing of what it takes.
pub fn sending_is_alike()
    ensures { SendingIsAlike }
{}
