//! Laws of the work on a stream.
ghost use Rattle.script_laws.specs.Desks.{AnyCut, EmptyExactly, FramesSubmitAlike, ReadingsSubmitAlike};

/// Where pieces are cut doesn't matter: at one moment, the replies, the commands and the session that two pieces make one
/// after the other are those of the two joined. `AreUnread` holds of what `Desk::take` leaves unread.
// Rules out work that depends on where a piece ends, as a frame that is lost or worked twice at a cut.
pub fn any_cut()
    ensures { AnyCut }
{}

/// `Desk::pull` sends nothing exactly where the session is not up, or the member has no report past the cursors.
// Rules out a report that is passed over, and one that is sent to a member who is not there.
pub fn empty_exactly()
    ensures { EmptyExactly }
{}

/// What frames submit depends on what the session received alone: whatever a member was sent before, the same frames make
/// the same commands.
// Rules out a command that depends on the reports or the answers that the member was sent.
pub fn frames_submit_alike()
    ensures { FramesSubmitAlike }
{}

/// So do the commands of a whole reading, with a frame behind it that is too long.
pub fn readings_submit_alike()
    ensures { ReadingsSubmitAlike }
{}
