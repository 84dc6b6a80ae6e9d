//! What a turn gives.
ghost use Rattle.std.specs.Prelude.{◌≡◌, option_map};
ghost use Rattle.session_core.specs.Machine.{request_of, sent_now};

use crate::message::Request;
use crate::message_fields::MessageFields;
use crate::plan::RequestHead;
use crate::state::{EndCause, State};
use venue_words::{Bytes, Items};

/// What a turn gives.
#[derive(Debug, Drop)]
pub struct Turn<'a> {
    /// The frames to be sent, in their order.
    pub replies: Items<Bytes>,
    /// The message that is handed out, if any.
    pub request: Option<Request<'a>>,
    /// Why the connection ended, where it has ended; also none where it ended for want of memory.
    pub ended: Option<EndCause>,
}

/// The request that a plan hands out, over the fields of the message.
pub(crate) fn request_of(
    fields: MessageFields<'_>,
    head: Option<RequestHead>,
) -> Option<Request<'_>>
    ensures { result ≡ option_map (request_of fields.entry) head }
{
    match head {
        Some(head) => Some(Request {
            number: head.number,
            kind: head.kind,
            fields,
        }),
        None => None,
    }
}

/// The state after replies were sent.
pub(crate) fn sent_now(moment: i64, replies: &[Bytes], state: State) -> State
    ensures value { result ≡ sent_now moment replies.now state }
    ensures phase { result.phase ≡ state.phase }
{
    if replies.is_empty() {
        state
    } else {
        State {
            sent_at: moment,
            ..state
        }
    }
}
