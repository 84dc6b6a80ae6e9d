//! The tags of each type of the session's messages, and their forms.
ghost use Rattle.std.specs.Prelude.{◌≡◌};
ghost use Rattle.session_core.specs.Tables.{required_of, optional_of, failed_of};

use crate::checks::{FailedCheck, Item, first_failed};
use crate::message_fields::MessageFields;
use crate::tags::{
    BEGIN_SEQ_NO, DEFAULT_APPL_VER_ID, ENCRYPT_METHOD, END_SEQ_NO, GAP_FILL_FLAG, HEART_BT_INT,
    NEW_SEQ_NO, POSS_DUP_FLAG, RESET_SEQ_NUM_FLAG, SENDING_TIME, TEST_REQ_ID,
};
use fix_write::MessageType;

/// Tags and their forms, as `items![SENDING_TIME: Moment]`.
#[macro_export]
macro_rules! items {
    ($($tag:ident: $form:ident),*) => {
        &[$($crate::Item { tag: $tag, form: $crate::Form::$form }),*]
    };
}

/// The tags that a message must have, in order; those of every message first.
#[tactic(auto, unfolding(crate::specs::Tables::required_of))]
pub fn required_of(kind: MessageType) -> &'static [Item]
    ensures { result.now ≡ required_of kind }
{
    match kind {
        MessageType::Logon => items![
            SENDING_TIME: Moment, ENCRYPT_METHOD: Number, HEART_BT_INT: Number, DEFAULT_APPL_VER_ID: Text
        ],
        MessageType::TestRequest => items![SENDING_TIME: Moment, TEST_REQ_ID: Text],
        MessageType::ResendRequest =>
            items![SENDING_TIME: Moment, BEGIN_SEQ_NO: Number, END_SEQ_NO: Number],
        MessageType::SequenceReset => items![SENDING_TIME: Moment, NEW_SEQ_NO: Number],
        _ => items![SENDING_TIME: Moment],
    }
}

/// The tags that it may have, in order; those of every message first.
#[tactic(auto, unfolding(crate::specs::Tables::optional_of))]
pub fn optional_of(kind: MessageType) -> &'static [Item]
    ensures { result.now ≡ optional_of kind }
{
    match kind {
        MessageType::Logon => items![POSS_DUP_FLAG: Boolean, RESET_SEQ_NUM_FLAG: Boolean],
        MessageType::SequenceReset => items![POSS_DUP_FLAG: Boolean, GAP_FILL_FLAG: Boolean],
        _ => items![POSS_DUP_FLAG: Boolean],
    }
}

/// The first check of the session's own that a message of a type fails.
#[tactic(auto, unfolding(crate::specs::Tables::failed_of))]
pub fn failed_of(kind: MessageType, fields: &MessageFields<'_>) -> Option<FailedCheck>
    ensures { result ≡ failed_of kind fields.now }
{
    first_failed(required_of(kind), optional_of(kind), fields)
}
