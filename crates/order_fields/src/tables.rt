//! The tags of each type of order, and their forms.
ghost use Rattle.std.specs.Prelude.{◌≡◌};
ghost use Rattle.order_fields.specs.Tables.{required_of, optional_of};

use crate::tags::{
    CL_ORD_ID, MIN_QTY, MIN_QTY_METHOD, ORD_TYPE, ORDER_QTY, ORIG_CL_ORD_ID, PEG_MOVE_TYPE,
    PEG_OFFSET_TYPE, PEG_OFFSET_VALUE, PEG_PRICE_TYPE, PEG_ROUND_DIRECTION, PRICE, SIDE, SYMBOL,
    TIME_IN_FORCE, TRANSACT_TIME,
};
use fix_write::MessageType;
use session_core::tags::{POSS_DUP_FLAG, SENDING_TIME};
use session_core::{Item, items};

/// The tags that an order must have, in order; those of every message first.
#[tactic(auto, unfolding(crate::specs::Tables::required_of, crate::specs::Tables::behind_id))]
pub fn required_of(kind: MessageType) -> &'static [Item]
    ensures { result.now ≡ required_of kind }
{
    match kind {
        MessageType::NewOrder => items![
            SENDING_TIME: Moment, CL_ORD_ID: Identifier, SYMBOL: Text, SIDE: Byte, ORDER_QTY: Amount,
            ORD_TYPE: Byte, TRANSACT_TIME: Moment
        ],
        MessageType::CancelRequest => items![
            SENDING_TIME: Moment, CL_ORD_ID: Identifier, ORIG_CL_ORD_ID: Identifier, SYMBOL: Text,
            SIDE: Byte, TRANSACT_TIME: Moment
        ],
        MessageType::ReplaceRequest => items![
            SENDING_TIME: Moment, CL_ORD_ID: Identifier, ORIG_CL_ORD_ID: Identifier, SYMBOL: Text,
            SIDE: Byte, ORDER_QTY: Amount, ORD_TYPE: Byte, TRANSACT_TIME: Moment
        ],
        _ => items![SENDING_TIME: Moment, CL_ORD_ID: Identifier, SYMBOL: Text, SIDE: Byte],
    }
}

/// The tags that it may have, in order; those of every message first.
#[tactic(auto, unfolding(crate::specs::Tables::optional_of))]
pub fn optional_of(kind: MessageType) -> &'static [Item]
    ensures { result.now ≡ optional_of kind }
{
    match kind {
        MessageType::NewOrder | MessageType::ReplaceRequest => items![
            POSS_DUP_FLAG: Boolean, PRICE: Amount, TIME_IN_FORCE: Byte, MIN_QTY: Amount,
            MIN_QTY_METHOD: Number, PEG_PRICE_TYPE: Number, PEG_OFFSET_VALUE: Amount,
            PEG_OFFSET_TYPE: Number, PEG_MOVE_TYPE: Number, PEG_ROUND_DIRECTION: Number
        ],
        _ => items![POSS_DUP_FLAG: Boolean],
    }
}
