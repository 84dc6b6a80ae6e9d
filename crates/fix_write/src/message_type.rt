//! MsgType(35): the types of messages.
ghost use Rattle.std.specs.Prelude.{◌≡◌};

/// The type of a message, which is one byte of MsgType(35).
#[derive(Clone, Copy, Debug, PartialEq, Eq)]
pub enum MessageType {
    /// `0`.
    Heartbeat,
    /// `1`, which wants a Heartbeat with its identifier.
    TestRequest,
    /// `2`.
    ResendRequest,
    /// `3`: the session rejects a message.
    Reject,
    /// `4`, with or without GapFillFlag(123).
    SequenceReset,
    /// `5`.
    Logout,
    /// `8`.
    ExecutionReport,
    /// `9`: OrderCancelReject.
    CancelReject,
    /// `A`.
    Logon,
    /// `D`: NewOrderSingle.
    NewOrder,
    /// `F`: OrderCancelRequest.
    CancelRequest,
    /// `G`: OrderCancelReplaceRequest.
    ReplaceRequest,
    /// `H`: OrderStatusRequest.
    StatusRequest,
    /// `W`: MarketDataSnapshotFullRefresh.
    MarketDataSnapshot,
    /// `j`: BusinessMessageReject.
    BusinessReject,
    /// Any other byte.
    Other(u8),
}

impl MessageType {
    ghost use Rattle.fix_write.specs.MessageTypes.{type_of, byte_of, is_order};

    /// The type that a byte stands for.
    #[tactic(auto, unfolding(crate::specs::MessageTypes::type_of, crate::specs::MessageTypes::byte_of))]
    pub fn of_byte(byte: u8) -> MessageType
        ensures kind { result ≡ type_of byte }
        ensures back { byte_of result ≡ byte }
    {
        match byte {
            b'0' => MessageType::Heartbeat,
            b'1' => MessageType::TestRequest,
            b'2' => MessageType::ResendRequest,
            b'3' => MessageType::Reject,
            b'4' => MessageType::SequenceReset,
            b'5' => MessageType::Logout,
            b'8' => MessageType::ExecutionReport,
            b'9' => MessageType::CancelReject,
            b'A' => MessageType::Logon,
            b'D' => MessageType::NewOrder,
            b'F' => MessageType::CancelRequest,
            b'G' => MessageType::ReplaceRequest,
            b'H' => MessageType::StatusRequest,
            b'W' => MessageType::MarketDataSnapshot,
            b'j' => MessageType::BusinessReject,
            other => MessageType::Other(other),
        }
    }

    /// Its byte.
    #[tactic(auto, unfolding(crate::specs::MessageTypes::byte_of))]
    pub fn byte(self) -> u8
        ensures { result ≡ byte_of self }
    {
        match self {
            MessageType::Heartbeat => b'0',
            MessageType::TestRequest => b'1',
            MessageType::ResendRequest => b'2',
            MessageType::Reject => b'3',
            MessageType::SequenceReset => b'4',
            MessageType::Logout => b'5',
            MessageType::ExecutionReport => b'8',
            MessageType::CancelReject => b'9',
            MessageType::Logon => b'A',
            MessageType::NewOrder => b'D',
            MessageType::CancelRequest => b'F',
            MessageType::ReplaceRequest => b'G',
            MessageType::StatusRequest => b'H',
            MessageType::MarketDataSnapshot => b'W',
            MessageType::BusinessReject => b'j',
            MessageType::Other(byte) => byte,
        }
    }

    /// Whether it is that of an order: 35=D, F, G or H.
    #[tactic(auto, unfolding(crate::specs::MessageTypes::is_order))]
    pub fn is_order(self) -> bool
        ensures { result ≡ is_order self }
    {
        matches!(
            self,
            MessageType::NewOrder
                | MessageType::CancelRequest
                | MessageType::ReplaceRequest
                | MessageType::StatusRequest
        )
    }
}
