//! Messages in words.
use fix_write::MessageType;

/// The name of a type of message.
pub fn message_name(kind: MessageType) -> &'static str {
    match kind {
        MessageType::Heartbeat => "Heartbeat",
        MessageType::TestRequest => "TestRequest",
        MessageType::ResendRequest => "ResendRequest",
        MessageType::Reject => "Reject",
        MessageType::SequenceReset => "SequenceReset",
        MessageType::Logout => "Logout",
        MessageType::Logon => "Logon",
        MessageType::NewOrder => "NewOrderSingle",
        MessageType::CancelRequest => "OrderCancelRequest",
        MessageType::ReplaceRequest => "OrderCancelReplaceRequest",
        MessageType::StatusRequest => "OrderStatusRequest",
        _ => "a message of another type",
    }
}
