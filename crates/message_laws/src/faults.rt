//! Laws of the first fault of bytes that are no list of fields.
ghost use Rattle.message_laws.specs.Faults.{FaultIsFirst, FirstIsAnswered};

/// Where a fault is answered, the bytes before its place spell fields with which a list of fields begins; at its place the
/// bytes neither end as such a list may nor go on with a field; and the fault says what is wrong there.
// Rules out a fault behind the first one, one before it, one of another kind, and one where the bytes spell fields.
pub fn fault_is_first()
    ensures { FaultIsFirst }
{}

/// Where bytes have a first fault, it is answered. So one fault at most is the first.
// Rules out fields read from bytes that have a fault, as with a field that is passed over or cut short, and a second
// meaning of what the first fault is.
pub fn first_is_answered()
    ensures { FirstIsAnswered }
{}
