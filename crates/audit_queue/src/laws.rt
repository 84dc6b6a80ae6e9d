//! Laws of the definitions: each call does nothing.
ghost use Rattle.audit_queue.specs.Queues.{QueuesAreByNumber};

/// The queue of a side is found order by order.
pub fn queues_are_by_number()
    ensures { QueuesAreByNumber }
{}
