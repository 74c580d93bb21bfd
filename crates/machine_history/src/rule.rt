/// The condition of the table of entries that an entry fails.
#[derive(Clone, Copy, Debug, PartialEq, Eq)]
pub enum LogRule {
    /// The machine has no such actor, or the actor may not make such an entry.
    Actor,
    /// The entry is not the next act of the actor's script.
    Next,
    /// The actor is not its side's seeker, or its side has one already.
    Seeker,
    /// The actor was busy since its last try, or was not.
    Busy,
    /// The actor's side was not signalled.
    Wake,
    /// The Global Lock has an owner, or another one.
    Owner,
    /// The byte is not the last one written.
    Value,
    /// A transaction with the controller is open, or none is.
    Begin,
    /// The move is not the next of the open transaction.
    Wire,
    /// The interrupt handler was not called for the controller since its last move.
    Due,
    /// No pulse of a device is left for the latch.
    Latch,
    /// The event has no status, or is not enabled.
    Status,
    /// The worker runs another job, or the job is not the next.
    Job,
    /// What a log says of the machine at rest is not so.
    Rest,
}
