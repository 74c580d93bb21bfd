//! What the seats of a table know. It exists in contracts alone: no value of these types is ever made.
use acpi_regs::{Actor, Entry, LockPhase, Pulse};
use std::collections::LinkedList;

/// Whether a seat has the turn, and where the slot of the board then is.
pub enum Stage {
    /// The turn is not with this seat.
    Away,
    /// The seat has the turn, and carries the slot, between the turn word's step and the board's move.
    Carrying,
    /// The caller has the board, and the slot is empty.
    Inside,
}

/// The phase of an actor, as its seat keeps it.
pub enum SeatPhase {
    /// A worker's or a firmware's, towards the Global Lock (ACPI 6.5, section 5.2.10.1).
    Lock(LockPhase),
    /// Int's or poll's without pins, and always the controller's.
    Free,
    /// Int's or poll's in a turn, with the pin words that it has collected, the first word first.
    Holding(LinkedList<u64>),
    /// A device's pulses so far, the oldest first.
    Pulsed(LinkedList<Pulse>),
}

/// An actor with what its seat knows of it.
pub struct Part {
    /// The actor.
    pub actor: Actor,
    /// Its phase.
    pub phase: SeatPhase,
    /// The entries that it made, the oldest first.
    pub mine: LinkedList<Entry>,
    /// How often it tried: the turns that it took or found out, the exchanges and the releases of the lock's word.
    pub tried: u64,
    /// What the last of these steps found.
    pub found: u64,
    /// What its loads of the lock's word found, the oldest first.
    pub loaded: LinkedList<u64>,
    /// How many pin words it collected.
    pub swept: u64,
}

/// Who sits in a seat.
pub enum Occupant {
    /// The root: all actors that have no seat of their own.
    Root(LinkedList<Part>),
    /// One actor.
    One(Part),
    /// Nobody any more: the seat was joined.
    Nobody,
}

/// What a seat knows.
pub struct View {
    /// Who sits here.
    pub who: Occupant,
    /// The entries that were seen, with which the history begins.
    pub seen: LinkedList<Entry>,
    /// What a seat that was joined last had seen, and the history begins with, until the root's next look. It is
    /// empty but in the root, between the two steps of a join.
    pub told: LinkedList<Entry>,
    /// Whether the seat has the turn.
    pub stage: Stage,
    /// How many turns it took.
    pub turns: u64,
    /// How often it found the turn out.
    pub misses: u64,
}
