use acpi_regs::{Actor, Cell, Event};
use event_chip::Touch;

/// One byte read from a cell or written to it, and the actor to whom the access is credited: where the controller
/// makes it in a transaction, the requester.
#[derive(Clone, Copy, Debug, PartialEq, Eq)]
pub struct Access {
    /// The actor to whom it is credited.
    pub by: Actor,
    /// The cell.
    pub cell: Cell,
    /// The byte that was read or written.
    pub byte: u8,
    /// Whether it was written.
    pub writes: bool,
}

/// Work for a worker.
#[derive(Clone, Copy, Debug, PartialEq, Eq)]
pub enum Job {
    /// Run the handler of a listed event (ACPI 6.5, section 5.6.4.1).
    Event(Event),
    /// Ask the controller for its first outstanding query code (ACPI 6.5, section 12.3.5).
    Query,
    /// Run the handler of a query code (ACPI 6.5, section 5.6.4.1).
    Code(u8),
}

/// The event that an entry touches, and how.
#[derive(Clone, Copy, Debug)]
pub struct Touched {
    /// The event.
    pub event: Event,
    /// What is done to it.
    pub by: Touch,
}
