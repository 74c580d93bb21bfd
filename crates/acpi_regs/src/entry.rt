use crate::{Actor, Event};

/// A byte of a region.
#[derive(Clone, Copy, Debug, PartialEq, Eq)]
pub struct Cell {
    /// The region's index in the description.
    pub region: u8,
    /// The byte's distance from the start of the region.
    pub offset: u16,
}

/// What the OS asks of the embedded controller (ACPI 6.5, section 12.3).
#[derive(Clone, Copy, Debug, PartialEq, Eq)]
pub enum Request {
    /// Read the byte at an address (RD_EC, 80h).
    Rd(u8),
    /// Write a byte to an address (WR_EC, 81h).
    Wr(u8, u8),
    /// Burst enable (BE_EC, 82h).
    Be,
    /// Burst disable (BD_EC, 83h).
    Bd,
    /// Query for the first outstanding code (QR_EC, 84h).
    Qr,
}

/// The host's half of a transaction with the controller (ACPI 6.5, section 12.2).
#[derive(Clone, Copy, Debug, PartialEq, Eq)]
pub enum HostMove {
    /// A write to the command register EC_SC.
    Sc(u8),
    /// A write to the data register EC_DATA.
    Data(u8),
    /// A read of the data register EC_DATA.
    Get(u8),
}

/// The controller's half of a transaction.
#[derive(Clone, Copy, Debug, PartialEq, Eq)]
pub enum Effect {
    /// It took a byte and waits for the next.
    Taken,
    /// It put this byte into the data register.
    Out(u8),
    /// It took a byte and wrote a cell.
    Put,
    /// It left burst mode of its own accord.
    Calm,
}

/// What an actor did in one step, as the journal keeps it.
#[derive(Clone, Copy, Debug, PartialEq, Eq)]
pub enum Deed {
    /// It competes for the Global Lock for its side.
    Seek,
    /// It found the lock owned and waits for the signal.
    Busy,
    /// It was signalled and tries again.
    Woken,
    /// It owns the lock.
    Own,
    /// It is about to release the lock.
    Disown,
    /// It released the lock. True if the other side was waiting, which it then signalled.
    Leave(bool),
    /// It read this byte from a cell.
    Read(Cell, u8),
    /// It wrote this byte to a cell.
    Write(Cell, u8),
    /// It opened a transaction with the controller.
    Begin(Request),
    /// The host made a move of the open transaction.
    Step(HostMove),
    /// The controller made a move.
    Ctl(Effect),
    /// The requester closed its transaction and took this byte from it, if the request returns one.
    Take(Option<u8>),
    /// The firmware put a query code into the controller's list.
    Push(u8),
    /// The firmware raised an event.
    Raise(Event),
    /// The OS moved a device's pin into the status of its event.
    Latch(Event),
    /// The firmware asserted the line of a level event.
    Assert(Event),
    /// The line of a level event was dropped.
    Drop(Event),
    /// The OS took an event's status for dispatch.
    Claim(Event),
    /// A worker started the job of this number.
    Start(u32),
    /// A worker finished the job of this number.
    Finish(u32),
    /// A handler notified the device object of this index, with this value.
    Notify(u8, u8),
    /// A handler added one reference to an event.
    Up(Event),
    /// A handler removed one reference from an event.
    Down(Event),
}

/// One entry of the journal.
#[derive(Clone, Copy, Debug, PartialEq, Eq)]
pub struct Entry {
    /// Who did it.
    pub actor: Actor,
    /// What it did.
    pub deed: Deed,
}
