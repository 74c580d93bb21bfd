ghost use Rattle.std.specs.Prelude.{◌≡◌};
ghost use Rattle.handler_script.specs.Acts.{brings};

use acpi_regs::{Cell, Event, Request};

/// What a script does next to its machine.
#[derive(Clone, Copy, Debug, PartialEq, Eq)]
pub enum Act {
    /// Take the Global Lock (ACPI 6.5, section 5.2.10.1).
    Lock,
    /// Give it back.
    Unlock,
    /// Read the byte of a cell in memory.
    Read(Cell),
    /// Write this byte to a cell in memory.
    Write(Cell, u8),
    /// Ask the embedded controller.
    Ask(Request),
    /// Notify a device object with a value.
    Notify(u8, u8),
    /// Drop the line of a level event.
    Drop(Event),
    /// Count one more reference to an event.
    Up(Event),
    /// Count one reference less to an event.
    Down(Event),
    /// Raise an event.
    Raise(Event),
    /// Assert the line of a level event.
    Assert(Event),
    /// Put a query code into the controller's list.
    Push(u8),
}

impl Act {
    /// Whether the act is answered with a byte that goes back to the script: a read is, and of the controller's
    /// requests Rd and Be (ACPI 6.5, sections 12.3.1 and 12.3.3). A query's code does not go back to it: it makes a
    /// job.
    pub fn brings(&self) -> bool
        ensures { result ≡ brings self.now }
    {
        matches!(
            self,
            Act::Read(_) | Act::Ask(Request::Rd(_)) | Act::Ask(Request::Be)
        )
    }
}
