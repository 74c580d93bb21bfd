ghost use Rattle.std.specs.Prelude.{◌≡◌, List, length};
ghost use Rattle.acpi_regs.specs.CoreEvents.{list_of};
ghost use Rattle.acpi_regs.specs.declared.entry.Entry.{Entry};
ghost use Rattle.acpi_regs.specs.declared.event.Event.{Event};

use crate::{Entry, Event};

/// The part of a machine that the shared words need: the pulse lists of its devices.
pub trait PulseLists {
    /// The list of each device, by its number.
    ghost lists: { Self → List (List Event) };

    /// The events that a device pulses, in order; none if the device has no list.
    fn pulses(&self, device: u8) -> &[Event]
        ensures { result.now ≡ list_of (lists self.now) device };
}

/// A journal of entries, which a table of shared words keeps and lends to one actor at a time.
pub trait Recorded {
    /// The machine whose entries these are.
    type Base: PulseLists;

    /// The journal's machine, which no turn changes.
    ghost base: { Self → Self.Base };

    /// Its entries, the oldest first.
    ghost entries: { Self → List Entry };

    /// The number of entries.
    fn len(&self) -> u32
        ensures { result ≡ length (entries self.now) };
}
