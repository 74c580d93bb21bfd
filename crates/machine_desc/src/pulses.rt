//! What the words that actors share ask of a machine: the events that its devices pulse.
ghost use Rattle.std.specs.Prelude.{◌≡◌};
ghost use Rattle.acpi_regs.specs.CoreEvents.{list_of};

use crate::Machine;
use acpi_regs::{Event, PulseLists};

impl PulseLists for Machine {
    ghost lists = { λ m. m.devices };

    fn pulses(&self, device: u8) -> &[Event]
        ensures { result.now ≡ list_of self.now.devices device }
    {
        match self.devices().get(device as usize) {
            Some(list) => list.as_slice(),
            None => &[],
        }
    }
}
