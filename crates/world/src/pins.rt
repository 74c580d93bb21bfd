//! The pins of the world of one thread, as functions of events.
ghost use Rattle.std.specs.Prelude.{◌≡◌, not};
ghost use Rattle.acpi_regs.specs.Core.{no_event};
ghost use Rattle.world.specs.Duties.{pinned};
ghost use Rattle.world.specs.Serial.{collected, left, with_pin};

use crate::laws::law_event;
use acpi_regs::Event;
use lock_table::Bits;

/// No pin.
pub fn none() -> Bits
    ensures { pinned result ≡ no_event }
{
    Bits::new()
}

/// Sets the pin of an event. Whether it was clear.
pub fn set(pins: &mut Bits, event: Event) -> bool
    ensures clear { result ≡ not (pinned pins.old event) }
    ensures pins { pinned pins.new ≡ with_pin event (pinned pins.old) }
{
    law_event(event);
    let clear = !pins.has(event);
    pins.put(event);
    clear
}

/// Takes the pins where they are collected, and answers those that were.
pub fn sweep(pins: &mut Bits, collect: bool) -> Bits
    ensures taken { pinned result ≡ collected collect (pinned pins.old) }
    ensures left { pinned pins.new ≡ left collect (pinned pins.old) }
{
    if collect {
        let found = *pins;
        *pins = none();
        found
    } else {
        none()
    }
}
