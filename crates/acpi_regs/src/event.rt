ghost use Rattle.std.specs.Prelude.{◌≡◌, ◌^◌};
ghost use Rattle.acpi_regs.specs.Event.{fixed_bit};
ghost use Rattle.acpi_regs.specs.Flags.{pm1_bits};

use crate::Pm1Bits;

/// A fixed event of the PM1 registers (ACPI 6.5, section 4.8.3.1), in the order in which events are served.
#[derive(Clone, Copy, Debug, PartialEq, Eq, PartialOrd, Ord)]
pub enum Fixed {
    /// The power management timer overflowed.
    Tmr,
    /// The firmware released the Global Lock and the OS was waiting for it.
    Gbl,
    /// The power button was pressed.
    Pwr,
    /// The sleep button was pressed.
    Slp,
    /// The real-time clock's alarm went off.
    Rtc,
}

impl Fixed {
    /// The bit of the event in the PM1 status and enable registers (ACPI 6.5, sections 4.8.3.1.1 and 4.8.3.1.2).
    pub fn bit(self) -> u8
        ensures { result ≡ fixed_bit self }
    {
        match self {
            Fixed::Tmr => 0,
            Fixed::Gbl => 5,
            Fixed::Pwr => 8,
            Fixed::Slp => 9,
            Fixed::Rtc => 10,
        }
    }

    /// The same bit as a flag of the PM1 registers.
    pub fn flag(self) -> Pm1Bits
        ensures { pm1_bits result ≡ 2 ^ fixed_bit self }
    {
        match self {
            Fixed::Tmr => Pm1Bits::TMR,
            Fixed::Gbl => Pm1Bits::GBL,
            Fixed::Pwr => Pm1Bits::PWRBTN,
            Fixed::Slp => Pm1Bits::SLPBTN,
            Fixed::Rtc => Pm1Bits::RTC,
        }
    }
}

/// An event that can raise an SCI: a fixed event, or a general-purpose event by its number
/// (ACPI 6.5, section 5.6.4). Fixed events come first, then GPEs by number.
#[derive(Clone, Copy, Debug, PartialEq, Eq, PartialOrd, Ord)]
pub enum Event {
    /// A fixed event.
    Fixed(Fixed),
    /// A general-purpose event, by its number.
    Gpe(u8),
}

/// An event that a description lists, with its trigger mode and its initial count of references.
#[derive(Clone, Copy, Debug, PartialEq, Eq)]
pub struct Listed {
    /// The event.
    pub event: Event,
    /// Whether the event is level-triggered, which only a GPE may be (ACPI 6.5, section 5.6.4.1).
    pub level: bool,
    /// The initial count of references. The event is enabled while its count is above 0.
    pub refs: u8,
}
