//! The order of all events, and the places of their bits in registers of 16 bits.
ghost use Rattle.std.specs.Prelude.{◌≡◌, ◌<◌};
ghost use Rattle.acpi_regs.specs.Core.{event_at};
ghost use Rattle.acpi_regs.specs.Event.{event_rank};
ghost use Rattle.acpi_regs.specs.Registers.{place_of};

use crate::{Event, Fixed};

impl Event {
    /// How many events there can be: five fixed events and 256 GPEs.
    pub const COUNT: u16 = 261;

    /// The place of the event in the order in which events are served, from 0 to 260.
    pub fn rank(self) -> u16
        ensures value { result ≡ event_rank self }
        ensures bound { result < 261 }
    {
        match self {
            Event::Fixed(Fixed::Tmr) => 0,
            Event::Fixed(Fixed::Gbl) => 1,
            Event::Fixed(Fixed::Pwr) => 2,
            Event::Fixed(Fixed::Slp) => 3,
            Event::Fixed(Fixed::Rtc) => 4,
            Event::Gpe(number) => 5 + u16::from(number),
        }
    }

    /// The event at a place of that order. Requires that the place is below 261.
    pub fn at_rank(rank: u16) -> Event
        requires { rank < 261 }
        ensures is { result ≡ event_at rank }
        ensures place { event_rank result ≡ rank }
    {
        match rank {
            0 => Event::Fixed(Fixed::Tmr),
            1 => Event::Fixed(Fixed::Gbl),
            2 => Event::Fixed(Fixed::Pwr),
            3 => Event::Fixed(Fixed::Slp),
            4 => Event::Fixed(Fixed::Rtc),
            _ => Event::Gpe((rank - 5) as u8),
        }
    }

    /// The place of the event's bit in 17 registers of 16 bits: bit b of register k is at place 16 k + b. Register 0 is
    /// PM1, and GPE n is at bit n modulo 16 of register 1 + n / 16 (ACPI 6.5, sections 4.8.3.1 and 4.8.4.1).
    pub fn register_place(self) -> u16
        ensures value { result ≡ place_of self }
        ensures bound { result < 272 }
    {
        match self {
            Event::Fixed(fixed) => u16::from(fixed.bit()),
            Event::Gpe(number) => 16 + u16::from(number),
        }
    }
}
