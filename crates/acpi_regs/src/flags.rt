ghost use Rattle.std.specs.Prelude.{⊤};
ghost use Rattle.acpi_regs.specs.Flags.{ec_bits, ec_flags, pm1_bits, pm1_flags};

use bitflags::{Flag, Flags, bitflag_items};

/// Bits of the PM1 status and enable registers (ACPI 6.5, sections 4.8.3.1.1 and 4.8.3.1.2). A set bit of the status
/// register says that the event happened, and writing a one clears it. `WAK` exists in the status register only.
#[derive(Clone, Copy, Debug, PartialEq, Eq)]
pub struct Pm1Bits(u16);

bitflag_items! {
    impl Pm1Bits: u16 {
        const TMR = 1;
        const GBL = 32;
        const PWRBTN = 256;
        const SLPBTN = 512;
        const RTC = 1024;
        const WAK = 32768;
    }
}

impl Flags for Pm1Bits {
    type Bits = u16;

    ghost exact = { ⊤ };

    ghost table = { pm1_flags };

    ghost set_of = { pm1_bits };

    fn flags<'a>() -> &'a [Flag<Pm1Bits>] {
        Pm1Bits::FLAGS
    }

    fn bits(&self) -> u16 {
        self.0
    }

    fn from_bits_retain(bits: u16) -> Pm1Bits {
        Pm1Bits(bits)
    }
}

/// The status register EC_SC of the embedded controller, as the host reads it (ACPI 6.5, section 12.2.1).
///
/// `OBF` is set while the controller's output waits for the host, `IBF` while the host's byte waits for the controller.
/// `CMD` is set if the last byte written was a command. `BURST` is set in burst mode, and `SCI_EVT` while a query code
/// is outstanding.
#[derive(Clone, Copy, Debug, PartialEq, Eq)]
pub struct EcStatus(u8);

bitflag_items! {
    impl EcStatus: u8 {
        const OBF = 1;
        const IBF = 2;
        const CMD = 8;
        const BURST = 16;
        const SCI_EVT = 32;
    }
}

impl Flags for EcStatus {
    type Bits = u8;

    ghost exact = { ⊤ };

    ghost table = { ec_flags };

    ghost set_of = { ec_bits };

    fn flags<'a>() -> &'a [Flag<EcStatus>] {
        EcStatus::FLAGS
    }

    fn bits(&self) -> u8 {
        self.0
    }

    fn from_bits_retain(bits: u8) -> EcStatus {
        EcStatus(bits)
    }
}
