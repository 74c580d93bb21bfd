use acpi_regs::Effect;

/// The two registers through which the host speaks with the controller.
#[derive(Clone, Copy, Debug)]
pub enum Port {
    /// The command register EC_SC (ACPI 6.5, section 12.2.2).
    Sc,
    /// The data register EC_DATA (ACPI 6.5, section 12.2.3).
    Data,
}

/// The command that the controller took and whose further bytes it waits for (ACPI 6.5, section 12.3).
#[derive(Clone, Copy, Debug)]
pub enum Half {
    /// None: the next byte is a command.
    Nothing,
    /// RD_EC. The address is to come.
    Read,
    /// WR_EC. The address is to come.
    Write,
    /// WR_EC with this address. The byte is to come.
    WriteAt(u8),
}

/// What the controller did when it was its turn.
#[derive(Clone, Copy, Debug, PartialEq, Eq)]
pub enum CtlOutcome {
    /// It took the host's byte, and this is what it did.
    Stepped(Effect),
    /// The host has written nothing, and nothing changed.
    Idle,
}
