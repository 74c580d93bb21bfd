ghost use Rattle.std.specs.Prelude.{◌≡◌};
ghost use Rattle.acpi_regs.specs.Actor.{side_of};

/// One of the two parties that share the Global Lock (ACPI 6.5, section 5.2.10.1).
#[derive(Clone, Copy, Debug, PartialEq, Eq)]
pub enum Side {
    /// The operating system.
    Os,
    /// The firmware.
    Firmware,
}

/// One simulated thread of control. Actors are served in the order of the variants, and then of their numbers.
#[derive(Clone, Copy, Debug, PartialEq, Eq, PartialOrd, Ord)]
pub enum Actor {
    /// The OS's interrupt handler.
    Int,
    /// The OS's polling loop.
    Poll,
    /// A thread of the OS that runs jobs, `w0` to `w3`.
    Worker(u8),
    /// The embedded controller.
    Ec,
    /// A device that raises events without waiting, `d0` to `d7`.
    Device(u8),
    /// A thread of the firmware, `f0` to `f7`.
    Firmware(u8),
}

impl Actor {
    /// The side for which the actor competes for the Global Lock; `None` for the controller and the devices.
    pub fn side(self) -> Option<Side>
        ensures { result ≡ side_of self }
    {
        match self {
            Actor::Int | Actor::Poll | Actor::Worker(_) => Some(Side::Os),
            Actor::Firmware(_) => Some(Side::Firmware),
            Actor::Ec | Actor::Device(_) => None,
        }
    }
}
