use fw_actors::{Controller, Device, Firmware};
use os_actors::{Interrupt, Poll, Worker};

/// An actor of any kind.
#[derive(Drop)]
pub enum AnyActor {
    /// The OS's interrupt handler.
    Int(Interrupt),
    /// The OS's polling loop.
    Poll(Poll),
    /// A thread of the OS that runs jobs.
    Worker(Worker),
    /// The embedded controller.
    Ec(Controller),
    /// A device.
    Device(Device),
    /// A thread of the firmware.
    Firmware(Firmware),
}
