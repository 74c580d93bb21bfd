ghost use Rattle.std.specs.Prelude.{◌≡◌, true, None};
ghost use Rattle.os_actors.specs.Hosts.{HostSteps};
ghost use Rattle.world.specs.Calls.{To_turn};

use crate::host::host_step;
use acpi_regs::Actor;
use machine_desc::Machine;
use world::{StepOutcome, World};

/// The OS's interrupt handler. Between its steps it is free.
#[derive(Clone, Copy, Debug)]
pub struct Interrupt {}

impl Interrupt {
    /// The handler at its start.
    pub fn new() -> Interrupt {
        Interrupt {}
    }

    /// One step: it collects the pins in one turn and latches each event that was set, in order. Where there was
    /// none, and it has claimed the controller's event since its last move, it makes the host's next move for a
    /// worker; else it claims the first pending event.
    ///
    /// `machine` is the machine of the world's board. Where the world asks it, the actor is free, and each pin that
    /// is set has fewer latches than pulses in the device lists.
    pub fn step<W: World>(&mut self, machine: &Machine, world: &mut W) -> StepOutcome
        requires machine { W.machine world.old ≡ machine.now }
        requires may { W.may world.old Actor.Int (To_turn true None) }
        ensures machine { W.machine world.new ≡ machine.now }
        ensures steps { HostSteps W.makes machine.now Actor.Int world.old result world.new }
    {
        let _ = machine;
        host_step(Actor::Int, world)
    }
}
