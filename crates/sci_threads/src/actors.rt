ghost use Rattle.std.specs.Prelude.{◌≡◌, false, IfOk, map};
ghost use Rattle.acpi_regs.specs.declared.actor.Actor.{Actor};
ghost use Rattle.acpi_regs.specs.Phases.{Phase, first_phase, put};
ghost use Rattle.machine_desc.specs.Actors.{actors_of};
ghost use Rattle.machine_history.specs.Steps.{gives};
ghost use Rattle.sci_threads.specs.Actors.{StepsAs, phases_of, stands, who};
ghost use Rattle.world.specs.Duties.{AreLatchable};
ghost use Rattle.world.specs.Serial.{SerialMakes, core_of, pins_of};
ghost use Rattle.world.specs.Stepping.{after_step, is_stepped};

use crate::AnyActor;
use acpi_regs::{Actor, Memory};
use fw_actors::{Controller, Device, Firmware};
use machine_desc::Machine;
use os_actors::{Interrupt, Poll, Worker};
use std::alloc::Global;
use world::{SerialWorld, StepOutcome};

impl AnyActor {
    /// The actor at its start.
    pub fn new(actor: Actor) -> AnyActor
        ensures who { who result ≡ actor }
        ensures stands { stands result ≡ first_phase actor }
    {
        match actor {
            Actor::Int => AnyActor::Int(Interrupt::new()),
            Actor::Poll => AnyActor::Poll(Poll::new()),
            Actor::Worker(number) => AnyActor::Worker(Worker::new(number)),
            Actor::Ec => AnyActor::Ec(Controller::new()),
            Actor::Device(number) => AnyActor::Device(Device::new(number)),
            Actor::Firmware(number) => AnyActor::Firmware(Firmware::new(number)),
        }
    }

    /// Which actor it is.
    pub fn actor(&self) -> Actor
        ensures { result ≡ who self.now }
    {
        match self {
            AnyActor::Int(_) => Actor::Int,
            AnyActor::Poll(_) => Actor::Poll,
            AnyActor::Worker(worker) => Actor::Worker(worker.number()),
            AnyActor::Ec(_) => Actor::Ec,
            AnyActor::Device(device) => Actor::Device(device.number()),
            AnyActor::Firmware(firmware) => Actor::Firmware(firmware.number()),
        }
    }

    /// One step of the actor over a world of one thread: exactly what it is given, from every core that the world and
    /// its phase stand for, and the outcome that its own kind tells. The caller sees to it that each pin that is set
    /// has fewer latches than pulses in the device lists.
    pub fn step(&mut self, machine: &Machine, world: &mut SerialWorld) -> StepOutcome
        requires machine { world.old.board.machine ≡ machine.now }
        requires latchable { AreLatchable machine.now world.old.board.entries (pins_of world.old) }
        ensures who { who self.new ≡ who self.old }
        ensures machine { world.new.board.machine ≡ machine.now }
        ensures gives { (phases : Actor → Phase) → phases (who self.old) ≡ stands self.old
            → gives machine.now (core_of world.old phases) (who self.old)
            ≡ after_step result (core_of world.new (put (who self.old) (stands self.new) phases)) }
        ensures stays { is_stepped result ≡ false
            → ((phases : Actor → Phase) → core_of world.new phases ≡ core_of world.old phases)
            × (stands self.new ≡ stands self.old) }
        ensures answers { StepsAs SerialMakes machine.now self.old world.old result world.new self.new }
    {
        match self {
            AnyActor::Int(int) => int.step(machine, world),
            AnyActor::Poll(poll) => poll.step(machine, world),
            AnyActor::Worker(worker) => worker.step(machine, world),
            AnyActor::Ec(controller) => controller.step(machine, world),
            AnyActor::Device(device) => device.step(machine, world),
            AnyActor::Firmware(firmware) => firmware.step(machine, world),
        }
    }
}

/// All actors of a machine at their start, in the order in which they are served.
pub fn all_actors(alloc: Global, machine: &Machine) -> Result<Vec<AnyActor>, Memory>
    ensures names { IfOk result (λ actors. map who actors.items ≡ actors_of machine.now) }
    ensures first { IfOk result (λ actors. phases_of actors.items ≡ first_phase) }
{
    let count = machine.actors();
    let mut actors = Vec::with_capacity(alloc, usize::from(count))?;
    for k in 0..count {
        actors.push(AnyActor::new(machine.actor(k)))?;
    }
    Ok(actors)
}
