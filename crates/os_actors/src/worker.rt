ghost use Rattle.std.specs.Prelude.{◌≡◌};
ghost use Rattle.acpi_regs.specs.declared.phase.LockPhase.TheVariants as phase;
ghost use Rattle.world.specs.Stepping.{ScriptSteps, lock_want};

use acpi_regs::{Actor, LockPhase};
use machine_desc::Machine;
use std::marker::Model;
use world::{StepOutcome, World, script_step};

/// A thread of the OS that runs jobs. Between its steps it is where it stands towards the Global Lock.
#[derive(Drop)]
pub struct Worker {
    number: u8,
    phase: LockPhase,
}

impl Model for Worker {
    ghost use Rattle.world.specs.Stepping.{Runner};

    ghost Value = { Runner };

    ghost view = { λ w. record { number = w.number; phase = w.phase } };
}

impl Worker {
    /// The worker of this number at its start.
    pub fn new(number: u8) -> Worker
        ensures { result ≡ record { number = number; phase = phase.Idle } }
    {
        Worker {
            number,
            phase: LockPhase::Idle,
        }
    }

    /// Its number.
    pub fn number(&self) -> u8
        ensures { result ≡ self.now.number }
    {
        self.number
    }

    /// One step: the entry for the next act of its job, where the board allows it; between two jobs it finishes the
    /// one that it runs, or starts the next that waits. While it competes for the Global Lock its phase says what is
    /// next: an attempt, a release, or an entry.
    ///
    /// `machine` is the machine of the world's board. Where the world tells a phase, it is the worker's.
    pub fn step<W: World>(&mut self, machine: &Machine, world: &mut W) -> StepOutcome
        requires machine { W.machine world.old ≡ machine.now }
        requires may { W.may world.old (Actor.Worker self.old.number) (lock_want self.old.phase) }
        ensures number { self.new.number ≡ self.old.number }
        ensures machine { W.machine world.new ≡ machine.now }
        ensures steps { ScriptSteps W.makes machine.now (Actor.Worker self.old.number) world.old self.old.phase result
            world.new self.new.phase }
    {
        let _ = machine;
        script_step(Actor::Worker(self.number), &mut self.phase, world)
    }
}
