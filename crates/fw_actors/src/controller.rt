ghost use Rattle.std.specs.Prelude.{◌≡◌, false, None};
ghost use Rattle.fw_actors.specs.Hardware.{CtlSteps};
ghost use Rattle.world.specs.Calls.{To_turn};

use crate::controller_turn::ControllerTurn;
use acpi_regs::Actor;
use machine_desc::Machine;
use world::{StepOutcome, TurnOutcome, World, of_turn};

/// The embedded controller. Between its steps it is free.
#[derive(Clone, Copy, Debug)]
pub struct Controller {}

impl Controller {
    /// The controller at its start.
    pub fn new() -> Controller {
        Controller {}
    }

    /// One step: in one turn it makes its next move of the open transaction; else it leaves burst mode, where it may
    /// do so of its own accord.
    ///
    /// `machine` is the machine of the world's board.
    pub fn step<W: World>(&mut self, machine: &Machine, world: &mut W) -> StepOutcome
        requires machine { W.machine world.old ≡ machine.now }
        requires may { W.may world.old Actor.Ec (To_turn false None) }
        ensures machine { W.machine world.new ≡ machine.now }
        ensures steps { CtlSteps W.makes machine.now world.old result world.new }
    {
        let _ = machine;
        let mut duty = ControllerTurn {};
        match world.turn(false, &mut duty) {
            TurnOutcome::Done(acted) => of_turn(acted),
            TurnOutcome::Out => StepOutcome::Out,
        }
    }
}
