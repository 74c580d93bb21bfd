//! Actors over the seats of a table that threads share.
ghost use Rattle.std.specs.Prelude.{◌≡◌};
ghost use Rattle.lock_table.specs.Calls.{SameSeat};
ghost use Rattle.sci_threads.specs.Actors.{stands, who};
ghost use Rattle.sci_threads.specs.Shared.{IsReady, Rises, SeatSteps, is_ended};

use crate::AnyActor;
use lock_table::{LockTable, TableSeat};
use machine_core::Board;
use machine_desc::Machine;
use world::{StepOutcome, TableWorld};

/// An actor with its seat at a table.
#[derive(Drop)]
pub struct ActorSeat {
    /// The actor.
    pub actor: AnyActor,
    /// Its seat.
    pub seat: TableSeat,
}

impl AnyActor {
    /// One step of the actor over its seat.
    fn step_shared(&mut self, machine: &Machine, world: &mut TableWorld<'_>) -> StepOutcome
        requires machine { world.old.table.now.table.shared.key.machine ≡ machine.now }
        requires ready { IsReady world.old.table.now.table.shared.table_id (who self.old) (stands self.old)
            world.old.seat.now }
        ensures who { who self.new ≡ who self.old }
        ensures table { world.new.table.now ≡ world.old.table.now }
        ensures reference { world.new.seat.ghost_name ≡ world.old.seat.ghost_name }
        ensures same { SameSeat world.old.seat.now world.new.seat.now }
        ensures ready { IsReady world.old.table.now.table.shared.table_id (who self.new) (stands self.new)
            world.new.seat.now }
        ensures rises { Rises machine.now (is_ended result) world.old.seat.now.view.who world.new.seat.now.view.who }
        ensures answers { SeatSteps machine.now self.old world.old.seat.now.view result world.new.seat.now.view
            self.new }
    {
        match self {
            AnyActor::Int(int) => int.step(machine, world),
            AnyActor::Poll(poll) => poll.step(machine, world),
            AnyActor::Worker(worker) => worker.step(machine, world),
            AnyActor::Ec(controller) => controller.step(machine, world),
            AnyActor::Device(device) => device.step(machine, world),
            AnyActor::Firmware(firmware) => firmware.step(machine, world),
        }
    }
}

impl ActorSeat {
    /// One step of the actor. `machine` is the machine of the table's board, and the seat is one of this table,
    /// without a turn, which has the actor in its phase.
    ///
    /// Behind it the actor is at its end, where that is answered, or the seat tells of one step more: a pulse of a
    /// device, and of every other actor a turn that was taken or found out, or a try at the Global Lock's word. The
    /// answer and the actor's next phase are what that one call of the table told: NotReady comes of a turn in which
    /// there was nothing to add, Out of a turn that was found out, Moved of an exchange that failed, and Stepped of
    /// all others.
    pub fn step(&mut self, table: &LockTable<Board>, machine: &Machine) -> StepOutcome
        requires machine { table.now.table.shared.key.machine ≡ machine.now }
        requires ready { IsReady table.now.table.shared.table_id (who self.old.actor) (stands self.old.actor)
            self.old.seat }
        ensures who { who self.new.actor ≡ who self.old.actor }
        ensures same { SameSeat self.old.seat self.new.seat }
        ensures ready { IsReady table.now.table.shared.table_id (who self.new.actor) (stands self.new.actor)
            self.new.seat }
        ensures rises { Rises machine.now (is_ended result) self.old.seat.view.who self.new.seat.view.who }
        ensures answers { SeatSteps machine.now self.old.actor self.old.seat.view result self.new.seat.view
            self.new.actor }
    {
        let mut world = TableWorld::new(table, &mut self.seat);
        self.actor.step_shared(machine, &mut world)
    }
}
