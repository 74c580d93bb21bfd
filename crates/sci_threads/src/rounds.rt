ghost use Rattle.std.specs.Prelude.{◌≡◌, ◌<◌, ℕ, true, false, length, map, slice_get, Some};
ghost use Rattle.acpi_regs.specs.declared.actor.Actor.{Actor};
ghost use Rattle.acpi_regs.specs.Core.{first_core};
ghost use Rattle.machine_desc.specs.Actors.{actors_of, ec_count};
ghost use Rattle.machine_desc.specs.Kept.{counts_in};
ghost use Rattle.machine_desc.specs.Rules.{has_actor};
ghost use Rattle.machine_history.specs.Complete.{Complete};
ghost use Rattle.machine_history.specs.Played.{Played, Settles, steps};
ghost use Rattle.sci_threads.specs.Actors.{IsSound, core_in, who};
ghost use Rattle.sci_threads.specs.Rounds.{Begins, RowDone, StepDone};

use crate::AnyActor;
use acpi_regs::Actor;
use core_laws::laws::{law_gives, law_latches, law_no_deadlock, law_rounds};
use machine_desc::Machine;
use world::{SerialWorld, StepOutcome};

/// One step of the actor at a place.
fn step_at(
    world: &mut SerialWorld,
    machine: &Machine,
    actors: &mut Vec<AnyActor>,
    k: usize,
) -> StepOutcome
    requires machine { world.old.board.machine ≡ machine.now }
    requires actors { map who actors.old.items ≡ actors_of machine.now }
    requires sound { IsSound machine.now (core_in world.old actors.old.items) }
    requires within { k < length actors.old.items }
    ensures machine { world.new.board.machine ≡ machine.now }
    ensures actors { map who actors.new.items ≡ actors_of machine.now }
    ensures sound { IsSound machine.now (core_in world.new actors.new.items) }
    ensures step { (a : Actor) → slice_get (actors_of machine.now) k ≡ Some a
        → StepDone machine.now a (core_in world.old actors.old.items) result (core_in world.new actors.new.items) }
{
    machine.law_rules();
    law_gives();
    law_latches();
    law_rounds();
    actors[k].step(machine, world)
}

/// One step of each actor, in their order. Whether one of them did anything.
fn round(world: &mut SerialWorld, machine: &Machine, actors: &mut Vec<AnyActor>) -> bool
    requires machine { world.old.board.machine ≡ machine.now }
    requires actors { map who actors.old.items ≡ actors_of machine.now }
    requires sound { IsSound machine.now (core_in world.old actors.old.items) }
    ensures machine { world.new.board.machine ≡ machine.now }
    ensures actors { map who actors.new.items ≡ actors_of machine.now }
    ensures sound { IsSound machine.now (core_in world.new actors.new.items) }
    ensures round { RowDone machine.now (actors_of machine.now) (core_in world.old actors.old.items) result
        (core_in world.new actors.new.items) }
{
    let mut moved = false;
    for k in 0..actors.len() {
        if step_at(world, machine, actors, k).is_stepped() {
            moved = true;
        }
    }
    moved
}

/// Makes rounds, one step of each actor in the order in which they are served, until one in which nobody did anything.
///
/// `machine` is the machine of the world's board, and `actors` are all its actors, in their order. Beside the world
/// they make a sound core. The history that is left begins with the one that was there, and is complete: nothing
/// deadlocks.
pub fn drain(world: &mut SerialWorld, machine: &Machine, actors: &mut Vec<AnyActor>)
    requires machine { world.old.board.machine ≡ machine.now }
    requires actors { map who actors.old.items ≡ actors_of machine.now }
    requires sound { IsSound machine.now (core_in world.old actors.old.items) }
    ensures machine { world.new.board.machine ≡ machine.now }
    ensures actors { map who actors.new.items ≡ actors_of machine.now }
    ensures sound { IsSound machine.now (core_in world.new actors.new.items) }
    ensures settles { Settles machine.now (actors_of machine.now) (core_in world.old actors.old.items)
        (core_in world.new actors.new.items) }
    ensures begins { Begins world.old.board.entries world.new.board.entries }
    ensures complete { Complete machine.now world.new.board.entries }
{
    while round(world, machine, actors) {}
    machine.law_rules();
    law_no_deadlock();
}

/// The place of an actor of the machine in the order in which actors are served.
#[tactic(auto, using(crate::proofs::Placing::worker_place, crate::proofs::Placing::ec_place, crate::proofs::Placing::device_place, crate::proofs::Placing::firmware_place))]
fn place_of(machine: &Machine, actor: Actor) -> usize
    requires { has_actor (counts_in machine.now) actor ≡ true }
    ensures { slice_get (actors_of machine.now) result ≡ Some actor }
{
    machine.law_rules();
    let behind_workers = 2 + usize::from(machine.workers());
    match actor {
        Actor::Int => 0,
        Actor::Poll => 1,
        Actor::Worker(number) => 2 + usize::from(number),
        Actor::Ec => behind_workers,
        Actor::Device(number) => behind_workers + controllers(machine) + usize::from(number),
        Actor::Firmware(number) => {
            behind_workers + controllers(machine) + machine.devices().len() + usize::from(number)
        }
    }
}

/// 1 where there is a controller, else 0.
fn controllers(machine: &Machine) -> usize
    ensures { result ≡ ec_count machine.now.controller }
{
    match machine.controller() {
        Some(_) => 1,
        None => 0,
    }
}

/// One step of an actor of the machine. The conditions are those of [`drain`].
pub fn step_of(
    world: &mut SerialWorld,
    machine: &Machine,
    actors: &mut Vec<AnyActor>,
    name: Actor,
) -> StepOutcome
    requires machine { world.old.board.machine ≡ machine.now }
    requires actors { map who actors.old.items ≡ actors_of machine.now }
    requires sound { IsSound machine.now (core_in world.old actors.old.items) }
    requires known { has_actor (counts_in machine.now) name ≡ true }
    ensures machine { world.new.board.machine ≡ machine.now }
    ensures actors { map who actors.new.items ≡ actors_of machine.now }
    ensures sound { IsSound machine.now (core_in world.new actors.new.items) }
    ensures step { StepDone machine.now name (core_in world.old actors.old.items) result
        (core_in world.new actors.new.items) }
{
    let k = place_of(machine, name);
    step_at(world, machine, actors, k)
}

/// Makes one step for each name of the machine's schedule, in order, and then rounds until one in which nobody did
/// anything.
///
/// The conditions are those of [`drain`].
pub fn run_schedule(world: &mut SerialWorld, machine: &Machine, actors: &mut Vec<AnyActor>)
    requires machine { world.old.board.machine ≡ machine.now }
    requires actors { map who actors.old.items ≡ actors_of machine.now }
    requires sound { IsSound machine.now (core_in world.old actors.old.items) }
    ensures machine { world.new.board.machine ≡ machine.now }
    ensures actors { map who actors.new.items ≡ actors_of machine.now }
    ensures sound { IsSound machine.now (core_in world.new actors.new.items) }
    ensures settles { Settles machine.now (actors_of machine.now)
        (steps machine.now machine.now.schedule (core_in world.old actors.old.items)) (core_in world.new actors.new.items) }
    ensures complete { Complete machine.now world.new.board.entries }
    ensures played { core_in world.old actors.old.items ≡ first_core → Played machine.now world.new.board.entries }
{
    make_steps(world, machine, actors);
    drain(world, machine, actors);
}

/// One step for each name of the machine's schedule, in order.
fn make_steps(world: &mut SerialWorld, machine: &Machine, actors: &mut Vec<AnyActor>)
    requires machine { world.old.board.machine ≡ machine.now }
    requires actors { map who actors.old.items ≡ actors_of machine.now }
    requires sound { IsSound machine.now (core_in world.old actors.old.items) }
    ensures machine { world.new.board.machine ≡ machine.now }
    ensures actors { map who actors.new.items ≡ actors_of machine.now }
    ensures sound { IsSound machine.now (core_in world.new actors.new.items) }
    ensures steps { core_in world.new actors.new.items
        ≡ steps machine.now machine.now.schedule (core_in world.old actors.old.items) }
{
    machine.law_rules();
    for name in machine.schedule() {
        step_of(world, machine, actors, *name);
    }
}
