//! A program that shows the steps of a machine's actors, one after another. It reads a description on standard input
//! and makes the steps of its schedule over a world of one thread. For each it prints the actor, the outcome and the
//! Global Lock's word behind it, and below that what the actor entered into the journal. Then it makes rounds until
//! nobody has a step, and tells whether the board is at rest.
//!
//! The gate runs it on a machine whose schedule goes through each line of the table of steps, with what allows the
//! step there and with what does not.
#![tactic(auto)]

ghost use Rattle.std.specs.Prelude.{◌≡◌, map};
ghost use Rattle.machine_desc.specs.Actors.{actors_of};
ghost use Rattle.sci_threads.specs.Actors.{IsSound, core_in, who};

use acpi_io::{StdSource, read_all};
use acpi_regs::Actor;
use machine_core::Board;
use machine_desc::Machine;
use machine_reader::read_machine;
use sci_threads::laws::law_start;
use sci_threads::{AnyActor, all_actors, drain, step_of};
use std::io;
use std::io::Print;
use world::{SerialWorld, StepOutcome};

fn main(rt: HostRuntime) -> io::Result<()> {
    let mut source = StdSource::new(rt.reader());
    match read_all(rt.alloc(), &mut source, 1_048_576) {
        Ok(bytes) => match read_machine(rt.alloc(), &bytes) {
            Ok(machine) => run(&rt, &machine),
            Err(_) => println!(rt; "no description"),
        },
        Err(_) => println!(rt; "nothing read"),
    }
}

/// Makes the actors of the machine and its world, each at its start, and shows their steps.
fn run(rt: &HostRuntime, machine: &Machine) -> io::Result<()> {
    if machine.weight() > 1_048_576 {
        return println!(rt; "too long");
    }
    let actors = all_actors(rt.alloc(), machine);
    let copy = machine.copied(rt.alloc());
    match (actors, copy) {
        (Ok(mut actors), Ok(copy)) => match Board::new(rt.alloc(), copy) {
            Ok(board) => {
                let mut world = SerialWorld::fresh(board);
                law_start();
                show(rt, machine, &mut world, &mut actors)
            }
            Err(_) => println!(rt; "no memory"),
        },
        _ => println!(rt; "no memory"),
    }
}

/// Shows the steps of the schedule, and makes rounds to their end.
fn show(
    rt: &impl Print,
    machine: &Machine,
    world: &mut SerialWorld,
    actors: &mut Vec<AnyActor>,
) -> io::Result<()>
    requires machine { world.old.board.machine ≡ machine.now }
    requires actors { map who actors.old.items ≡ actors_of machine.now }
    requires sound { IsSound machine.now (core_in world.old actors.old.items) }
{
    machine.law_rules();
    for name in machine.schedule() {
        let before = world.board().len();
        let outcome = step_of(world, machine, actors, *name);
        print_step(rt, world, *name, outcome, before)?;
    }
    drain(world, machine, actors);
    println!(rt; "at rest: {}", world.board().rest())
}

/// Prints what a step came to, and the entries behind the first `before`.
fn print_step(
    rt: &impl Print,
    world: &SerialWorld,
    name: Actor,
    outcome: StepOutcome,
    before: u32,
) -> io::Result<()> {
    println!(rt; "{name:?} {outcome:?} {}", world.words().facs)?;
    for i in before..world.board().len() {
        println!(rt; "    {:?}", world.board().entry(i).deed)?;
    }
    Ok(())
}
