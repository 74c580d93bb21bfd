//! A program that shows how near histories come to the weight of their machine, and what a board tells at the end.
//!
//! Standard input is a table: a line with a name, and a line with a description. For each machine the program makes
//! the steps of the schedule, and behind each it lets the interrupt handler, the poll, the first worker and the
//! controller go on until none of them does anything. So each act of the firmware is answered to its end before the
//! next: the line of a level event that stays asserted brings all its runs. Then it makes rounds, and prints the
//! number of entries, the weight, and the last line of the log.
//!
//! Where the name ends with `, its log` it makes the steps of the schedule alone, then rounds, and prints the whole
//! log as `log_bytes` gives it, and the references to each listed event behind it.
//!
//! No history is longer than the weight (`law_weight` of `machine_history`). The table has machines whose longest
//! history is as long as that, so the weight could not be less.
#![tactic(auto)]

ghost use Rattle.std.specs.Prelude.{◌≡◌, map};
ghost use Rattle.machine_desc.specs.Actors.{actors_of};
ghost use Rattle.sci_threads.specs.Actors.{IsSound, core_in, who};

use acpi_io::{StdSource, read_all};
use acpi_regs::{Actor, Memory};
use history_text::log_bytes;
use machine_core::Board;
use machine_desc::Machine;
use machine_reader::read_machine;
use sci_threads::laws::law_start;
use sci_threads::{AnyActor, all_actors, drain, step_of};
use std::alloc::Global;
use std::io;
use world::SerialWorld;

/// The greatest length of the input, in bytes.
const LIMIT: usize = 2_097_152;

/// How often each of them may go on at most, behind one step of the schedule.
const MOST: u32 = 1_048_576;

/// How a machine is played, and what is told of it.
#[derive(Clone, Copy, PartialEq, Eq)]
enum Way {
    /// Each step of the schedule is answered to its end; the length of the history.
    Length,
    /// The steps of the schedule alone; the log.
    Log,
}

fn main(rt: HostRuntime) -> io::Result<()> {
    let mut source = StdSource::new(rt.reader());
    let Ok(bytes) = read_all(rt.alloc(), &mut source, LIMIT) else {
        return Err(io::ErrorKind::OutOfMemory.into());
    };
    let mut name: Option<&[u8]> = None;
    for line in bytes.split(|byte| *byte == b'\n') {
        match name {
            None => name = Some(line),
            Some(given) => {
                let given = str::from_utf8(given).unwrap_or("?");
                let way = if given.ends_with(", its log") {
                    Way::Log
                } else {
                    Way::Length
                };
                match played(rt.alloc(), line, way) {
                    Some(told) => println!(&rt; "{given}:{told}")?,
                    None => println!(&rt; "{given}: no description")?,
                }
                name = None;
            }
        }
    }
    Ok(())
}

/// What is told of the machine of a description, once it has been played.
fn played(alloc: Global, description: &[u8], way: Way) -> Option<String> {
    let machine = read_machine(alloc, description).ok()?;
    told_of(alloc, &machine, way)
}

/// The same of a machine.
fn told_of(alloc: Global, machine: &Machine, way: Way) -> Option<String> {
    if machine.weight() > 1_048_576 {
        return None;
    }
    let Ok(mut actors) = all_actors(alloc, machine) else {
        return None;
    };
    let Ok(copy) = machine.copied(alloc) else {
        return None;
    };
    let Ok(board) = Board::new(alloc, copy) else {
        return None;
    };
    let mut world = SerialWorld::fresh(board);
    law_start();
    play(machine, &mut world, &mut actors, way);
    match way {
        Way::Length => length(alloc, world.board()).ok(),
        Way::Log => log(alloc, world.board()).ok(),
    }
}

/// The whole log, and how many references each listed event has.
fn log(alloc: Global, board: &Board) -> Result<String, Memory> {
    let text = log_bytes(alloc, board)?;
    let text = str::from_utf8(&text).unwrap_or("?");
    let mut told = format!(in alloc; "\n{text}references:")?;
    for it in board.machine().events() {
        let event = it.listed.event;
        if board.lists(event) {
            told.push_str(&format!(in alloc; " {event:?} {}", board.count(event))?)?;
        }
    }
    Ok(told)
}

/// The number of entries, the weight, and the last line of the log.
fn length(alloc: Global, board: &Board) -> Result<String, Memory> {
    let text = log_bytes(alloc, board)?;
    let lines = text.strip_suffix(b"\n").unwrap_or(&text);
    let last = lines.split(|byte| *byte == b'\n').last().unwrap_or(b"");
    let last = str::from_utf8(last).unwrap_or("?");
    let told = format!(in alloc; " {} of {}, {last}", board.len(), board.machine().weight())?;
    Ok(told)
}

/// Makes the steps of the schedule, the OS's answer to each behind it unless the log is wanted, and rounds to their
/// end.
fn play(machine: &Machine, world: &mut SerialWorld, actors: &mut Vec<AnyActor>, way: Way)
    requires machine { world.old.board.machine ≡ machine.now }
    requires actors { map who actors.old.items ≡ actors_of machine.now }
    requires sound { IsSound machine.now (core_in world.old actors.old.items) }
{
    machine.law_rules();
    for name in machine.schedule() {
        step_of(world, machine, actors, *name);
        if way == Way::Length {
            answer(machine, world, actors);
        }
    }
    drain(world, machine, actors);
}

/// Lets the OS and the controller go on until none of them does anything.
fn answer(machine: &Machine, world: &mut SerialWorld, actors: &mut Vec<AnyActor>)
    requires machine { world.old.board.machine ≡ machine.now }
    requires actors { map who actors.old.items ≡ actors_of machine.now }
    requires sound { IsSound machine.now (core_in world.old actors.old.items) }
    ensures machine { world.new.board.machine ≡ machine.now }
    ensures actors { map who actors.new.items ≡ actors_of machine.now }
    ensures sound { IsSound machine.now (core_in world.new actors.new.items) }
{
    for _ in 0..MOST {
        if !goes_on(machine, world, actors) {
            return;
        }
    }
}

/// One step of each of them. Whether one did anything.
fn goes_on(machine: &Machine, world: &mut SerialWorld, actors: &mut Vec<AnyActor>) -> bool
    requires machine { world.old.board.machine ≡ machine.now }
    requires actors { map who actors.old.items ≡ actors_of machine.now }
    requires sound { IsSound machine.now (core_in world.old actors.old.items) }
    ensures machine { world.new.board.machine ≡ machine.now }
    ensures actors { map who actors.new.items ≡ actors_of machine.now }
    ensures sound { IsSound machine.now (core_in world.new actors.new.items) }
{
    machine.law_rules();
    let mut went = step_of(world, machine, actors, Actor::Int).is_stepped();
    went |= step_of(world, machine, actors, Actor::Poll).is_stepped();
    went |= step_of(world, machine, actors, Actor::Worker(0)).is_stepped();
    if machine.controller().is_some() {
        went |= step_of(world, machine, actors, Actor::Ec).is_stepped();
    }
    went
}
