//! A replay of a machine, on one thread.
ghost use Rattle.std.specs.Prelude.{◌≡◌, ◌≤◌, All, List, Ok, OnErr, OnOk, IfErr, IfOk, IfSome, map};
ghost use Rattle.acpi_regs.specs.declared.entry.Entry.{Entry};
ghost use Rattle.acpi_regs.specs.Core.{first_core};
ghost use Rattle.acpi_io.specs.Faults.{RoseByOne};
ghost use Rattle.acpi_io.specs.Sink.{WritesAll};
ghost use Rattle.history_text.specs.Lines.{IsReadBack};
ghost use Rattle.history_text.specs.Named.{IsEntry};
ghost use Rattle.machine_desc.specs.Actors.{actors_of};
ghost use Rattle.machine_desc.specs.Weight.{weight_of};
ghost use Rattle.machine_history.specs.Complete.{Complete};
ghost use Rattle.machine_history.specs.Played.{Played};
ghost use Rattle.machine_reader.specs.Description.{Describes};
ghost use Rattle.sci_threads.specs.Actors.{core_in, who};
ghost use Rattle.acpi_commands.specs.declared.command.Task.TheVariants as task;
ghost use Rattle.acpi_commands.specs.Run.{FromBytes, Refuses, text};

use crate::log::law_log;
use crate::staged::Staged;
use crate::status::Status;
use acpi_io::{Sink, WriteFault};
use core_laws::laws::{law_gives, law_sound};
use history_text::laws::{law_canonical, law_entries};
use history_text::write_log;
use lock_table::{Bits, Words};
use machine_core::Board;
use machine_desc::Machine;
use machine_reader::{read_machine, write_machine};
use sci_threads::{AnyActor, all_actors, run_schedule};
use std::alloc::Global;
use world::SerialWorld;

/// Replays the machine that the bytes describe, by its schedule and then in rounds, and writes its log to the sink.
pub fn replay<K: Sink>(alloc: Global, bytes: &[u8], sink: &mut K) -> Status
    ensures ends { FromBytes task.Replay bytes.now (sink.new ≡ sink.old)
        (K.held sink.old) (K.held sink.new) result }
    ensures later { K.faults sink.old ≤ K.faults sink.new }
    ensures cause { result ≡ Status.WriteFault → RoseByOne (K.faults sink.old) (K.faults sink.new) }
    ensures told { ¬ result ≡ Status.WriteFault → K.faults sink.new ≡ K.faults sink.old }
{
    law_log();
    match stage(alloc, bytes) {
        Ok(staged) => {
            staged.machine.law_rules();
            match carry_out(staged, sink) {
                Ok(()) => Status::Ok,
                Err(WriteFault) => Status::WriteFault,
            }
        }
        Err(refusal) => refusal,
    }
}

/// Reads a description and takes all the memory that its replay needs.
fn stage(alloc: Global, bytes: &[u8]) -> Result<Staged, Status>
    ensures ok { IfOk result (λ s. Describes bytes.now (Ok s.machine)) }
    ensures read_back { IfOk result (λ s. IsReadBack s.machine) }
    ensures refused { IfErr result (λ status. Refuses bytes.now status) }
{
    let machine = match read_machine(alloc, bytes) {
        Ok(machine) => machine,
        Err(fault) => return Err(Status::from(fault)),
    };
    law_canonical(&machine);
    match with_room(alloc, machine) {
        Some(staged) => Ok(staged),
        None => Err(Status::Memory),
    }
}

/// A machine with all that its replay needs; `None` where memory was wanting.
fn with_room(alloc: Global, machine: Machine) -> Option<Staged>
    requires { weight_of machine ≤ 1048576 }
    ensures { IfSome result (λ s. s.machine ≡ machine) }
{
    let Ok(text) = write_machine(alloc, &machine) else {
        return None;
    };
    let Ok(actors) = all_actors(alloc, &machine) else {
        return None;
    };
    let Ok(copy) = machine.copied(alloc) else {
        return None;
    };
    let Ok(board) = Board::new(alloc, copy) else {
        return None;
    };
    let words = Words {
        facs: 0,
        pins: Bits::new(),
    };
    let world = SerialWorld::new(board, words);
    Some(Staged {
        machine,
        world,
        actors,
        text,
    })
}

/// Replays a staged machine to its end and writes its log. It takes no memory.
fn carry_out<K: Sink>(staged: Staged, sink: &mut K) -> Result<(), WriteFault>
    ensures ends { (history : List Entry) × Complete staged.machine history × Played staged.machine history
        × All IsEntry history × WritesAll (K.held sink.old) (K.held sink.new) (text staged.machine history) result }
    ensures later { K.faults sink.old ≤ K.faults sink.new }
    ensures cause { OnErr result (RoseByOne (K.faults sink.old) (K.faults sink.new)) }
    ensures told { OnOk result (K.faults sink.new ≡ K.faults sink.old) }
{
    let Staged {
        machine,
        mut world,
        mut actors,
        text,
    } = staged;
    play(&machine, &mut world, &mut actors);
    law_entries(world.board());
    write_log(&text, world.board(), sink)
}

/// Runs the actors of a machine from their start to the end, by its schedule and then in rounds.
fn play(machine: &Machine, world: &mut SerialWorld, actors: &mut Vec<AnyActor>)
    requires machine { world.old.board.machine ≡ machine.now }
    requires actors { map who actors.old.items ≡ actors_of machine.now }
    requires first { core_in world.old actors.old.items ≡ first_core }
    ensures machine { world.new.board.machine ≡ machine.now }
    ensures complete { Complete machine.now world.new.board.entries }
    ensures played { Played machine.now world.new.board.entries }
{
    machine.law_rules();
    law_sound();
    law_gives();
    run_schedule(world, machine, actors);
}
