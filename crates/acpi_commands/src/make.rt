//! A run of a machine that is made from a number and a size.
ghost use Rattle.std.specs.Prelude.{◌≡◌, ◌≤◌, IfOk};
ghost use Rattle.acpi_io.specs.Faults.{RoseByOne};
ghost use Rattle.machine_maker.specs.Maker.{made};
ghost use Rattle.acpi_commands.specs.Run.{Summarizes};

use crate::status::Status;
use acpi_io::{Sink, WriteFault, write_all};
use acpi_regs::{Gate, Memory};
use run_summary::summarize;
use std::alloc::Global;
use std::thread::Threads;
use threaded_run::{Prepared, at_rest, prepare_machine, race};

/// Runs the machine of a number and a size, each actor on a thread of its own, and writes the summary of its history
/// to the sink. Each actor passes the gate before each of its steps.
pub fn make<R: Threads + Sync, K: Sink, G: Gate>(
    rt: &R,
    alloc: Global,
    number: u32,
    size: u8,
    sink: &mut K,
    gate: &G,
) -> Status
    requires some { 1 ≤ size }
    requires few { size ≤ 64 }
    ensures ends { Summarizes number size (sink.new ≡ sink.old) (K.held sink.old) (K.held sink.new) result }
    ensures later { K.faults sink.old ≤ K.faults sink.new }
    ensures cause { result ≡ Status.WriteFault → RoseByOne (K.faults sink.old) (K.faults sink.new) }
    ensures told { ¬ result ≡ Status.WriteFault → K.faults sink.new ≡ K.faults sink.old }
{
    let Ok(prepared) = prepare_made(alloc, number, size) else {
        return Status::Memory;
    };
    let board = at_rest(race(rt, prepared, gate));
    match write_all(sink, summarize(&board, number, size).as_slice()) {
        Ok(()) => Status::Ok,
        Err(WriteFault) => Status::WriteFault,
    }
}

/// Makes the machine of a number and a size, and takes all the memory that its run needs.
fn prepare_made(alloc: Global, number: u32, size: u8) -> Result<Prepared, Memory>
    requires some { 1 ≤ size }
    requires few { size ≤ 64 }
    ensures { IfOk result (λ p. p ≡ made number size) }
{
    let machine = machine_maker::make(alloc, number, size)?;
    prepare_machine(alloc, machine)
}
