//! A run of a machine, on threads.
ghost use Rattle.std.specs.Prelude.{◌≡◌, ◌≤◌};
ghost use Rattle.acpi_io.specs.Faults.{RoseByOne};
ghost use Rattle.acpi_commands.specs.declared.command.Task.TheVariants as task;
ghost use Rattle.acpi_commands.specs.Run.{FromBytes};

use crate::log::law_log;
use crate::status::Status;
use acpi_io::{Sink, WriteFault};
use acpi_regs::Gate;
use std::alloc::Global;
use std::thread::Threads;
use threaded_run::{carry_out, prepare_run, race};

/// Runs the machine that the bytes describe, each actor on a thread of its own, and writes its log to the sink. Each
/// actor passes the gate before each of its steps.
pub fn run<R: Threads + Sync, K: Sink, G: Gate>(
    rt: &R,
    alloc: Global,
    bytes: &[u8],
    sink: &mut K,
    gate: &G,
) -> Status
    ensures ends { FromBytes task.Run bytes.now (sink.new ≡ sink.old)
        (K.held sink.old) (K.held sink.new) result }
    ensures later { K.faults sink.old ≤ K.faults sink.new }
    ensures cause { result ≡ Status.WriteFault → RoseByOne (K.faults sink.old) (K.faults sink.new) }
    ensures told { ¬ result ≡ Status.WriteFault → K.faults sink.new ≡ K.faults sink.old }
{
    law_log();
    match prepare_run(alloc, bytes) {
        Ok(prepared) => {
            let raced = race(rt, prepared, gate);
            raced.machine().law_rules();
            match carry_out(raced, sink) {
                Ok(()) => Status::Ok,
                Err(WriteFault) => Status::WriteFault,
            }
        }
        Err(fault) => Status::from(fault),
    }
}
