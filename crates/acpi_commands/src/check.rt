ghost use Rattle.std.specs.Prelude.{◌≡◌, ◌≤◌, IfErr, IfOk, List, length};
ghost use Rattle.acpi_io.specs.Faults.{RoseByOne};
ghost use Rattle.acpi_regs.specs.declared.entry.Entry.{Entry};
ghost use Rattle.machine_desc.specs.Machine.{MachineData};
ghost use Rattle.acpi_commands.specs.Check.{FromLog, IsCompleteLog, RefusesLog, complete_text};

use crate::status::Status;
use acpi_io::{Sink, WriteFault, write_all};
use history_text::{Line, LogFault, read_log};
use run_checker::{Verdict, check};
use std::alloc::Global;

/// Judges the log that the bytes are, and writes `complete` and the number of its entries where it is complete.
pub fn check_log<K: Sink>(alloc: Global, bytes: &[u8], sink: &mut K) -> Status
    requires { length bytes.now ≤ 67108864 }
    ensures ends { FromLog bytes.now (sink.new ≡ sink.old)
        (K.held sink.old) (K.held sink.new) result }
    ensures later { K.faults sink.old ≤ K.faults sink.new }
    ensures cause { result ≡ Status.WriteFault → RoseByOne (K.faults sink.old) (K.faults sink.new) }
    ensures told { ¬ result ≡ Status.WriteFault → K.faults sink.new ≡ K.faults sink.old }
{
    match judge(alloc, bytes) {
        Ok(entries) => match write_all(sink, line_of_complete(entries).as_slice()) {
            Ok(()) => Status::Ok,
            Err(WriteFault) => Status::WriteFault,
        },
        Err(refusal) => refusal,
    }
}

/// How many entries the complete log has that the bytes are, else why they are none.
fn judge(alloc: Global, bytes: &[u8]) -> Result<u32, Status>
    requires { length bytes.now ≤ 67108864 }
    ensures complete { IfOk result (λ n. (m : MachineData) × (history : List Entry)
        × IsCompleteLog bytes.now m history × (n ≡ length history)) }
    ensures refused { IfErr result (λ status. RefusesLog bytes.now status) }
{
    match read_log(alloc, bytes) {
        Ok(log) => match check(alloc, &log) {
            Ok(Verdict::Complete) => Ok(log.rest),
            Ok(Verdict::Illegal { line, rule }) => Err(Status::Illegal { line, rule }),
            Ok(Verdict::Unfinished { actor }) => Err(Status::Unfinished { actor }),
            Err(_) => Err(Status::Memory),
        },
        Err(LogFault::BadLine(line)) => Err(Status::BadLog(line)),
        Err(LogFault::Memory) => Err(Status::Memory),
    }
}

/// What is written of a complete log.
fn line_of_complete(entries: u32) -> Line
    ensures { result ≡ complete_text entries }
{
    let mut line = Line::new();
    line.push_text(b"complete ");
    line.push_number(entries);
    line.push(b'\n');
    line
}
