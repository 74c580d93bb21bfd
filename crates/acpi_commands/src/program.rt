ghost use Rattle.std.specs.Prelude.{◌≡◌, ◌+◌, ◌≤◌, length};
ghost use Rattle.acpi_io.specs.Faults.{RoseByOne};
ghost use Rattle.acpi_commands.specs.declared.command.Command.{Command};
ghost use Rattle.acpi_commands.specs.Run.{Answers, ByCommand, ByTask, Completes, Does};
ghost use Rattle.acpi_commands.specs.Words.{IsCommand, IsInRange, limit_of, most_reads};

use crate::check::check_log;
use crate::command::{Command, NoCommand, Task, command_of};
use crate::make::make;
use crate::replay::replay;
use crate::run::run;
use crate::status::Status;
use acpi_io::{ReadAllFault, Sink, Source, read_all};
use acpi_regs::Gate;
use std::alloc::Global;
use std::thread::Threads;

/// Does what the words say, and answers how it went.
///
/// The word `run` reads a description from the source, runs its machine with each actor on a thread of its own, and
/// writes the log of what happened to the sink. Each actor passes the gate before each step on its thread. The word
/// `replay` runs the machine on one thread: each name of the description's schedule has a step, and then come rounds.
/// The word `check` reads a log, judges it, and writes `complete` and the number of its entries where it is complete.
/// The words `make N S` read nothing: they make the machine of the number N and the size S, run it as `run` does, and
/// write a summary of its history.
///
/// Refusals come in this order: `Usage`; `ReadFault` or `TooLarge`, as the reading meets them; for a description
/// `NotJson`, `BadShape`, `BadMachine`, `TooLong`, and for a log `BadLog`, `Illegal`, `Unfinished`; `WriteFault`.
/// `Memory` may come in place of each, before the machine runs or the verdict stands: while the words are read, where
/// none is empty or starts with `-`; else only where they are a command, no read failed and no more bytes were taken
/// than the command reads. After every refusal but `WriteFault` nothing was written, and after that one a front of
/// the text was.
pub fn acpi_events<R: Threads + Sync, S: Source, K: Sink, G: Gate>(
    rt: &R,
    alloc: Global,
    words: &[String],
    source: &mut S,
    sink: &mut K,
    gate: &G,
) -> Status
    ensures answers { Answers words.now (source.new ≡ source.old) (sink.new ≡ sink.old)
        (S.left source.old) (S.left source.new) (K.held sink.old) (K.held sink.new) result }

    // A fault comes only where its count rose in this call, by exactly one.
    ensures read_fault { result ≡ Status.ReadFault
        → RoseByOne (S.faults source.old) (S.faults source.new) }
    ensures write_fault { result ≡ Status.WriteFault
        → RoseByOne (K.faults sink.old) (K.faults sink.new) }

    // Each fault is told: where another status is answered, none came.
    ensures read_told { ¬ result ≡ Status.ReadFault
        → S.faults source.new ≡ S.faults source.old }
    ensures write_told { ¬ result ≡ Status.WriteFault
        → K.faults sink.new ≡ K.faults sink.old }

    // What is accepted is done, where memory suffices.
    ensures completes { Completes words.now (S.left source.old)
        (RoseByOne (S.faults source.old) (S.faults source.new))
        (RoseByOne (K.faults sink.old) (K.faults sink.new)) result }

    ensures source_later { S.faults source.old ≤ S.faults source.new }
    ensures sink_later { K.faults sink.old ≤ K.faults sink.new }
    ensures reads { (c : Command) → IsCommand words.now c
        → S.reads source.new ≤ S.reads source.old + most_reads c }
{
    answer(rt, alloc, words, source, sink, gate)
}

/// `acpi_events`, whose clause on completeness follows from these.
fn answer<R: Threads + Sync, S: Source, K: Sink, G: Gate>(
    rt: &R,
    alloc: Global,
    words: &[String],
    source: &mut S,
    sink: &mut K,
    gate: &G,
) -> Status
    ensures answers { Answers words.now (source.new ≡ source.old) (sink.new ≡ sink.old)
        (S.left source.old) (S.left source.new) (K.held sink.old) (K.held sink.new) result }
    ensures read_fault { result ≡ Status.ReadFault
        → RoseByOne (S.faults source.old) (S.faults source.new) }
    ensures write_fault { result ≡ Status.WriteFault
        → RoseByOne (K.faults sink.old) (K.faults sink.new) }
    ensures read_told { ¬ result ≡ Status.ReadFault
        → S.faults source.new ≡ S.faults source.old }
    ensures write_told { ¬ result ≡ Status.WriteFault
        → K.faults sink.new ≡ K.faults sink.old }
    ensures source_later { S.faults source.old ≤ S.faults source.new }
    ensures sink_later { K.faults sink.old ≤ K.faults sink.new }
    ensures reads { (c : Command) → IsCommand words.now c
        → S.reads source.new ≤ S.reads source.old + most_reads c }
{
    match command_of(alloc, words) {
        Ok(command) => obey(rt, alloc, command, source, sink, gate),
        Err(NoCommand::Usage) => Status::Usage,
        Err(NoCommand::Memory) => Status::Memory,
    }
}

/// Does a command.
fn obey<R: Threads + Sync, S: Source, K: Sink, G: Gate>(
    rt: &R,
    alloc: Global,
    command: Command,
    source: &mut S,
    sink: &mut K,
    gate: &G,
) -> Status
    requires { IsInRange command }
    ensures answers { ByCommand command (source.new ≡ source.old) (sink.new ≡ sink.old)
        (S.left source.old) (S.left source.new) (K.held sink.old) (K.held sink.new) result }
    ensures read_fault { result ≡ Status.ReadFault
        → RoseByOne (S.faults source.old) (S.faults source.new) }
    ensures write_fault { result ≡ Status.WriteFault
        → RoseByOne (K.faults sink.old) (K.faults sink.new) }
    ensures read_told { ¬ result ≡ Status.ReadFault
        → S.faults source.new ≡ S.faults source.old }
    ensures write_told { ¬ result ≡ Status.WriteFault
        → K.faults sink.new ≡ K.faults sink.old }
    ensures source_later { S.faults source.old ≤ S.faults source.new }
    ensures sink_later { K.faults sink.old ≤ K.faults sink.new }
    ensures reads { S.reads source.new ≤ S.reads source.old + most_reads command }
{
    match command {
        Command::Read(task) => read(rt, alloc, task, source, sink, gate),
        Command::Make { number, size } => make(rt, alloc, number, size, sink, gate),
    }
}

/// Reads what a task takes, and does it.
fn read<R: Threads + Sync, S: Source, K: Sink, G: Gate>(
    rt: &R,
    alloc: Global,
    task: Task,
    source: &mut S,
    sink: &mut K,
    gate: &G,
) -> Status
    ensures answers { ByTask task (sink.new ≡ sink.old)
        (S.left source.old) (S.left source.new) (K.held sink.old) (K.held sink.new) result }
    ensures read_fault { result ≡ Status.ReadFault
        → RoseByOne (S.faults source.old) (S.faults source.new) }
    ensures write_fault { result ≡ Status.WriteFault
        → RoseByOne (K.faults sink.old) (K.faults sink.new) }
    ensures read_told { ¬ result ≡ Status.ReadFault
        → S.faults source.new ≡ S.faults source.old }
    ensures write_told { ¬ result ≡ Status.WriteFault
        → K.faults sink.new ≡ K.faults sink.old }
    ensures source_later { S.faults source.old ≤ S.faults source.new }
    ensures sink_later { K.faults sink.old ≤ K.faults sink.new }
    ensures reads { S.reads source.new ≤ S.reads source.old + (limit_of task + 1) }
{
    match read_all(alloc, source, task.limit()) {
        Ok(bytes) => perform(rt, alloc, task, &bytes, sink, gate),
        Err(ReadAllFault::ReadFault) => Status::ReadFault,
        Err(ReadAllFault::TooLarge) => Status::TooLarge,
        Err(ReadAllFault::Memory) => Status::Memory,
    }
}

/// Does a task with what it has read.
fn perform<R: Threads + Sync, K: Sink, G: Gate>(
    rt: &R,
    alloc: Global,
    task: Task,
    bytes: &[u8],
    sink: &mut K,
    gate: &G,
) -> Status
    requires { length bytes.now ≤ limit_of task }
    ensures ends { Does task bytes.now (sink.new ≡ sink.old)
        (K.held sink.old) (K.held sink.new) result }
    ensures later { K.faults sink.old ≤ K.faults sink.new }
    ensures cause { result ≡ Status.WriteFault → RoseByOne (K.faults sink.old) (K.faults sink.new) }
    ensures told { ¬ result ≡ Status.WriteFault → K.faults sink.new ≡ K.faults sink.old }
{
    match task {
        Task::Run => run(rt, alloc, bytes, sink, gate),
        Task::Replay => replay(alloc, bytes, sink),
        Task::Check => check_log(alloc, bytes, sink),
    }
}
