ghost use Rattle.std.specs.Prelude.{◌≡◌, ◌≤◌, ◌++◌, ◌∷◌, OnErr, OnOk, decimal, length};
ghost use Rattle.std.specs.Process.{exit_status};
ghost use Rattle.std.specs.Io.KnownBytes.{Appends};
ghost use Rattle.acpi_io.specs.Faults.{RoseByOne};
ghost use Rattle.acpi_io.specs.Sink.{AddsFront, WritesAll};
ghost use Rattle.acpi_commands.specs.Ending.{bad_machine_text, carried, error_line, status_line};
ghost use Rattle.acpi_commands.specs.Run.{code_of};
ghost use Rattle.history_text.specs.Text.{actor_text};
ghost use Rattle.history_text.specs.Written.{GoesOn};
ghost use Rattle.run_checker.specs.Words.{illegal_text};

use crate::names::{name_of, part_name, rule_name};
use crate::status::Status;
use acpi_io::{Sink, WriteFault};
use acpi_regs::Actor;
use history_text::{Line, Pieces};
use itoa::Buffer;
use machine_desc::BadMachine;
use machine_history::LogRule;
use machine_reader::PathText;
use run_checker::rule_name as log_rule_name;
use std::fmt;
use std::process::ExitCode;

/// Ends a call of the program: tells a refusal on `errors`, in a line with the name of the status and what it
/// carries, and gives the exit code. Of `Ok` it says nothing. Where the line can't be written, the number still tells
/// the status.
pub fn end<K: Sink>(status: &Status, errors: &mut K) -> ExitCode
    ensures code { exit_status result ≡ code_of status.now }
    ensures said { AddsFront (K.held errors.old) (K.held errors.new) (error_line status.now) }

    // All of the line, where no write failed.
    ensures whole { ¬ RoseByOne (K.faults errors.old) (K.faults errors.new)
        → Appends (K.held errors.old) (K.held errors.new) (error_line status.now) }
{
    let _ = tell(status, errors);
    ExitCode::from(status.code())
}

/// Writes the line of a status.
fn tell<K: Sink>(status: &Status, errors: &mut K) -> Result<(), WriteFault>
    ensures ends { WritesAll (K.held errors.old) (K.held errors.new) (error_line status.now) result }
    ensures cause { OnErr result (RoseByOne (K.faults errors.old) (K.faults errors.new)) }
    ensures told { OnOk result (K.faults errors.new ≡ K.faults errors.old) }
{
    match status {
        Status::Ok => Ok(()),
        _ => tell_refusal(status, errors),
    }
}

/// Writes the line of a status that is no `Ok`.
fn tell_refusal<K: Sink>(status: &Status, errors: &mut K) -> Result<(), WriteFault>
    ensures ends { WritesAll (K.held errors.old) (K.held errors.new) (status_line status.now) result }
    ensures cause { OnErr result (RoseByOne (K.faults errors.old) (K.faults errors.new)) }
    ensures told { OnOk result (K.faults errors.new ≡ K.faults errors.old) }
{
    let mut pieces = Pieces::new();
    pieces.put(errors, b"acpi_events: ")?;
    pieces.put(errors, name_of(status).as_bytes())?;
    put_carried(&mut pieces, errors, status)?;
    pieces.put(errors, b"\n")?;
    pieces.finish(errors)
}

/// Puts what a status carries behind what waits, after a space.
fn put_carried<K: Sink>(
    pieces: &mut Pieces,
    errors: &mut K,
    status: &Status,
) -> Result<(), WriteFault>
    ensures goes_on { GoesOn (K.held errors.old) (K.held errors.new)
        (pieces.old ++ carried status.now) pieces.new result }
    ensures cause { OnErr result (RoseByOne (K.faults errors.old) (K.faults errors.new)) }
    ensures told { OnOk result (K.faults errors.new ≡ K.faults errors.old) }
{
    match status {
        Status::BadShape(path) => put_path(pieces, errors, path),
        Status::BadMachine(bad) => pieces.put(errors, line_of_bad_machine(bad).as_slice()),
        Status::TooLong(weight) => pieces.put(errors, line_of_weight(*weight).as_slice()),
        Status::Illegal { line, rule } => {
            pieces.put(errors, line_of_illegal(*line, *rule).as_slice())
        }
        Status::Unfinished { actor } => pieces.put(errors, line_of_actor(*actor).as_slice()),
        Status::BadLog(line) => pieces.put(errors, line_of_number(*line).as_slice()),
        _ => Ok(()),
    }
}

/// Puts a space and a path behind what waits.
fn put_path<K: Sink>(pieces: &mut Pieces, errors: &mut K, path: &PathText) -> Result<(), WriteFault>
    ensures goes_on { GoesOn (K.held errors.old) (K.held errors.new)
        (pieces.old ++ 32 ∷ path.now) pieces.new result }
    ensures cause { OnErr result (RoseByOne (K.faults errors.old) (K.faults errors.new)) }
    ensures told { OnOk result (K.faults errors.new ≡ K.faults errors.old) }
{
    pieces.put(errors, b" ")?;
    pieces.put(errors, path.as_bytes())
}

/// The name of the status, and what it carries after a space.
impl fmt::Display for Status {
    fn fmt<W: fmt::Write>(&self, f: &mut fmt::Formatter<W>) -> fmt::Result {
        f.write_str(name_of(self))?;
        match self {
            Status::BadShape(path) => write_path(f, path),
            Status::BadMachine(bad) => write_bad_machine(f, bad),
            Status::TooLong(weight) => write!(f, " {weight}"),
            Status::Illegal { line, rule } => write!(f, " {line} {}", log_rule_name(*rule)),
            Status::Unfinished { actor } => write_line(f, &line_of_actor(*actor)),
            Status::BadLog(line) => write!(f, " {line}"),
            _ => Ok(()),
        }
    }
}

fn write_path<W: fmt::Write>(f: &mut fmt::Formatter<W>, path: &PathText) -> fmt::Result {
    f.write_char(' ')?;
    for byte in path.as_bytes() {
        f.write_char(char::from(*byte))?;
    }
    Ok(())
}

fn write_line<W: fmt::Write>(f: &mut fmt::Formatter<W>, line: &Line) -> fmt::Result {
    for byte in line.as_slice() {
        f.write_char(char::from(*byte))?;
    }
    Ok(())
}

fn write_bad_machine<W: fmt::Write>(f: &mut fmt::Formatter<W>, bad: &BadMachine) -> fmt::Result {
    let rule = rule_name(bad.rule);
    let part = part_name(bad.place.part);
    write!(f, " {rule} {part} {} {}", bad.place.index, bad.place.op)
}

/// A space, and what is said of a machine that breaks a rule.
fn line_of_bad_machine(bad: &BadMachine) -> Line
    ensures { result ≡ 32 ∷ bad_machine_text bad.now }
{
    let mut line = Line::new();
    line.push(b' ');
    line.push_text(rule_name(bad.rule).as_bytes());
    line.push(b' ');
    line.push_text(part_name(bad.place.part).as_bytes());
    line.push(b' ');
    line.push_number(bad.place.index);
    line.push(b' ');
    line.push_number(bad.place.op);
    line
}

/// A space, and the line and the rule of a log that is not legal.
fn line_of_illegal(number: u32, rule: LogRule) -> Line
    ensures { result ≡ 32 ∷ illegal_text number rule }
{
    let mut line = line_of_number(number);
    line.push(b' ');
    line.push_text(log_rule_name(rule).as_bytes());
    line
}

/// A space, and the name of an actor.
fn line_of_actor(actor: Actor) -> Line
    ensures { result ≡ 32 ∷ actor_text actor }
{
    let mut line = Line::new();
    line.push(b' ');
    line.push_actor(actor);
    line
}

/// A space, and a number in decimal.
fn line_of_number(number: u32) -> Line
    ensures text { result ≡ 32 ∷ decimal number }
    ensures len { length result ≤ 11 }
{
    let mut line = Line::new();
    line.push(b' ');
    line.push_number(number);
    line
}

/// A space, and a weight in decimal.
fn line_of_weight(weight: u64) -> Line
    ensures { result ≡ 32 ∷ decimal weight }
{
    let mut digits = Buffer::new();
    let mut line = Line::new();
    line.push(b' ');
    line.push_text(digits.format(weight).as_bytes());
    line
}
