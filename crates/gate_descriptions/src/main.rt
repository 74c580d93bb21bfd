//! What the reader answers to each description of standard input: a program that the gate runs on a table of cases.
//!
//! A case is two lines, its name and its description. A line is written for each, with the name and the answer: the
//! fault, as the program `acpi_events` tells it, or the weight and the actors of the machine, and whether the
//! description was its canonical text.
#![tactic(auto)]

use acpi_commands::Status;
use acpi_io::{ReadAllFault, StdSource, read_all};
use machine_desc::Machine;
use machine_reader::{read_machine, write_machine};
use std::alloc::{AllocError, Global};
use std::io;
use std::process::ExitCode;

/// The greatest length of the input, in bytes.
const LIMIT: usize = 8_388_608;

fn main(rt: HostRuntime) -> io::Result<ExitCode> {
    let mut source = StdSource::new(rt.reader());
    let bytes = match read_all(rt.alloc(), &mut source, LIMIT) {
        Ok(bytes) => bytes,
        Err(ReadAllFault::Memory) => return Err(io::ErrorKind::OutOfMemory.into()),
        Err(_) => return Ok(ExitCode::FAILURE),
    };
    let mut name: Option<&[u8]> = None;
    for line in bytes.split(|byte| *byte == b'\n') {
        match name {
            None => name = Some(line),
            Some(given) => {
                let given = str::from_utf8(given).unwrap_or("?");
                let answer = answer(rt.alloc(), line)?;
                println!(&rt; "{given}: {answer}")?;
                name = None;
            }
        }
    }
    Ok(ExitCode::SUCCESS)
}

/// What the reader answers to a description.
fn answer(alloc: Global, text: &[u8]) -> Result<String, AllocError> {
    match read_machine(alloc, text) {
        Ok(machine) => accepted(alloc, text, &machine),
        Err(fault) => format!(in alloc; "{}", Status::from(fault)),
    }
}

/// The weight of a machine, its actors, and whether it was read from its canonical text.
fn accepted(alloc: Global, text: &[u8], machine: &Machine) -> Result<String, AllocError> {
    let mut answer = format!(in alloc; "accepted, weight {}, actors", machine.weight())?;
    for k in 0..machine.actors() {
        answer.push_str(format!(in alloc; " {:?}", machine.actor(k))?.as_str())?;
    }
    if is_canonical(alloc, text, machine)? {
        answer.push_str(", canonical")?;
    }
    Ok(answer)
}

/// Whether a text is the one of a machine, or of its copy.
fn is_canonical(alloc: Global, text: &[u8], machine: &Machine) -> Result<bool, AllocError> {
    let Ok(copy) = machine.copied(alloc) else {
        return Err(AllocError);
    };
    match write_machine(alloc, &copy) {
        Ok(canonical) => Ok(canonical.as_slice() == text),
        Err(_) => Err(AllocError),
    }
}
