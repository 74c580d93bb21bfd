//! The program `acpi_events`: it reads a machine's description on standard input, runs the machine, and writes the
//! history of what happened as a log on standard output.
//!
//! All that it does stands in `acpi_commands`, which says what each status means. `main` hands it the runtime, the
//! words, the standard streams, the allocator and an open gate.
#![tactic(auto)]

use acpi_commands::{OpenGate, Status, acpi_events, end};
use acpi_io::{StdSink, StdSource};
use std::process::ExitCode;
use std::{env, io};

fn main(rt: HostRuntime) -> ExitCode {
    let mut source = StdSource::new(rt.reader());
    let mut sink = StdSink::new(io::writer(&rt));
    let status = match words(&rt) {
        Ok(words) => acpi_events(&rt, rt.alloc(), &words, &mut source, &mut sink, &OpenGate),
        Err(error) if error.kind() == io::ErrorKind::OutOfMemory => Status::Memory,
        // A word that is no text.
        Err(_) => Status::Usage,
    };
    end(&status, &mut StdSink::new(rt.stderr()))
}

/// The words of the command line behind the program's name.
fn words(rt: &HostRuntime) -> io::Result<Vec<String>> {
    Ok(env::args(rt)?.skip(1).collect(rt.alloc())?)
}
