//! A refusal of the program `acpi_events`, with its text and exit code: as that program, but that it tells the refusal
//! on standard output, where it can be compared. It is given a description that is cut short.
#![tactic(auto)]

use acpi_commands::{OpenGate, acpi_events, end};
use acpi_io::{StdSink, StdSource};
use std::process::ExitCode;
use std::{env, io};

fn main(rt: HostRuntime) -> io::Result<ExitCode> {
    let words: Vec<String> = env::args(&rt)?.skip(1).collect(rt.alloc())?;
    let mut source = StdSource::new(rt.reader());
    let mut sink = StdSink::new(io::writer(&rt));
    let status = acpi_events(&rt, rt.alloc(), &words, &mut source, &mut sink, &OpenGate);
    Ok(end(&status, &mut sink))
}
