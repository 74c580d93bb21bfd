//! Judges many logs: it reads cases on standard input, and writes a line for each, its name and the verdict.
//!
//! A case begins with a line `= NAME`. Behind it stand the lines of its log. Where the first is no machine's line,
//! the log takes that of the case before, so a machine's line stands once for many cases; and where the last is no
//! `rest` line, one is added with the number of the entries. A case that begins with a line `=! NAME` has its log as
//! it stands, and one with `=- NAME` as it stands without its last newline. The words are those of `acpi_events`:
//! `complete 7`, `Illegal 5 Owner`, `Unfinished w0`, `BadLog 3`.
#![tactic(auto)]

mod cases;
mod judge;

use acpi_io::{ReadAllFault, StdSink, StdSource, read_all};
use judge::judge_all;
use std::io;
use std::process::ExitCode;

/// The most bytes that are read.
const MOST: usize = 67_108_864;

fn main(rt: HostRuntime) -> ExitCode {
    let mut source = StdSource::new(rt.reader());
    let mut sink = StdSink::new(io::writer(&rt));
    let judged = match read_all(rt.alloc(), &mut source, MOST) {
        Ok(bytes) => judge_all(rt.alloc(), &bytes, &mut sink).is_ok(),
        Err(ReadAllFault::ReadFault) => false,
        Err(ReadAllFault::TooLarge) => false,
        Err(ReadAllFault::Memory) => false,
    };
    if judged {
        ExitCode::SUCCESS
    } else {
        ExitCode::FAILURE
    }
}
