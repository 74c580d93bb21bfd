//! What a call of `acpi_events` answers and writes, over a source and a sink in memory: a program that the gate runs
//! on a table of cases.
//!
//! The table has blocks, with an empty line between them. One that begins with `#` is a remark. One that begins with
//! `text NAME` names the text below that line. One that begins with `= NAME` is a case, with an option a line:
//!
//! | option | what it says |
//! |---|---|
//! | `words: make 0 1` | the words of the program: with blanks between them, or each in quotes. Calls are made for each such line |
//! | `input:` | the source gives the lines below, with no newline at the end |
//! | `input: NAME` | the source gives the text of this name, or one that is made (`made.rt`): `spaces N`, `writes N`, `large` |
//! | `log: NAME` | the same text with a newline at the end |
//! | `without: LINE`, `put: LINE` | removes this line of the text; puts one, or several, in its place |
//! | `lines: N` | keeps its first lines |
//! | `most: 1 7` | the most bytes that a call of the source or of the sink moves. Calls are made for each number |
//! | `room: N` | how many bytes the sink takes |
//! | `failing read: N`, `failing write: N` | the call of the source, or of the sink, that fails, counted from 0 |
//! | `each failing read`, `each failing write` | calls of the program with the numbers 0, 1 and so on, up to the first in which none fails |
//! | `each front` | a call for every proper front of the input |
//! | `times: N` | the same call N times |
//! | `meeting` | the first firmware and the first worker wait for each other at their first steps |
//! | `picked: WORDS` | of a log, the lines in which one of these words stands |
//! | `sorted: WORDS` | after them, in the order of their bytes, the lines in which one of these stands |
//! | `without actors` | the lines have no actors |
//! | `checked` | the log is given to `check` |
//! | `writes below: N` | whether the sink was called fewer than N times |
//!
//! For each case the program prints its name and the answers to its calls: a refusal with its code, how often the
//! sink was called, and what it holds; or the text that was written. A log's first line is omitted if it is
//! `machine ` and the input. Equal answers in a row are printed once, with their number, so a call with another
//! answer is seen at its place.
//!
//! Each status follows at the end, with its code, its text and what `end` writes.
#![tactic(auto)]

mod call;
mod case;
mod groups;
mod input;
mod made;
mod meeting;
mod play;
mod statuses;
mod telling;

use acpi_io::{ReadAllFault, StdSource, read_all};
use case::Case;
use input::Texts;
use play::play;
use statuses::all_statuses;
use std::alloc::{AllocError, Global};
use std::io;
use std::process::ExitCode;
use std::thread::Threads;

/// The greatest length of the table, in bytes.
const LIMIT: usize = 8_388_608;

fn main(rt: HostRuntime) -> io::Result<ExitCode> {
    let alloc = rt.alloc();
    let mut source = StdSource::new(rt.reader());
    let bytes = match read_all(alloc, &mut source, LIMIT) {
        Ok(bytes) => bytes,
        Err(ReadAllFault::Memory) => return Err(io::ErrorKind::OutOfMemory.into()),
        Err(_) => return Ok(ExitCode::FAILURE),
    };
    let table = str::from_utf8(&bytes).unwrap_or("no text");
    let mut texts = Texts::new(alloc);
    for block in table.trim_end().split("\n\n") {
        let said = said(&rt, alloc, &mut texts, block)?;
        print!(&rt; "{said}")?;
    }
    print!(&rt; "= each status\n{}", all_statuses(alloc)?)?;
    Ok(ExitCode::SUCCESS)
}

/// What is written of a block of the table.
fn said<R: Threads + Sync>(
    rt: &R,
    alloc: Global,
    texts: &mut Texts,
    block: &str,
) -> Result<String, AllocError> {
    let (head, below) = block.split_once("\n").unwrap_or((block, ""));
    if let Some(name) = head.strip_prefix("text ") {
        texts.add(alloc, name, below)?;
        Ok(String::new(alloc))
    } else if head.starts_with("= ") {
        let case = Case::read(alloc, texts, below)?;
        format!(in alloc; "{head}\n{}", play(rt, alloc, &case)?)
    } else if head.starts_with("#") {
        Ok(String::new(alloc))
    } else {
        format!(in alloc; "no such block: {head}\n")
    }
}
