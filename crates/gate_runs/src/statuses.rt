//! Each status with its code, its text, and what `end` writes of it.

use acpi_commands::{Status, end};
use acpi_io::MemorySink;
use acpi_regs::Actor;
use machine_desc::{BadMachine, Part, Place, Rule};
use machine_history::LogRule;
use std::alloc::{AllocError, Global};
use std::process::ExitCode;

/// A line for each status: its code, its text, and what is written to standard error.
pub fn all_statuses(alloc: Global) -> Result<String, AllocError> {
    let mut text = String::new(alloc);
    for status in statuses() {
        let code = status.code();
        text.push_str(&format!(in alloc; "{code} {status}: ")?)?;
        text.push_str(said_of(alloc, &status)?.as_str())?;
        text.push('\n')?;
    }
    Ok(text)
}

fn statuses() -> [Status; 12] {
    let bad = BadMachine {
        rule: Rule::TooManyEvents,
        place: Place {
            part: Part::Controller,
            index: 4_294_967_295,
            op: 12,
        },
    };
    [
        Status::Ok,
        Status::Usage,
        Status::NotJson,
        Status::BadMachine(bad),
        Status::TooLong(1_048_577),
        Status::ReadFault,
        Status::WriteFault,
        Status::Memory,
        Status::TooLarge,
        Status::BadLog(4_294_967_295),
        Status::Illegal {
            line: 12,
            rule: LogRule::Wake,
        },
        Status::Unfinished {
            actor: Actor::Firmware(7),
        },
    ]
}

/// What `end` writes, and whether it returns the status's code, also if the sink is full.
fn said_of(alloc: Global, status: &Status) -> Result<String, AllocError> {
    let Ok(mut errors) = MemorySink::new(alloc, Vec::new(alloc), 7, 128) else {
        return Err(AllocError);
    };
    let Ok(mut full) = MemorySink::new(alloc, Vec::new(alloc), 7, 0) else {
        return Err(AllocError);
    };
    let code = ExitCode::from(status.code());
    let same = end(status, &mut errors) == code && end(status, &mut full) == code;
    let held = str::from_utf8(errors.held()).unwrap_or("no text");
    if same {
        format!(in alloc; "{held:?}")
    } else {
        format!(in alloc; "{held:?}, and another exit code")
    }
}
