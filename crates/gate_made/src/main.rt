//! The description of the machine that `make 0 1` runs: a program that the gate runs, to compare each part of that
//! machine with a text that was not made by it.
#![tactic(auto)]

use machine_maker::make;
use machine_reader::write_machine;
use std::io;
use std::process::ExitCode;

fn main(rt: HostRuntime) -> io::Result<ExitCode> {
    let alloc = rt.alloc();
    match make(alloc, 0, 1) {
        Ok(machine) => match write_machine(alloc, &machine) {
            Ok(text) => {
                println!(&rt; "{}", str::from_utf8(&text).unwrap_or("?"))?;
                Ok(ExitCode::SUCCESS)
            }
            Err(_) => Err(io::ErrorKind::OutOfMemory.into()),
        },
        Err(_) => Err(io::ErrorKind::OutOfMemory.into()),
    }
}
