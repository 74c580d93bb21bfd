//! All actors beside one another.
ghost use Rattle.std.specs.Prelude.{◌≡◌};

use crate::{Prepared, Raced};
use acpi_regs::Gate;
use sci_threads::{join_all, run_parallel};
use std::thread::Threads;

/// Runs every actor of a prepared machine beside the others, each on a thread of its own where one can be had, with
/// at most 64 steps more than the machine's weight; and takes them all back. Each passes the gate before each step.
///
/// It takes no memory, and has no refusal.
pub fn race<R: Threads + Sync, G: Gate>(rt: &R, prepared: Prepared, gate: &G) -> Raced
    ensures { result.machine ≡ prepared }
{
    let Prepared {
        machine,
        table,
        mut root,
        mut seats,
        mut actors,
        text,
    } = prepared;
    let turns = machine.weight() + 64;
    run_parallel(rt, &table, &machine, &mut seats, turns, gate);
    join_all(&table, &mut root, seats, &mut actors);
    Raced {
        machine,
        table,
        root,
        actors,
        text,
    }
}
