//! Each actor on a thread of its own, over a table that all share.
ghost use Rattle.std.specs.Prelude.{◌≡◌, ◌<◌, ℕ, All, length, slice_index_or};
ghost use Rattle.sci_threads.specs.declared.shared.ActorSeat.{ActorSeat};
ghost use Rattle.sci_threads.specs.Shared.{Agrees, RanOn, is_ended};

use crate::ActorSeat;
use acpi_regs::Gate;
use lock_table::LockTable;
use machine_core::Board;
use machine_desc::Machine;
use std::thread;
use std::thread::Threads;
use world::StepOutcome;

fn is_end(outcome: StepOutcome) -> bool
    ensures { result ≡ is_ended outcome }
{
    matches!(outcome, StepOutcome::Ended)
}

/// At most so many steps of one actor, each behind the gate. It stops at its end.
fn run_one<G: Gate>(
    table: &LockTable<Board>,
    machine: &Machine,
    at: &mut ActorSeat,
    turns: u64,
    gate: &G,
)
    requires machine { table.now.table.shared.key.machine ≡ machine.now }
    requires agrees { Agrees table.now.table.shared.table_id at.old }
    ensures { RanOn machine.now table.now.table.shared.table_id turns at.old at.new }
{
    for _made in 0..turns {
        gate.pass(at.actor.actor());
        if is_end(at.step(table, machine)) {
            return;
        }
    }
}

/// The actors of these seats, each beside the others.
fn run_seats<R: Threads + Sync, G: Gate>(
    rt: &R,
    table: &LockTable<Board>,
    machine: &Machine,
    seats: &mut [ActorSeat],
    turns: u64,
    gate: &G,
)
    requires machine { table.now.table.shared.key.machine ≡ machine.now }
    requires agree { All (λ x. Agrees table.now.table.shared.table_id x) seats.old }
    ensures { (i : ℕ) (d : ActorSeat) → i < length seats.old
        → RanOn machine.now table.now.table.shared.table_id turns (slice_index_or seats.old i d)
        (slice_index_or seats.new i d) }
{
    let count = seats.len();
    if count == 0 {
        return;
    }
    thread::for_each_mut(
        rt,
        seats,
        count,
        &|_, at: &mut ActorSeat|
            requires { (table.now.table.shared.key.machine ≡ machine.now)
                × Agrees table.now.table.shared.table_id at.old }
            ensures { RanOn machine.entry.now table.entry.now.table.shared.table_id turns at.old at.new }
        { run_one(table, machine, at, turns, gate) },
    );
}

/// Runs each actor beside the others, on a thread of its own where one can be had. Each passes the gate and makes a
/// step, at most `turns` times, and stops at its end.
///
/// `machine` is the machine of the table's board, and each seat is one of this table without a turn, which has its
/// actor in its phase. So it is afterwards. Then each actor is at its end, a firmware idle with its script through or
/// a device with its list through, or its seat tells of `turns` steps more.
pub fn run_parallel<R: Threads + Sync, G: Gate>(
    rt: &R,
    table: &LockTable<Board>,
    machine: &Machine,
    seats: &mut Vec<ActorSeat>,
    turns: u64,
    gate: &G,
)
    requires machine { table.now.table.shared.key.machine ≡ machine.now }
    requires agree { All (λ x. Agrees table.now.table.shared.table_id x) seats.old.items }
    ensures count { length seats.new.items ≡ length seats.old.items }
    ensures each { (i : ℕ) (d : ActorSeat) → i < length seats.old.items
        → RanOn machine.now table.now.table.shared.table_id turns (slice_index_or seats.old.items i d)
        (slice_index_or seats.new.items i d) }
{
    run_seats(rt, table, machine, seats.as_mut_slice(), turns, gate);
}
