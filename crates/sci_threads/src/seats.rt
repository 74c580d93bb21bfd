//! A seat for each actor of a machine, and all of them back in the root.
ghost use Rattle.std.specs.Prelude.{◌≡◌, ◌+◌, ◌≤◌, ◌++◌, All, IfOk, List, [], map, vec_capacity, vec_len};
ghost use Rattle.acpi_regs.specs.declared.actor.Actor.{Actor};
ghost use Rattle.lock_table.specs.Roots.{HasAllBut, HasFreshBut};
ghost use Rattle.lock_table.specs.Views.{StartsWith, root_parts};
ghost use Rattle.machine_desc.specs.Actors.{actors_of};
ghost use Rattle.sci_threads.specs.Seats.{IsFirst, IsRootOf, names_of, parts_back};
ghost use Rattle.sci_threads.specs.Shared.{Agrees};

use crate::{ActorSeat, AnyActor};
use acpi_regs::Memory;
use lock_table::{LockTable, TableSeat};
use machine_core::Board;
use machine_desc::Machine;
use std::alloc::Global;

/// A seat for each actor of the machine of the table's board, in the order in which they are served, each at its
/// start. The root has split no actor before.
pub fn prepare(
    alloc: Global,
    table: &LockTable<Board>,
    root: &mut TableSeat,
    machine: &Machine,
) -> Result<Vec<ActorSeat>, Memory>
    requires root { IsRootOf table.now.table.shared.table_id root.old }
    requires fresh { HasFreshBut [] root.old.view }
    ensures root { IsRootOf table.now.table.shared.table_id root.new }
    ensures names { IfOk result (λ seats. names_of seats.items ≡ actors_of machine.now) }
    ensures first { IfOk result (λ seats. All (IsFirst table.now.table.shared.table_id) seats.items) }
    ensures away { IfOk result (λ seats. HasFreshBut (actors_of machine.now) root.new.view) }
{
    machine.law_rules();
    let count = machine.actors();
    let mut seats = Vec::with_capacity(alloc, usize::from(count))?;
    for k in 0..count {
        let name = machine.actor(k);
        let seat = table.split(root, name);
        let actor = AnyActor::new(name);
        seats.push(ActorSeat { actor, seat })?;
    }
    Ok(seats)
}

/// Takes each seat back into the root, which then has its actor with phase and entries, and has seen what the seat
/// had. The actors stand behind those that were there, in the order of the seats.
pub fn join_all(
    table: &LockTable<Board>,
    root: &mut TableSeat,
    seats: Vec<ActorSeat>,
    actors: &mut Vec<AnyActor>,
)
    requires root { IsRootOf table.now.table.shared.table_id root.old }
    requires agree { All (Agrees table.now.table.shared.table_id) seats.items }
    requires room { vec_len actors.old + vec_len seats ≤ vec_capacity actors.old }
    ensures root { IsRootOf table.now.table.shared.table_id root.new }
    ensures actors { actors.new.items ≡ actors.old.items ++ map (λ x. x.actor) seats.items }
    ensures parts { root_parts root.new.view.who ≡ parts_back seats.items (root_parts root.old.view.who) }
    ensures back { (away : List Actor) → HasAllBut (names_of seats.items ++ away) root.old.view
        → HasAllBut away root.new.view }
    ensures seen { StartsWith root.new.view.seen root.old.view.seen }
    ensures told { All (λ x. StartsWith root.new.view.seen x.seat.view.seen) seats.items }
{
    for seat in seats {
        let ActorSeat { actor, seat } = seat;
        table.join(root, seat);
        actors.push_reserved(actor);
    }
}
