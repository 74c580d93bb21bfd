//! The end of a run, on one thread.
ghost use Rattle.std.specs.Prelude.{◌≡◌, ◌≤◌, All, List, OnErr, OnOk};
ghost use Rattle.acpi_io.specs.Faults.{RoseByOne};
ghost use Rattle.acpi_io.specs.Sink.{WritesAll};
ghost use Rattle.acpi_regs.specs.declared.entry.Entry.{Entry};
ghost use Rattle.history_text.specs.Named.{IsEntry};
ghost use Rattle.history_text.specs.Text.{log_text};
ghost use Rattle.lock_table.specs.Views.{StartsWith};
ghost use Rattle.machine_history.specs.Complete.{Complete};
ghost use Rattle.machine_reader.specs.Canonical.{canonical};
ghost use Rattle.sci_threads.specs.Actors.{IsSound, core_in};
ghost use Rattle.threaded_run.specs.Raced.{AreBack};

use crate::Raced;
use acpi_io::{Sink, WriteFault};
use history_text::laws::law_entries;
use history_text::write_log;
use lock_table::{LockTable, TableSeat};
use machine_core::Board;
use machine_desc::Machine;
use sci_threads::{AnyActor, drain};
use world::SerialWorld;

/// Closes the table of a raced machine, lets rounds finish what the threads left, and writes the log to the sink. It
/// takes no memory.
///
/// The history that it writes is complete, and begins with all that the root of the table had seen. `WriteFault`
/// comes only where a write failed, and then a front of the log was written.
pub fn carry_out<K: Sink>(raced: Raced, sink: &mut K) -> Result<(), WriteFault>
    ensures ends { (history : List Entry) × Complete raced.machine history × StartsWith history raced.root.seen
        × All IsEntry history
        × WritesAll (K.held sink.old) (K.held sink.new) (log_text raced.machine (canonical raced.machine) history) result }
    ensures later { K.faults sink.old ≤ K.faults sink.new }
    ensures cause { OnErr result (RoseByOne (K.faults sink.old) (K.faults sink.new)) }
    ensures told { OnOk result (K.faults sink.new ≡ K.faults sink.old) }
{
    let Raced {
        machine,
        table,
        root,
        actors,
        text,
    } = raced;
    let board = finished(&machine, table, root, actors);
    law_entries(&board);
    write_log(&text, &board, sink)
}

/// Closes the table of a raced machine, and lets rounds finish what the threads left: the board that is left. It
/// takes no memory, and has no refusal.
///
/// The board is one of that machine. Its history is complete, and begins with all that the root of the table had seen.
pub fn at_rest(raced: Raced) -> Board
    ensures machine { result.machine ≡ raced.machine }
    ensures complete { Complete raced.machine result.entries }
    ensures begins { StartsWith result.entries raced.root.seen }
{
    let Raced {
        machine,
        table,
        root,
        actors,
        ..
    } = raced;
    finished(&machine, table, root, actors)
}

/// The board that a table and rounds of its actors leave.
fn finished(
    machine: &Machine,
    table: LockTable<Board>,
    root: TableSeat,
    mut actors: Vec<AnyActor>,
) -> Board
    requires { AreBack machine.now table.table.shared.key.machine table.table.shared.table_id root actors.items }
    ensures machine { result.machine ≡ machine.now }
    ensures complete { Complete machine.now result.entries }
    ensures begins { StartsWith result.entries root.view.seen }
{
    let mut world = closed(machine, table, root, &actors);
    drain(&mut world, machine, &mut actors);
    let (board, _) = world.into_parts();
    board
}

/// The world that a table leaves when it is closed. With the actors it stands for a sound core.
pub(crate) fn closed(
    machine: &Machine,
    table: LockTable<Board>,
    root: TableSeat,
    actors: &[AnyActor],
) -> SerialWorld
    requires { AreBack machine.now table.table.shared.key.machine table.table.shared.table_id root actors.now }
    ensures machine { result.board.machine ≡ machine.now }
    ensures sound { IsSound machine.now (core_in result actors.now) }
    ensures begins { StartsWith result.board.entries root.view.seen }
{
    machine.law_rules();
    let (board, words) = table.close(root);
    board.law_legal();
    SerialWorld::new(board, words)
}
