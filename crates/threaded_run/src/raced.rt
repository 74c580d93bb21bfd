//! A machine whose threads have run.
ghost use Rattle.std.specs.Prelude.{◌≡◌};

use lock_table::{LockTable, TableSeat};
use machine_core::Board;
use machine_desc::Machine;
use sci_threads::AnyActor;
use std::marker::Model;

/// A machine whose threads have run: the open table, its root with every actor back, the actors, the machine's
/// canonical text, and all room.
///
/// Contracts see the machine and what the root knows. There each actor is at its end, a firmware idle with its script
/// through or a device with its list through, or it tried at least 64 times more than the machine's weight.
#[derive(Drop)]
pub struct Raced {
    pub(crate) machine: Machine,
    pub(crate) table: LockTable<Board>,
    pub(crate) root: TableSeat,
    pub(crate) actors: Vec<AnyActor>,
    pub(crate) text: Vec<u8>,
}

impl Model for Raced {
    ghost use Rattle.threaded_run.specs.Raced.{IsRaced, RacedData};

    ghost Value = { RacedData };

    ghost view = { λ r. record { machine = r.machine; root = r.root.view } };

    ghost invariant = { λ r. IsRaced r.machine r.table.table.shared.key.machine r.table.table.shared.table_id r.root
        r.actors.items r.text.items };
}

impl Raced {
    /// The machine.
    pub fn machine(&self) -> &Machine
        ensures { result.now ≡ self.now.machine }
    {
        &self.machine
    }
}
