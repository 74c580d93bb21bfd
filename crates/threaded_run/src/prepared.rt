//! A machine with all that its run on threads needs.
ghost use Rattle.std.specs.Prelude.{◌≡◌, ◌≤◌, IfOk};
ghost use Rattle.history_text.specs.Lines.{IsReadBack};
ghost use Rattle.machine_desc.specs.Weight.{weight_of};
ghost use Rattle.machine_reader.specs.Description.{Describes};

use acpi_regs::Memory;
use history_text::laws::law_canonical;
use lock_table::{LockTable, TableSeat};
use machine_core::Board;
use machine_desc::Machine;
use machine_reader::{ReaderFault, read_machine, write_machine};
use sci_threads::{ActorSeat, AnyActor, prepare};
use std::alloc::Global;
use std::marker::Model;

/// A machine that is ready to run on threads: a fresh table with its board, a seat for each of its actors, its
/// canonical text, and all room.
#[derive(Drop)]
pub struct Prepared {
    pub(crate) machine: Machine,
    pub(crate) table: LockTable<Board>,
    pub(crate) root: TableSeat,
    pub(crate) seats: Vec<ActorSeat>,
    pub(crate) actors: Vec<AnyActor>,
    pub(crate) text: Vec<u8>,
}

impl Model for Prepared {
    ghost use Rattle.std.specs.Prelude.{vec_capacity, vec_len};
    ghost use Rattle.machine_desc.specs.Machine.{MachineData};
    ghost use Rattle.threaded_run.specs.Prepared.{IsPrepared};

    ghost Value = { MachineData };

    ghost view = { λ p. p.machine };

    ghost invariant = { λ p. IsPrepared p.machine p.table.table.shared.key.machine p.table.table.shared.table_id p.root
        p.seats.items p.actors.items (vec_len p.seats) (vec_capacity p.actors) p.text.items };
}

impl Prepared {
    /// The machine.
    pub fn machine(&self) -> &Machine
        ensures { result.now ≡ self.now }
    {
        &self.machine
    }
}

/// Reads a description and takes all the memory that a run of its machine needs.
///
/// It refuses as [`read_machine`] does, and answers `Memory` where room was wanting.
pub fn prepare_run(alloc: Global, bytes: &[u8]) -> Result<Prepared, ReaderFault>
    ensures answers { Describes bytes.now result }
    ensures read_back { IfOk result (λ p. IsReadBack p) }
{
    let machine = read_machine(alloc, bytes)?;
    law_canonical(&machine);
    match prepare_machine(alloc, machine) {
        Ok(prepared) => Ok(prepared),
        Err(Memory) => Err(ReaderFault::Memory),
    }
}

/// Takes all the memory that a run of this machine needs, or answers `Memory` where room was wanting. The machine's
/// weight is at most 1,048,576.
pub fn prepare_machine(alloc: Global, machine: Machine) -> Result<Prepared, Memory>
    requires { weight_of machine ≤ 1048576 }
    ensures { IfOk result (λ p. p ≡ machine) }
{
    let text = write_machine(alloc, &machine)?;
    let copy = machine.copied(alloc)?;
    let board = Board::new(alloc, copy)?;
    let (table, mut root) = LockTable::new(alloc, board)?;
    let seats = prepare(alloc, &table, &mut root, &machine)?;
    let actors = Vec::with_capacity(alloc, seats.len())?;
    Ok(Prepared {
        machine,
        table,
        root,
        seats,
        actors,
        text,
    })
}
