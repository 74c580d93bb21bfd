ghost use Rattle.std.specs.Prelude.{◌≡◌, ◌<◌, ◌≤◌, ◌↔◌, [], ◌∷◌, ◌++◌, length, reverse, true, IsTrue, IfOk, None, Some, slice_get};
ghost use Rattle.machine_desc.specs.Weight.{weight_of};
ghost use Rattle.machine_history.specs.Legal.{Legal};

use crate::actors::Actors;
use crate::cells::{Cells, access_of};
use crate::events::Events;
use crate::jobs::Jobs;
use crate::lock::LockState;
use crate::wire::Wire;
use acpi_regs::{Entry, Memory};
use machine_desc::Machine;
use std::alloc::Global;
use std::marker::Model;

mod may;
mod reads;
mod rows;
mod touches;

/// A machine with the journal of what happened on it, which is legal at every moment.
///
/// Beside the journal it keeps what the definitions find by looking back, so that no call depends on how long the
/// journal is. All room is taken by [`Board::new`].
#[derive(Drop)]
pub struct Board {
    machine: Machine,
    journal: Vec<Entry>,
    lock: LockState,
    events: Events,
    actors: Actors,
    jobs: Jobs,
    wire: Wire,
    cells: Cells,
}

impl Model for Board {
    ghost use Rattle.std.specs.Prelude.{vec_capacity};
    ghost use Rattle.machine_core.specs.Board.{BoardData, IsKept};

    ghost Value = { BoardData };

    ghost view = { λ b. record { machine = b.machine; entries = b.journal.items } };

    ghost invariant = { λ b. IsKept b.machine b.journal.items b.lock b.events b.actors b.jobs b.wire b.cells
        (vec_capacity b.journal) (vec_capacity b.jobs.made) };
}

impl Board {
    /// A board with an empty journal, and room for every entry that the machine can need. The weight of the machine
    /// is at most 1,048,576.
    ///
    /// # Errors
    /// `Memory` where room was wanting.
    pub fn new(alloc: Global, machine: Machine) -> Result<Board, Memory>
        requires { weight_of machine ≤ 1048576 }
        ensures { IfOk result (λ board. board ≡ record { machine = machine; entries = [] }) }
    {
        machine.law_rules();
        let room = machine.weight() as u32;
        let journal = Vec::with_capacity(alloc, room as usize)?;
        let events = Events::new(alloc, &machine)?;
        let jobs = Jobs::new(alloc, room as usize)?;
        let wire = Wire::new(alloc, &machine, room)?;
        let cells = Cells::new(alloc, &machine)?;
        Ok(Board {
            machine,
            journal,
            lock: LockState::new(),
            events,
            actors: Actors::new(),
            jobs,
            wire,
            cells,
        })
    }

    /// The machine.
    pub fn machine(&self) -> &Machine
        ensures { result.now ≡ self.now.machine }
    {
        &self.machine
    }

    /// How many entries the journal has.
    pub fn len(&self) -> u32
        ensures { result ≡ length self.now.entries }
    {
        self.law_small();
        self.journal.len() as u32
    }

    /// Whether the journal has no entry.
    pub fn is_empty(&self) -> bool
        ensures { IsTrue result ↔ (self.now.entries ≡ []) }
    {
        self.journal.is_empty()
    }

    /// An entry of the journal, by its number from 0.
    pub fn entry(&self, i: u32) -> Entry
        requires { i < length self.now.entries }
        ensures { slice_get self.now.entries i ≡ Some result }
    {
        self.journal[i as usize]
    }

    /// Whether the journal with this entry is legal.
    pub fn can(&self, entry: &Entry) -> bool
        ensures { IsTrue result ↔ Legal self.now.machine (self.now.entries ++ entry.now ∷ []) }
    {
        self.law_legal();
        self.refusal(entry).is_none()
    }

    /// Appends an entry to the journal, which has to be legal with it: [`Board::can`] tells.
    pub fn apply(&mut self, entry: Entry)
        requires { Legal self.old.machine (self.old.entries ++ entry ∷ []) }
        ensures { self.new ≡ record self.old { entries = self.old.entries ++ entry ∷ [] } }
    {
        self.machine.law_rules();
        let touched = self.touched(entry);
        let made = self.made(entry);
        self.actors
            .go_on(&self.machine, self.jobs.made.as_slice(), entry);
        self.events.touch(touched, entry.deed);
        self.jobs.add(entry.deed, made);
        self.cells.make(access_of(entry));
        self.lock = self.lock.after(entry.actor, entry.deed);
        self.wire.after(&self.machine, entry);
        self.journal.push_reserved(entry);
    }

    /// The journal is legal. The call has no cost: it says so to a caller's proof.
    pub fn law_legal(&self)
        ensures { Legal self.now.machine self.now.entries }
    {
        let _journal = &self.journal;
    }

    /// The journal has room for more entries than it can have. The call has no cost.
    fn law_small(&self)
        ensures { length self.now.entries ≤ 1048576 }
    {
        self.machine.law_rules();
    }
}
