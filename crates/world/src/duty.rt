use crate::Acted;
use acpi_regs::Actor;
use lock_table::Bits;
use machine_core::Board;

/// What an actor does with the board in one turn.
///
/// Its rules are those of every turn: it adds entries of its actor alone, first a latch of each event that the turn
/// has collected, in their order, and no latch after them; of the lock's entries it adds at most the one that it
/// names, and that one once.
pub trait Duty {
    ghost use Rattle.std.specs.Prelude.{◌≡◌, List, [], Option, false};
    ghost use Rattle.acpi_regs.specs.declared.actor.Actor.{Actor};
    ghost use Rattle.acpi_regs.specs.declared.entry.Deed.{Deed};
    ghost use Rattle.acpi_regs.specs.declared.entry.Entry.{Entry};
    ghost use Rattle.acpi_regs.specs.declared.event.Event.{Event};
    ghost use Rattle.acpi_regs.specs.Core.{events_of};
    ghost use Rattle.machine_desc.specs.Machine.{MachineData};
    ghost use Rattle.machine_history.specs.Legal.{is_host};
    ghost use Rattle.world.specs.declared.turn.Acted.{Acted};
    ghost use Rattle.world.specs.Duties.{AreLatchable, IsTurn, pinned};

    /// Whose turn it is.
    ghost actor_of: { Self → Actor };

    /// The lock's entry that it may add, if any.
    ghost lock: { Self → Option Deed };

    /// What it does on a machine: the duty before and after, the journal before and after, the events that the turn has
    /// collected, and the answer.
    ghost does: { MachineData → Self → Self → List Entry → List Entry → List Event → Acted → Type 0 };

    /// The actor whose turn it is.
    fn actor(&self) -> Actor
        ensures { result ≡ actor_of self.now };

    /// Adds what there is to add, and answers whether that was anything. `bits` are the events that the turn has
    /// collected: none unless the actor is int or poll, and each has fewer latches in the journal than pulses in the
    /// device lists.
    fn act(&mut self, board: &mut Board, bits: Bits) -> Acted
        requires alone { is_host (actor_of self.old) ≡ false → events_of (pinned bits) ≡ [] }
        requires latchable { AreLatchable board.old.machine board.old.entries (pinned bits) }
        ensures machine { board.new.machine ≡ board.old.machine }
        ensures does { does board.old.machine self.old self.new board.old.entries board.new.entries
            (events_of (pinned bits)) result }
        ensures rules { IsTurn (actor_of self.old) (lock self.old) board.old.entries board.new.entries
            (events_of (pinned bits)) result };
}
