use crate::{Duty, TurnOutcome};
use acpi_regs::{Actor, Event};
use lock_table::Attempt;

/// The words and the board, as one actor reaches them.
///
/// What a call makes of the world is the world's own to tell (`makes`), and so is what it asks before (`may`): a
/// world of one thread tells its board and words, and a world that others share tells what its own actor has seen and
/// done.
pub trait World {
    ghost use Rattle.std.specs.Prelude.{◌≡◌, false};
    ghost use Rattle.acpi_regs.specs.declared.actor.Actor.{Actor};
    ghost use Rattle.machine_desc.specs.Machine.{MachineData};
    ghost use Rattle.machine_history.specs.Legal.{is_host};
    ghost use Rattle.world.specs.Calls.{Attempted, Call, Pulsed_at, Released, To_attempt, To_pulse, To_release, To_turn, Want};
    ghost use Rattle.world.specs.Duties.{TurnSays};

    /// The machine of its board.
    ghost machine: { Self → MachineData };

    /// What a call asks.
    ghost may: { Self → Actor → Want → Type 0 };

    /// What a call makes of the world.
    ghost makes: { Self → Actor → Call → Self → Type 0 };

    /// One attempt at the Global Lock (ACPI 6.5, section 5.2.10.1): a load of its word, and an exchange against the
    /// value loaded.
    fn attempt(&mut self, actor: Actor) -> Attempt
        requires { may self.old actor To_attempt }
        ensures makes { makes self.old actor (Attempted result) self.new }
        ensures machine { machine self.new ≡ machine self.old };

    /// Releases the Global Lock's word. Whether Pending was set, so that the other side has to be signalled.
    fn release(&mut self, actor: Actor) -> bool
        requires { may self.old actor To_release }
        ensures makes { makes self.old actor (Released result) self.new }
        ensures machine { machine self.new ≡ machine self.old };

    /// Sets the pin of an event. Whether it was clear.
    fn pulse(&mut self, actor: Actor, event: Event) -> bool
        requires { may self.old actor (To_pulse event) }
        ensures makes { makes self.old actor (Pulsed_at event result) self.new }
        ensures machine { machine self.new ≡ machine self.old };

    /// One turn at the board: collects the pins where that is asked, and lets the duty act. `collect` is true for
    /// duties of int and poll alone.
    fn turn<D: Duty>(&mut self, collect: bool, duty: &mut D) -> TurnOutcome
        requires collects { is_host (D.actor_of duty.old) ≡ false → collect ≡ false }
        requires may { may self.old (D.actor_of duty.old) (To_turn collect (D.lock duty.old)) }
        ensures says { TurnSays makes (D.does (machine self.old)) (D.actor_of duty.old) collect self.old duty.old
            result self.new duty.new }
        ensures machine { machine self.new ≡ machine self.old };
}
