//! The world of an actor that shares its words and board with others.
ghost use Rattle.std.specs.Prelude.{◌≡◌, [], false, true};
ghost use Rattle.acpi_regs.specs.Core.{events_of};
ghost use Rattle.lock_table.specs.Bits.{words_of};
ghost use Rattle.lock_table.specs.Calls.{SameSeat};
ghost use Rattle.lock_table.specs.Views.{ForOne};
ghost use Rattle.lock_table.specs.declared.view.SeatPhase.TheVariants as kept;
ghost use Rattle.lock_table.specs.declared.view.Stage.TheVariants as stage;
ghost use Rattle.machine_history.specs.Legal.{Legal, is_host};
ghost use Rattle.world.specs.Duties.{AreLatchable, pinned};
ghost use Rattle.world.specs.Shared.{Acts, MayAct, gathered};

use crate::pins::none;
use crate::{Acted, Duty, TurnOutcome, World};
use acpi_regs::{Actor, Event};
use lock_table::{Attempt, Bits, Entered, LockTable, TableSeat, Turn};
use machine_core::Board;

/// A seat of a table, as its actor reaches words and board. The seat has no turn out between two calls.
///
/// What a call makes of it is what the seat knows behind it (`specs/Shared.antt`); others may do anything beside. A
/// turn is out where another seat has it.
#[derive(Drop)]
pub struct TableWorld<'a> {
    table: &'a LockTable<Board>,
    seat: &'a mut TableSeat,
}

impl<'a> TableWorld<'a> {
    /// The world of this seat's actor.
    pub fn new(table: &'a LockTable<Board>, seat: &'a mut TableSeat) -> TableWorld<'a>
        ensures table { result.table.now ≡ table.now }
        ensures reference { result.seat.ghost_name ≡ seat.entry.ghost_name }
        ensures seat { result.seat.now ≡ seat.old }
    {
        TableWorld { table, seat }
    }
}

impl<'a> World for TableWorld<'a> {
    ghost use Rattle.lock_table.specs.Calls.{SameSeat};
    ghost use Rattle.world.specs.Shared.{SeatMakes, SeatMay};

    ghost machine = { λ w. w.table.now.table.shared.key.machine };

    ghost may = { λ w a want. (w.seat.now.table ≡ w.table.now.table.shared.table_id)
        × SeatMay w.table.now.table.shared.key.machine.devices w.seat.now.view a want };

    ghost makes = { λ w a call w'. (w'.table.now ≡ w.table.now) × (w'.seat.ghost_name ≡ w.seat.ghost_name)
        × SameSeat w.seat.now w'.seat.now
        × SeatMakes w.table.now.table.shared.key.machine w.seat.now.view call w'.seat.now.view };

    fn attempt(&mut self, actor: Actor) -> Attempt {
        let _ = actor;
        self.table.attempt(self.seat)
    }

    fn release(&mut self, actor: Actor) -> bool {
        let _ = actor;
        self.table.release(self.seat)
    }

    fn pulse(&mut self, actor: Actor, event: Event) -> bool {
        let _ = actor;
        self.table.pulse(self.seat, event)
    }

    fn turn<D: Duty>(&mut self, collect: bool, duty: &mut D) -> TurnOutcome {
        self.seat.law_own();
        match self.table.enter(self.seat) {
            Entered::Turn(turn) => TurnOutcome::Done(act_in(
                self.table, self.seat, turn, collect, duty,
            )),
            Entered::Out => TurnOutcome::Out,
        }
    }
}

/// The pins that a turn collects.
fn gather(
    table: &LockTable<Board>,
    seat: &mut TableSeat,
    turn: &mut Turn<Board>,
    collect: bool,
) -> Bits
    requires table { seat.old.table ≡ table.now.table.shared.table_id }
    requires inside { seat.old.view.stage ≡ stage.Inside }
    requires base { turn.old.board.machine ≡ table.now.table.shared.key.machine }
    requires found { turn.old.board.entries ≡ seat.old.view.seen }
    requires host { collect ≡ true → ForOne (λ p. (is_host p.actor ≡ true) × (p.phase ≡ kept.Free)) seat.old.view.who }
    ensures same { SameSeat seat.old seat.new }
    ensures turn { turn.new ≡ turn.old }
    ensures gathers { seat.new.view ≡ gathered collect (words_of result) seat.old.view }
    ensures nothing { collect ≡ false → events_of (pinned result) ≡ [] }
    ensures latchable { AreLatchable turn.old.board.machine turn.old.board.entries (pinned result) }
{
    if collect {
        table.collect(seat, turn)
    } else {
        none()
    }
}

/// What a duty does in a turn, which is given back then.
fn act_in<D: Duty>(
    table: &LockTable<Board>,
    seat: &mut TableSeat,
    turn: Turn<Board>,
    collect: bool,
    duty: &mut D,
) -> Acted
    requires table { seat.old.table ≡ table.now.table.shared.table_id }
    requires inside { seat.old.view.stage ≡ stage.Inside }
    requires base { turn.board.machine ≡ table.now.table.shared.key.machine }
    requires found { turn.board.entries ≡ seat.old.view.seen }
    requires hosts { is_host (D.actor_of duty.old) ≡ false → collect ≡ false }
    requires may { ForOne (MayAct (D.actor_of duty.old) collect (D.lock duty.old)) seat.old.view.who }
    ensures same { SameSeat seat.old seat.new }
    ensures legal { Legal table.now.table.shared.key.machine seat.old.view.seen }
    ensures acts { Acts (D.does table.now.table.shared.key.machine) collect seat.old.view duty.old result
        seat.new.view duty.new }
{
    let mut turn = turn;
    let found = turn.board();
    found.law_legal();
    let bits = gather(table, seat, &mut turn, collect);
    let acted = duty.act(turn.board(), bits);
    let left = turn.board();
    left.law_legal();
    table.leave(seat, turn);
    acted
}
