//! Seats in tests, and their turns.
ghost use Rattle.std.specs.Prelude.{◌≡◌, ◌∷◌, [], IfOk, List, Some};
ghost use Rattle.acpi_regs.specs.declared.actor.Actor.{Actor};
ghost use Rattle.lock_table.specs.Roots.{HasAllBut, HasFreshBut};
ghost use Rattle.lock_table.specs.Views.{after_deed, find, first_kept, fresh, let_go, root_parts};
ghost use Rattle.acpi_regs.specs.declared.phase.LockPhase.TheVariants as lock;
ghost use Rattle.lock_table.specs.declared.view.SeatPhase.TheVariants as kept;
ghost use Rattle.lock_table.specs.declared.view.SeatPhase.{SeatPhase};
ghost use Rattle.global_lock.specs.Phases.{IsSeatOf};
ghost use Rattle.global_lock.specs.TestSeats.{IsHere, IsInside, IsRootHere, MayNote, MayPass, Rests};

use super::notes::Notes;
use crate::{Acquired, Quit, Seeking, acquire, give_up};
use acpi_regs::{Actor, Deed, Entry, Event, Memory};
use lock_table::{Attempt, Entered, LockTable, TableSeat, Turn};
use std::alloc::Global;
use std::process::Abort;
use std::sync::Wait;

/// A table over an empty journal, with its root.
pub fn opened(
    alloc: Global,
    list: &[Event],
    room: usize,
) -> Result<(LockTable<Notes>, TableSeat), Memory>
    ensures root { IfOk result (λ t. IsRootHere t.0.table.shared.table_id t.1) }
    ensures fresh { IfOk result (λ t. HasFreshBut [] t.1.view) }
    ensures list { IfOk result (λ t. t.0.table.shared.key.list.events.items ≡ list.now) }
{
    LockTable::new(alloc, Notes::new(alloc, list, room)?)
}

/// A seat for an actor.
pub fn seated(table: &LockTable<Notes>, root: &mut TableSeat, actor: Actor) -> TableSeat
    requires root { IsRootHere table.now.table.shared.table_id root.old }
    requires fresh { find actor (root_parts root.old.view.who) ≡ Some (fresh actor) }
    ensures root { IsRootHere table.now.table.shared.table_id root.new }
    ensures seat { Rests table.now.table.shared.table_id actor (first_kept actor) result }
    ensures fresh { (away : List Actor) → HasFreshBut away root.old.view → HasFreshBut (actor ∷ away) root.new.view }
{
    table.split(root, actor)
}

/// Takes a seat back.
pub fn back(table: &LockTable<Notes>, root: &mut TableSeat, seat: TableSeat, actor: Actor)
    requires root { IsRootHere table.now.table.shared.table_id root.old }
    requires seat { IsHere table.now.table.shared.table_id seat × IsSeatOf (λ _. Unit {0}) actor seat.view }
    ensures root { IsRootHere table.now.table.shared.table_id root.new }
    ensures has { (away : List Actor) → HasAllBut (actor ∷ away) root.old.view → HasAllBut away root.new.view }
{
    let _ = actor;
    table.join(root, seat);
}

/// The turn, which no other seat has.
pub fn taken<R: Abort>(rt: &R, table: &LockTable<Notes>, seat: &mut TableSeat) -> Turn<Notes>
    requires { IsHere table.now.table.shared.table_id seat.old }
    ensures base { result.board.list ≡ table.now.table.shared.key.list }
    ensures inside { (a : Actor) (k : SeatPhase) → Rests table.now.table.shared.table_id a k seat.old
        → IsInside table.now.table.shared.table_id a k result.board.entries.items seat.new }
{
    match table.enter(seat) {
        Entered::Turn(turn) => turn,
        Entered::Out => panic!(rt; "the turn is out"),
    }
}

/// Gives the turn back with nothing added.
pub fn passed(table: &LockTable<Notes>, seat: &mut TableSeat, turn: Turn<Notes>)
    requires base { turn.board.list ≡ table.now.table.shared.key.list }
    requires inside { (a : Actor) × (k : SeatPhase)
        × IsInside table.now.table.shared.table_id a k turn.board.entries.items seat.old × MayPass k }
    ensures { (a : Actor) (k : SeatPhase)
        → IsInside table.now.table.shared.table_id a k turn.board.entries.items seat.old
        → Rests table.now.table.shared.table_id a (let_go k) seat.new }
{
    table.leave(seat, turn);
}

/// A turn in which one entry is made.
pub fn noted<R: Abort>(
    rt: &R,
    table: &LockTable<Notes>,
    seat: &mut TableSeat,
    actor: Actor,
    deed: Deed,
)
    requires { (k : SeatPhase) × Rests table.now.table.shared.table_id actor k seat.old × MayNote k deed }
    ensures { (k : SeatPhase) → Rests table.now.table.shared.table_id actor k seat.old
        → Rests table.now.table.shared.table_id actor (let_go (after_deed deed k)) seat.new }
{
    let entry = Entry { actor, deed };
    let mut turn = taken(rt, table, seat);
    assert!(rt; turn.board().lets(entry));
    assert!(rt; turn.board().note(entry));
    table.leave(seat, turn);
}

/// Whether the turn is out. Where it is not, it is taken and given back.
pub fn finds_out(table: &LockTable<Notes>, seat: &mut TableSeat) -> bool
    requires { (a : Actor) × (k : SeatPhase) × Rests table.now.table.shared.table_id a k seat.old × MayPass k }
    ensures { (a : Actor) (k : SeatPhase) → Rests table.now.table.shared.table_id a k seat.old → MayPass k
        → Rests table.now.table.shared.table_id a k seat.new }
{
    match table.enter(seat) {
        Entered::Turn(turn) => {
            passed(table, seat, turn);
            false
        }
        Entered::Out => true,
    }
}

/// An attempt that takes the lock.
pub fn wins<R: Abort>(rt: &R, table: &LockTable<Notes>, seat: &mut TableSeat)
    requires { (a : Actor) × (l : _) × Rests table.now.table.shared.table_id a (kept.Lock (lock.Seeking l)) seat.old }
    ensures { (a : Actor) (k : SeatPhase) → Rests table.now.table.shared.table_id a k seat.old
        → Rests table.now.table.shared.table_id a (kept.Lock lock.Won) seat.new }
{
    let Attempt::Won = table.attempt(seat) else {
        panic!(rt; "the word was free");
    };
}

/// An attempt that finds the lock owned, and this word.
pub fn marks<R: Abort>(rt: &R, table: &LockTable<Notes>, seat: &mut TableSeat, word: u32)
    requires { (a : Actor) × (l : _) × Rests table.now.table.shared.table_id a (kept.Lock (lock.Seeking l)) seat.old }
    ensures { (a : Actor) (k : SeatPhase) → Rests table.now.table.shared.table_id a k seat.old
        → Rests table.now.table.shared.table_id a (kept.Lock lock.Marked) seat.new }
{
    let Attempt::Marked { found } = table.attempt(seat) else {
        panic!(rt; "the word was owned");
    };
    assert_eq!(rt; found, word);
}

/// Acquires the lock, which is free.
pub fn owns<R: Abort + Wait>(rt: &R, table: &LockTable<Notes>, seat: &mut TableSeat)
    requires { (a : Actor) × (l : _) × Rests table.now.table.shared.table_id a (kept.Lock (lock.Seeking l)) seat.old }
    ensures { (a : Actor) (k : SeatPhase) → Rests table.now.table.shared.table_id a k seat.old
        → Rests table.now.table.shared.table_id a (kept.Lock lock.Won) seat.new }
{
    let seeking = Seeking::of(seat);
    let Acquired::Owned(_) = acquire(rt, table, seat, seeking) else {
        panic!(rt; "the lock was free");
    };
}

/// Tries to acquire the lock, which is owned.
pub fn is_busy<R: Abort + Wait>(rt: &R, table: &LockTable<Notes>, seat: &mut TableSeat, word: u32)
    requires { (a : Actor) × (l : _) × Rests table.now.table.shared.table_id a (kept.Lock (lock.Seeking l)) seat.old }
{
    let seeking = Seeking::of(seat);
    let Acquired::Busy(_, found) = acquire(rt, table, seat, seeking) else {
        panic!(rt; "the lock was owned");
    };
    assert_eq!(rt; found, word);
}

/// Gives the lock up: whether the other side has to be signalled.
pub fn gives_up(table: &LockTable<Notes>, seat: &mut TableSeat) -> bool
    requires { (a : Actor) × Rests table.now.table.shared.table_id a (kept.Lock lock.Quit) seat.old }
{
    let quit = Quit::of(seat);
    let gone = give_up(table, seat, quit);
    gone.signal()
}
