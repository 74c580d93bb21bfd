//! Four seats on threads over one table, each of which makes numbered entries in turns of its own.
ghost use Rattle.std.specs.Prelude.{◌≡◌, ◌<◌, ◌∷◌, ℕ, All, List, Some, length, slice_index_or};
ghost use Rattle.acpi_regs.specs.declared.actor.Actor.{Actor};
ghost use Rattle.lock_table.specs.Roots.{HasFreshBut};
ghost use Rattle.lock_table.specs.Views.{find, first_kept, fresh, root_parts};
ghost use Rattle.acpi_regs.specs.declared.phase.LockPhase.TheVariants as lock;
ghost use Rattle.lock_table.specs.declared.view.SeatPhase.TheVariants as kept;
ghost use Rattle.global_lock.specs.declared.tests.threads.Writer.{Writer};
ghost use Rattle.global_lock.specs.TestSeats.{IsIdle, IsInside, IsRootHere};

use super::notes::Notes;
use super::seats::{back, opened, seated};
use acpi_regs::{Actor, Deed, Entry, Gate, Memory};
use lock_table::{Entered, LockTable, TableSeat, Turn};
use std::sync::atomic::{AtomicU64, Ordering};
use std::thread;
use std::thread::Threads;

/// How many entries each of the four makes.
const EACH: u32 = 25_000;

/// A seat whose actor is idle, and how many entries it made.
#[derive(Drop)]
pub struct Writer {
    pub actor: Actor,
    pub seat: TableSeat,
    pub made: u32,
}

/// Holds each actor up for a while, another while at each pass.
#[derive(Drop)]
struct Shuffle {
    passes: AtomicU64,
}

impl Gate for Shuffle {
    fn pass(&self, _: Actor) {
        let pass = self.passes.fetch_add(1, Ordering::SeqCst);
        let spins = pass.wrapping_mul(0x9E37_79B9_7F4A_7C15) >> 58;
        for _ in 0..spins {
            self.passes.load(Ordering::SeqCst);
        }
    }
}

/// Makes one numbered entry in a turn, which is given back. Whether there was room.
fn started(
    table: &LockTable<Notes>,
    seat: &mut TableSeat,
    turn: Turn<Notes>,
    actor: Actor,
    number: u32,
) -> bool
    requires base { turn.board.list ≡ table.now.table.shared.key.list }
    requires inside { IsInside table.now.table.shared.table_id actor (kept.Lock lock.Idle) turn.board.entries.items
        seat.old }
    ensures { IsIdle table.now.table.shared.table_id actor seat.new }
{
    let mut turn = turn;
    let made = turn.board().note(Entry {
        actor,
        deed: Deed::Start(number),
    });
    table.leave(seat, turn);
    made
}

/// Tries for the turn once, and makes the next entry in it.
fn try_once(table: &LockTable<Notes>, at: &mut Writer)
    requires { IsIdle table.now.table.shared.table_id at.old.actor at.old.seat }
    ensures actor { at.new.actor ≡ at.old.actor }
    ensures idle { IsIdle table.now.table.shared.table_id at.new.actor at.new.seat }
{
    match table.enter(&mut at.seat) {
        Entered::Turn(turn) => {
            if started(table, &mut at.seat, turn, at.actor, at.made) {
                at.made = at.made.saturating_add(1);
            }
        }
        Entered::Out => {}
    }
}

/// Makes the entries of one actor, behind the gate.
fn run_one<G: Gate>(table: &LockTable<Notes>, at: &mut Writer, gate: &G)
    requires { IsIdle table.now.table.shared.table_id at.old.actor at.old.seat }
    ensures actor { at.new.actor ≡ at.old.actor }
    ensures idle { IsIdle table.now.table.shared.table_id at.new.actor at.new.seat }
{
    for _tries in 0..1_000_000_000u64 {
        if at.made >= EACH {
            return;
        }
        gate.pass(at.actor);
        try_once(table, at);
    }
}

/// The actors of these seats, each on a thread of its own.
fn race<R: Threads + Sync, G: Gate>(
    rt: &R,
    table: &LockTable<Notes>,
    writers: &mut [Writer],
    gate: &G,
)
    requires { All (λ x. IsIdle table.now.table.shared.table_id x.actor x.seat) writers.old }
    ensures actors { (i : ℕ) (d : Writer) → i < length writers.old
        → (slice_index_or writers.new i d).actor ≡ (slice_index_or writers.old i d).actor }
    ensures idle { (i : ℕ) (d : Writer) → i < length writers.old
        → IsIdle table.now.table.shared.table_id (slice_index_or writers.new i d).actor
        (slice_index_or writers.new i d).seat }
{
    thread::for_each_mut(
        rt,
        writers,
        4,
        &|_, at: &mut Writer|
            requires { IsIdle table.now.table.shared.table_id at.old.actor at.old.seat }
            ensures { (at.new.actor ≡ at.old.actor)
                × IsIdle table.entry.now.table.shared.table_id at.new.actor at.new.seat }
        { run_one(table, at, gate) },
    );
}

/// Whether the entries of an actor are numbered one after another from 0, and how many they are.
fn in_order(entries: &[Entry], actor: Actor) -> (bool, u32) {
    let mut ordered = true;
    let mut count = 0u32;
    for entry in entries {
        if entry.actor == actor {
            ordered = ordered && entry.deed == Deed::Start(count);
            count = count.saturating_add(1);
        }
    }
    (ordered, count)
}

#[test]
fn four_seats_make_their_entries_once_and_in_order(rt: HostRuntime) -> Result<(), Memory> {
    let (table, mut root) = opened(rt.alloc(), &[], 100_000)?;
    let mut writers = [
        idle(&table, &mut root, Actor::Worker(0)),
        idle(&table, &mut root, Actor::Worker(1)),
        idle(&table, &mut root, Actor::Firmware(0)),
        idle(&table, &mut root, Actor::Firmware(1)),
    ];
    let gate = Shuffle {
        passes: AtomicU64::new(0),
    };
    race(&rt, &table, &mut writers, &gate);
    let [first, second, third, fourth] = writers;
    let made = [first.made, second.made, third.made, fourth.made];
    back(&table, &mut root, fourth.seat, Actor::Firmware(1));
    back(&table, &mut root, third.seat, Actor::Firmware(0));
    back(&table, &mut root, second.seat, Actor::Worker(1));
    back(&table, &mut root, first.seat, Actor::Worker(0));
    let (board, words) = table.close(root);
    assert_eq!(rt; made, [EACH, EACH, EACH, EACH]);
    assert_eq!(rt; board.entries().len(), 100_000);
    assert_eq!(rt; in_order(board.entries(), Actor::Worker(0)), (true, EACH));
    assert_eq!(rt; in_order(board.entries(), Actor::Worker(1)), (true, EACH));
    assert_eq!(rt; in_order(board.entries(), Actor::Firmware(0)), (true, EACH));
    assert_eq!(rt; in_order(board.entries(), Actor::Firmware(1)), (true, EACH));
    assert_eq!(rt; words.facs, 0);
    Ok(())
}

/// A seat for an actor that may make entries.
fn idle(table: &LockTable<Notes>, root: &mut TableSeat, actor: Actor) -> Writer
    requires root { IsRootHere table.now.table.shared.table_id root.old }
    requires idle { first_kept actor ≡ kept.Lock lock.Idle }
    requires fresh { find actor (root_parts root.old.view.who) ≡ Some (fresh actor) }
    ensures root { IsRootHere table.now.table.shared.table_id root.new }
    ensures writes { IsIdle table.now.table.shared.table_id actor result.seat × (result.actor ≡ actor) }
    ensures fresh { (away : List Actor) → HasFreshBut away root.old.view → HasFreshBut (actor ∷ away) root.new.view }
{
    let seat = seated(table, root, actor);
    Writer {
        actor,
        seat,
        made: 0,
    }
}
