//! Trying for the Global Lock, waiting for a try that counts, and giving the lock up.
ghost use Rattle.std.specs.Prelude.{◌≡◌};
ghost use Rattle.acpi_regs.specs.declared.phase.LockPhase.TheVariants as lock;
ghost use Rattle.lock_table.specs.Calls.{SameSeat};
ghost use Rattle.lock_table.specs.Views.{IsSeeking};
ghost use Rattle.lock_table.specs.WordCalls.{Releases};
ghost use Rattle.global_lock.specs.Phases.{HasReleased, IsIn, IsSeatOf};
ghost use Rattle.global_lock.specs.Calls.{Acquires, Tries};

use crate::phases::{Gone, Marked, Quit, Seeking, Won};
use lock_table::{Attempt, LockTable, Recorded, TableSeat};
use std::sync::Wait;

/// What one attempt came to.
#[derive(Debug, Drop)]
pub enum TryLock {
    /// The lock is the actor's.
    Won(Won),
    /// The lock is owned, and its Pending bit is set now. The number is the word before.
    Marked(Marked, u32),
    /// The word had changed between the load and the exchange: what was loaded, and what was found.
    Moved(Seeking, u32, u32),
}

/// What attempts came to, of which the last one succeeded.
#[derive(Debug, Drop)]
pub enum Acquired {
    /// The lock is the actor's.
    Owned(Won),
    /// The lock is owned by another, and its Pending bit is set now. The number is the word that the last exchange
    /// found.
    Busy(Marked, u32),
}

/// One attempt at the lock.
pub fn try_lock<B: Recorded>(table: &LockTable<B>, seat: &mut TableSeat, s: Seeking) -> TryLock
    requires table { seat.old.table ≡ table.now.table.shared.table_id }
    requires seeks { IsSeatOf IsSeeking s seat.old.view }
    ensures same { SameSeat seat.old seat.new }
    ensures tries { Tries s seat.old.view result seat.new.view }
{
    match table.attempt(seat) {
        Attempt::Won => TryLock::Won(Won::of(seat)),
        Attempt::Marked { found } => TryLock::Marked(Marked::of(seat), found),
        Attempt::Moved { loaded, found } => TryLock::Moved(s, loaded, found),
    }
}

/// Attempts until one succeeds: an attempt that finds the word changed is made again. Nothing says that this ends.
pub fn acquire<R: Wait, B: Recorded>(
    rt: &R,
    table: &LockTable<B>,
    seat: &mut TableSeat,
    s: Seeking,
) -> Acquired
    requires table { seat.old.table ≡ table.now.table.shared.table_id }
    requires seeks { IsSeatOf IsSeeking s seat.old.view }
    ensures same { SameSeat seat.old seat.new }
    ensures acquires { Acquires s seat.old.view result seat.new.view }
{
    let mut seeking = s;
    for _ in rt.forever() {
        match try_lock(table, seat, seeking) {
            TryLock::Won(won) => return Acquired::Owned(won),
            TryLock::Marked(marked, found) => return Acquired::Busy(marked, found),
            TryLock::Moved(again, _, _) => seeking = again,
        }
    }
    unreachable!()
}

/// Releases the lock's word.
pub fn give_up<B: Recorded>(table: &LockTable<B>, seat: &mut TableSeat, q: Quit) -> Gone
    requires table { seat.old.table ≡ table.now.table.shared.table_id }
    requires quits { IsSeatOf (IsIn lock.Quit) q seat.old.view }
    ensures same { SameSeat seat.old seat.new }
    ensures releases { Releases seat.old.view result.signal seat.new.view }
    ensures gone { HasReleased result seat.new.view × (result.actor ≡ q) }
{
    let _ = q;
    table.release(seat);
    Gone::of(seat)
}
