ghost use Rattle.std.specs.Prelude.{◌≡◌, ◌↔◌, ◌⊎◌, ◌||◌, reverse, IsTrue, MatchOption, Some};
ghost use Rattle.acpi_regs.specs.declared.actor.Actor.TheVariants as actor;
ghost use Rattle.run_checker.specs.Ends.{AreEnds, HasOwn};
ghost use Rattle.run_checker.specs.Reasons.{Code, Has, HasReason, HostMove, IsFirstUnfinished, NoneUnfinished, Pending, Pulse, Script, Seeks, Signal};

use crate::ends::{Ends, stands_on};
use acpi_regs::laws::law_equality;
use acpi_regs::{Actor, Side};
use machine_core::Board;

/// The first actor, in the order in which they are served, that has something left to do.
pub fn first_unfinished(board: &Board, ends: &Ends) -> Option<Actor>
    requires { AreEnds board.now.machine (reverse board.now.entries) ends.now }
    ensures { MatchOption result (NoneUnfinished board.now.machine (reverse board.now.entries))
        (λ a. IsFirstUnfinished board.now.machine (reverse board.now.entries) a) }
{
    for k in 0..board.machine().actors() {
        let actor = board.machine().actor(k);
        if has_reason(board, ends, actor) {
            return Some(actor);
        }
    }
    None
}

/// Whether an actor has something left to do.
fn has_reason(board: &Board, ends: &Ends, actor: Actor) -> bool
    requires { AreEnds board.now.machine (reverse board.now.entries) ends.now }
    ensures { IsTrue result ↔ HasReason board.now.machine (reverse board.now.entries) actor }
{
    either(has_own(board, ends, actor), answers(ends, actor))
}

fn either(one: bool, other: bool) -> bool
    ensures { result ≡ (one || other) }
{
    one || other
}

/// Whether an actor answers for a signal without a busy.
fn answers(ends: &Ends, actor: Actor) -> bool
    ensures { IsTrue result ↔ ((ends.now.os ≡ Some actor) ⊎ (ends.now.firmware ≡ Some actor)) }
{
    either(is_actor(actor, ends.os), is_actor(actor, ends.firmware))
}

/// Whether an actor that was found is this one.
fn is_actor(actor: Actor, found: Option<Actor>) -> bool
    ensures { IsTrue result ↔ (found ≡ Some actor) }
{
    law_equality();
    match found {
        Some(other) => other == actor,
        None => false,
    }
}

/// Whether an actor has a reason of its own kind.
fn has_own(board: &Board, ends: &Ends, actor: Actor) -> bool
    requires { AreEnds board.now.machine (reverse board.now.entries) ends.now }
    ensures { IsTrue result ↔ HasOwn board.now.machine (reverse board.now.entries) actor }
{
    match actor {
        Actor::Int => int_has(board, ends),
        Actor::Poll => poll_has(board),
        Actor::Worker(number) => worker_has(board, number),
        Actor::Ec => board.ctl_move().is_some(),
        Actor::Device(_) => false,
        Actor::Firmware(number) => firmware_has(board, number),
    }
}

/// Whether an event is pending, a query code waits, or an event of a device's list has no latch.
fn int_has(board: &Board, ends: &Ends) -> bool
    requires { AreEnds board.now.machine (reverse board.now.entries) ends.now }
    ensures { IsTrue result ↔ HasOwn board.now.machine (reverse board.now.entries) Actor.Int }
{
    either(is_pending(board), either(ends.code, ends.pulse))
}

fn is_pending(board: &Board) -> bool
    ensures { IsTrue result ↔ Has board.now.machine (reverse board.now.entries) Actor.Int Pending }
{
    board.pending().is_some()
}

/// Whether a worker's request is open and the host's move is next.
fn poll_has(board: &Board) -> bool
    ensures { IsTrue result ↔ HasOwn board.now.machine (reverse board.now.entries) Actor.Poll }
{
    match board.requester() {
        Some(by) => stands_on(Side::Os, by) && board.host_move().is_some(),
        None => false,
    }
}

/// Whether a worker runs a job; of the first worker, also whether a job was not started.
fn worker_has(board: &Board, number: u8) -> bool
    ensures { IsTrue result ↔ HasOwn board.now.machine (reverse board.now.entries) (Actor.Worker number) }
{
    let runs = board.running(number).is_some();
    if number == 0 {
        either(board.waiting().is_some(), runs)
    } else {
        runs
    }
}

/// Whether a firmware's script has not ended, or it competes for the Global Lock.
fn firmware_has(board: &Board, number: u8) -> bool
    ensures { IsTrue result ↔ HasOwn board.now.machine (reverse board.now.entries) (Actor.Firmware number) }
{
    let seeker = board.seeker(Side::Firmware);
    either(
        has_script(board, number),
        is_actor(Actor::Firmware(number), seeker),
    )
}

fn has_script(board: &Board, number: u8) -> bool
    ensures { IsTrue result ↔ Has board.now.machine (reverse board.now.entries) (Actor.Firmware number) Script }
{
    usize::from(number) < board.machine().firmware().len()
        && board.act(Actor::Firmware(number)).is_some()
}
