//! The entry that a worker or a firmware would add, and its step, which is the same for both.
ghost use Rattle.std.specs.Prelude.{◌≡◌, false, reverse, Some};
ghost use Rattle.std.specs.Option.{option_map};
ghost use Rattle.acpi_regs.specs.Phases.{lock_deed};
ghost use Rattle.machine_history.specs.Legal.{is_host};
ghost use Rattle.machine_history.specs.Scripts.{next_of};
ghost use Rattle.machine_history.specs.Steps as steps;
ghost use Rattle.world.specs.Stepping.{ScriptSteps, attempt_phase, has_ended, lock_want, may_end, moved_by};
ghost use Rattle.world.specs.Calls.{To_turn};

use crate::may::{otherwise, where_may};
use crate::outcome::{StepOutcome, of_attempt, of_made};
use crate::script_turn::ScriptTurn;
use crate::{TurnOutcome, World};
use acpi_regs::{Actor, Deed, HostMove, LockPhase, Request};
use handler_script::Act;
use lock_table::Attempt;
use machine_core::Board;

/// The entry of a worker or a firmware in this phase, where the board allows one.
pub fn script_entry(board: &Board, actor: Actor, phase: LockPhase) -> Option<Deed>
    ensures { result ≡ steps.script_entry board.now.machine (reverse board.now.entries) actor phase }
{
    match phase {
        LockPhase::Idle => at_script(board, actor, LockPhase::Idle),
        LockPhase::Seeking(_) => None,
        LockPhase::Marked => where_may(board, actor, Some(Deed::Busy)),
        LockPhase::Waiting => where_may(board, actor, Some(Deed::Woken)),
        LockPhase::Won => where_may(board, actor, Some(Deed::Own)),
        LockPhase::Owning => at_script(board, actor, LockPhase::Owning),
        LockPhase::Quit => None,
        LockPhase::Gone(signals) => where_may(board, actor, Some(Deed::Leave(signals))),
    }
}

/// The entry for the next act, or, where no act is left, the one between two jobs.
fn at_script(board: &Board, actor: Actor, phase: LockPhase) -> Option<Deed>
    ensures { result ≡ steps.at_script board.now.machine (reverse board.now.entries) actor phase
        (next_of board.now.machine (reverse board.now.entries) actor) }
{
    match board.act(actor) {
        Some(act) => where_allowed(phase, at_act(board, actor, act)),
        None => {
            if phase.is_idle() {
                between(board, actor)
            } else {
                None
            }
        }
    }
}

fn where_allowed(phase: LockPhase, made: Option<Deed>) -> Option<Deed>
    ensures { result ≡ steps.where_allowed phase made }
{
    match made {
        Some(deed) => { if phase.allows(deed) { Some(deed) } else { None } }
        None => None,
    }
}

/// The entry that the next act asks for.
fn at_act(board: &Board, actor: Actor, act: Act) -> Option<Deed>
    requires { next_of board.now.machine (reverse board.now.entries) actor ≡ Some act }
    ensures { result ≡ steps.at_act board.now.machine (reverse board.now.entries) actor act }
{
    match act {
        Act::Lock => where_may(board, actor, Some(Deed::Seek)),
        Act::Unlock => where_may(board, actor, Some(Deed::Disown)),
        Act::Read(cell) => {
            board.machine().law_rules();
            where_may(board, actor, Some(Deed::Read(cell, board.cell(cell))))
        }
        Act::Write(cell, byte) => where_may(board, actor, Some(Deed::Write(cell, byte))),
        Act::Ask(request) => at_request(board, actor, request),
        Act::Notify(device, value) => where_may(board, actor, Some(Deed::Notify(device, value))),
        Act::Drop(event) => where_may(board, actor, Some(Deed::Drop(event))),
        Act::Up(event) => where_may(board, actor, Some(Deed::Up(event))),
        Act::Down(event) => where_may(board, actor, Some(Deed::Down(event))),
        Act::Raise(event) => where_may(board, actor, Some(Deed::Raise(event))),
        Act::Assert(event) => where_may(board, actor, Some(Deed::Assert(event))),
        Act::Push(code) => where_may(board, actor, Some(Deed::Push(code))),
    }
}

/// A request is begun; while it is open and asks for the host's next move, a firmware makes that; at the end it is
/// taken.
fn at_request(board: &Board, actor: Actor, request: Request) -> Option<Deed>
    ensures { result ≡ steps.at_act board.now.machine (reverse board.now.entries) actor (Act.Ask request) }
{
    otherwise(
        where_may(board, actor, Some(Deed::Begin(request))),
        otherwise(
            where_may(board, actor, take(board.taking())),
            where_may(board, actor, step_deed(board.host_move())),
        ),
    )
}

fn take(taking: Option<Option<u8>>) -> Option<Deed>
    ensures { result ≡ option_map Deed.Take taking }
{
    match taking {
        Some(byte) => Some(Deed::Take(byte)),
        None => None,
    }
}

/// The entry of a move of the host.
pub fn step_deed(made: Option<HostMove>) -> Option<Deed>
    ensures { result ≡ option_map Deed.Step made }
{
    match made {
        Some(made) => Some(Deed::Step(made)),
        None => None,
    }
}

/// A worker with no act left finishes the job that it runs, or starts the next that waits.
fn between(board: &Board, actor: Actor) -> Option<Deed>
    ensures { result ≡ steps.between board.now.machine (reverse board.now.entries) actor }
{
    match actor {
        Actor::Worker(number) => otherwise(
            where_may(board, actor, finish(board.running(number))),
            where_may(board, actor, start(board.waiting())),
        ),
        _ => None,
    }
}

fn finish(running: Option<u32>) -> Option<Deed>
    ensures { result ≡ option_map Deed.Finish running }
{
    match running {
        Some(job) => Some(Deed::Finish(job)),
        None => None,
    }
}

fn start(waiting: Option<u32>) -> Option<Deed>
    ensures { result ≡ option_map Deed.Start waiting }
{
    match waiting {
        Some(job) => Some(Deed::Start(job)),
        None => None,
    }
}

/// Whether this is a firmware that does not compete, and whose script has ended.
pub fn has_ended(board: &Board, actor: Actor, phase: LockPhase) -> bool
    ensures { result ≡ has_ended board.now.machine (reverse board.now.entries) actor phase }
{
    may_end(actor) && phase.is_idle() && board.act(actor).is_none()
}

fn may_end(actor: Actor) -> bool
    ensures { result ≡ may_end actor }
{
    matches!(actor, Actor::Firmware(_))
}

/// The phase behind an attempt at the lock.
fn attempt_phase(attempt: Attempt) -> LockPhase
    ensures { result ≡ attempt_phase attempt }
{
    match attempt {
        Attempt::Won => LockPhase::Won,
        Attempt::Marked { .. } => LockPhase::Marked,
        Attempt::Moved { .. } => LockPhase::Seeking(None),
    }
}

/// The phase behind the entry that was made, if any.
fn moved_by(made: Option<Deed>, phase: LockPhase) -> LockPhase
    ensures { result ≡ moved_by made phase }
{
    match made {
        Some(deed) => phase.moved(deed),
        None => phase,
    }
}

/// One step of a worker or a firmware: one attempt at the lock, one release of it, or one turn, in which it adds the
/// one entry of its phase where the board allows it.
pub fn script_step<W: World>(actor: Actor, phase: &mut LockPhase, world: &mut W) -> StepOutcome
    requires runs { is_host actor ≡ false }
    requires may { W.may world.old actor (lock_want phase.old) }
    ensures machine { W.machine world.new ≡ W.machine world.old }
    ensures steps { ScriptSteps W.makes (W.machine world.old) actor world.old phase.old result world.new phase.new }
{
    match *phase {
        LockPhase::Seeking(_) => {
            let attempt = world.attempt(actor);
            *phase = attempt_phase(attempt);
            of_attempt(attempt)
        }
        LockPhase::Quit => {
            *phase = LockPhase::Gone(world.release(actor));
            StepOutcome::Stepped
        }
        _ => script_turn(actor, phase, world),
    }
}

fn script_turn<W: World>(actor: Actor, phase: &mut LockPhase, world: &mut W) -> StepOutcome
    requires runs { is_host actor ≡ false }
    requires wants { lock_want phase.old ≡ To_turn false (lock_deed phase.old) }
    requires may { W.may world.old actor (To_turn false (lock_deed phase.old)) }
    ensures machine { W.machine world.new ≡ W.machine world.old }
    ensures steps { ScriptSteps W.makes (W.machine world.old) actor world.old phase.old result world.new phase.new }
{
    let mut duty = ScriptTurn::new(actor, *phase);
    match world.turn(false, &mut duty) {
        TurnOutcome::Done(_) => {
            *phase = moved_by(duty.made, *phase);
            of_made(duty.ended, duty.made)
        }
        TurnOutcome::Out => StepOutcome::Out,
    }
}
