//! The step that int and poll have in common.
ghost use Rattle.std.specs.Prelude.{◌≡◌, reverse, true, None};
ghost use Rattle.std.specs.Option.{option_map};
ghost use Rattle.machine_history.specs.Legal.{is_host};
ghost use Rattle.machine_history.specs.Steps as steps;
ghost use Rattle.os_actors.specs.Hosts.{HostSteps};
ghost use Rattle.world.specs.Calls.{To_turn};

use crate::host_turn::HostTurn;
use acpi_regs::{Actor, Deed, Event};
use machine_core::Board;
use world::laws::law_event;
use world::{StepOutcome, TurnOutcome, World, of_turn, otherwise, step_deed, where_may};

/// The entry that int or poll makes where it has nothing to latch.
pub fn host_entry(board: &Board, actor: Actor) -> Option<Deed>
    ensures { result ≡ steps.host_entry board.now.machine (reverse board.now.entries) actor }
{
    otherwise(
        where_may(board, actor, step_deed(board.host_move())),
        where_may(board, actor, claim(first_pending(board))),
    )
}

fn first_pending(board: &Board) -> Option<Event>
    ensures { result ≡ steps.first_pending board.now.machine (reverse board.now.entries) }
{
    match board.pending() {
        Some(event) => {
            law_event(event);
            Some(event)
        }
        None => None,
    }
}

fn claim(pending: Option<Event>) -> Option<Deed>
    ensures { result ≡ option_map Deed.Claim pending }
{
    match pending {
        Some(event) => Some(Deed::Claim(event)),
        None => None,
    }
}

/// One step of int or poll: one turn that collects the pins.
pub fn host_step<W: World>(actor: Actor, world: &mut W) -> StepOutcome
    requires host { is_host actor ≡ true }
    requires may { W.may world.old actor (To_turn true None) }
    ensures machine { W.machine world.new ≡ W.machine world.old }
    ensures steps { HostSteps W.makes (W.machine world.old) actor world.old result world.new }
{
    let mut duty = HostTurn::new(actor);
    match world.turn(true, &mut duty) {
        TurnOutcome::Done(acted) => of_turn(acted),
        TurnOutcome::Out => StepOutcome::Out,
    }
}
