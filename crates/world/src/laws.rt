//! Facts for the proofs of the crates above, which cost nothing to call: the step of workers and firmware over the
//! world of one thread, what `==` comes to, and the places of events.
ghost use Rattle.acpi_regs.specs.Comparisons.{IsExact};
ghost use Rattle.lock_table.specs.Bits.{IsEvent};
ghost use Rattle.world.specs.Giving.{ScriptGives, ScriptStays};
ghost use Rattle.world.specs.contracts.outcome.StepOutcomePartialEq.TheImpl as step_outcome_eq;
ghost use Rattle.world.specs.contracts.turn.ActedPartialEq.TheImpl as acted_eq;
ghost use Rattle.world.specs.contracts.turn.TurnOutcomePartialEq.TheImpl as turn_outcome_eq;

use crate::{Acted, StepOutcome, TurnOutcome};
use acpi_regs::Event;

/// Over the world of one thread a step of a worker or a firmware is exactly what the definitions give its actor, and
/// a step that does nothing leaves all as it is.
pub fn law_script()
    ensures gives { ScriptGives }
    ensures stays { ScriptStays }
{}

/// Two answers of a step or of a turn are `==` exactly where they are the same.
pub fn law_equality()
    ensures step { IsExact StepOutcome (step_outcome_eq.ghosts).eq }
    ensures acted { IsExact Acted (acted_eq.ghosts).eq }
    ensures turn { IsExact TurnOutcome (turn_outcome_eq.ghosts).eq }
{}

/// Each event has its place in the order in which events are served.
pub fn law_event(event: Event)
    ensures { IsEvent event }
{
    match event {
        Event::Fixed(_) => {}
        Event::Gpe(_) => {}
    }
}
