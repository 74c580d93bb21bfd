//! What the plan of a script comes to: facts for the proofs of the crates above, which cost nothing to call.
ghost use Rattle.std.specs.Prelude.{Bool, List, false};
ghost use Rattle.acpi_regs.specs.Comparisons.{IsExact};
ghost use Rattle.field_units.specs.Field.{Field};
ghost use Rattle.handler_script.specs.Costs.{CostsItsOps};
ghost use Rattle.handler_script.specs.Each.{IsTrueOfEach};
ghost use Rattle.handler_script.specs.Laws.{Ends, GoesOn, LocksInTurn, MarksNeeds, StepsOn, Waits};
ghost use Rattle.handler_script.specs.Locked.{Locked};
ghost use Rattle.handler_script.specs.Marked.{Marked};
ghost use Rattle.handler_script.specs.Plan.{empty_plan, query_plan};
ghost use Rattle.handler_script.specs.contracts.act.ActPartialEq.TheImpl as act_eq;
ghost use Rattle.handler_script.specs.contracts.fault.ScriptFaultPartialEq.TheImpl as script_fault_eq;

use crate::{Act, ScriptFault};

/// The acts for more answers begin with those for fewer. Once the next act is answered, the acts are that act and
/// then those of what is left. Where there is no answer, a next act that is to be answered with a byte is the only
/// one; where no act is next there is none.
pub fn law_acts()
    ensures goes_on { GoesOn }
    ensures steps_on { StepsOn }
    ensures waits { Waits }
    ensures ends { Ends }
{}

/// In an accepted script, and in a query job, each act that needs the lock stands where it is held, the lock is taken
/// and given back in turn, and it is free at the end.
pub fn law_locked()
    ensures script { LocksInTurn }
    ensures query { (glk : Bool) → Locked false (query_plan glk) }
    ensures empty { Locked false empty_plan }
{}

/// In an accepted script each access to a cell, and each request to the controller, that only fields which need the
/// lock make is marked as an act that needs the lock, and so is each while the lock is held. A query is marked
/// exactly if its controller needs the lock. No other act is marked.
pub fn law_marked()
    ensures script { MarksNeeds }
    ensures query { (glk : Bool) (fields : List Field) → Marked glk fields false (query_plan glk) }
{}

/// What is true on every field, and of the act of every operation that names none, is true of each act of a script.
pub fn law_each()
    ensures { IsTrueOfEach }
{}

/// Whatever its acts are answered, an accepted script costs no more than the sum over its operations, passed over or
/// not, at any prices that do not depend on the place or the byte of an access.
pub fn law_costs()
    ensures { CostsItsOps }
{}

/// Two values are `==` exactly where they are the same.
pub fn law_equality()
    ensures act { IsExact Act (act_eq.ghosts).eq }
    ensures script_fault { IsExact ScriptFault (script_fault_eq.ghosts).eq }
{}
