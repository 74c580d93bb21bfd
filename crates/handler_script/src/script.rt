ghost use Rattle.std.specs.Prelude.{List};
ghost use Rattle.handler_script.specs.declared.op.Op.{Op};

use crate::accept::{AnyEvent, first_fault};
use crate::cursor::begin_of;
use crate::{EventRules, Op, ScriptFault};
use acpi_regs::Side;
use field_units::FieldUnit;
use std::marker::Model;

/// Operations in order, which contracts see as the list of them.
#[derive(Debug, Drop)]
pub struct Script {
    ops: Vec<Op>,
    // The operation at which a new cursor finds its first act.
    begin: u16,
}

impl Model for Script {
    ghost use Rattle.std.specs.Prelude.{List};
    ghost use Rattle.handler_script.specs.Left.{Begins};
    ghost use Rattle.handler_script.specs.declared.op.Op.{Op};

    ghost Value = { List Op };

    ghost view = { λ s. s.ops.items };

    ghost invariant = { λ s. Begins s.ops.items s.begin };
}

impl Script {
    ghost use Rattle.std.specs.Prelude.{◌≡◌, ◌≤◌, IfOk, MatchResult, None, Some, length};
    ghost use Rattle.handler_script.specs.Accepts.{Accepted, IsScript, nothing_forbidden, script_fault};
    ghost use Rattle.handler_script.specs.Left.{Begins};

    /// A script of one side, of at most 4,096 operations. Which events they name is not tested: a script alone does
    /// not know the events. See [`Script::with_events`].
    ///
    /// It answers the fault of the first faulty operation; where several rules are broken there, the first of
    /// `NotAllowed`, `UnknownField`, `BadSkip` and `Unbalanced`. A hold that is open at the end comes after every other
    /// fault.
    pub fn new(ops: Vec<Op>, fields: &[FieldUnit], side: Side) -> Result<Script, ScriptFault>
        requires { length ops.items ≤ 4096 }
        ensures exact { MatchResult result
            (λ script. (script ≡ ops.items)
            × (script_fault nothing_forbidden side (length fields.now) ops.items ≡ None))
            (λ fault. script_fault nothing_forbidden side (length fields.now) ops.items ≡ Some fault) }
        ensures accepted { IfOk result (λ script. Accepted fields.now script) }
    {
        Script::with_events(ops, fields, side, &AnyEvent)
    }

    /// As [`Script::new`], and an operation that `events` forbids is `NotAllowed`.
    pub fn with_events<R: EventRules>(
        ops: Vec<Op>,
        fields: &[FieldUnit],
        side: Side,
        events: &R,
    ) -> Result<Script, ScriptFault>
        requires { length ops.items ≤ 4096 }
        ensures exact { MatchResult result
            (λ script. (script ≡ ops.items)
            × (script_fault (R.forbids events.now) side (length fields.now) ops.items ≡ None))
            (λ fault. script_fault (R.forbids events.now) side (length fields.now) ops.items ≡ Some fault) }
        ensures accepted { IfOk result (λ script. Accepted fields.now script) }
    {
        match first_fault(events, side, fields.len(), &ops) {
            Some(fault) => Err(fault),
            None => {
                let begin = begin_of(&ops);
                Ok(Script { ops, begin })
            }
        }
    }

    /// Why [`Script::with_events`] would refuse these operations, where there are `field_count` fields.
    pub fn fault_of<R: EventRules>(
        ops: &[Op],
        field_count: usize,
        side: Side,
        events: &R,
    ) -> Option<ScriptFault>
        requires { length ops.now ≤ 4096 }
        ensures { result ≡ script_fault (R.forbids events.now) side field_count ops.now }
    {
        first_fault(events, side, field_count, ops)
    }

    /// A script of operations that were tested before, by [`Script::fault_of`].
    pub fn of_tested(ops: Vec<Op>) -> Script
        requires { IsScript ops.items }
        ensures { result ≡ ops.items }
    {
        Script {
            begin: begin_of(&ops),
            ops,
        }
    }

    /// The operation at which the script begins, behind what the skips at its begin pass over.
    pub(crate) fn begin(&self) -> u16
        ensures { Begins self.now result }
    {
        self.begin
    }

    /// The operations.
    pub fn ops(&self) -> &[Op]
        ensures { result.now ≡ self.now }
    {
        &self.ops
    }
}
