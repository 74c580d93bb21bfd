ghost use Rattle.std.specs.Prelude.{◌≡◌, ◌+◌, ◌<◌, ◌≤◌, Bool, List, None, Some, ℕ, false, if◌then◌else◌, is_some, length, option_map, slice_get, true, ◌==◌, MatchOption, unwrap_or};
ghost use Rattle.field_units.specs.Field.{Field};
ghost use Rattle.handler_script.specs.Accepts.{Accepted, IsScript};
ghost use Rattle.handler_script.specs.Acts.{brings};
ghost use Rattle.handler_script.specs.Left.{Begins, IsPlaced, field_named, is_access, is_done, is_entered, is_placed, is_ready, is_skip, left, rest_of_op, stands};
ghost use Rattle.handler_script.specs.Plan.{Plan, next_act, plan, plan_after, plan_op};
ghost use Rattle.handler_script.specs.declared.op.Op.{Op};

use crate::access::takes_lock;
use crate::stage::{Place, Stage};
use crate::{Act, Op, Script, walk};
use field_units::FieldUnit;

/// How far a script has come.
#[derive(Clone, Copy, Debug)]
pub struct Cursor {
    op: u16,
    place: Place,
    held: bool,
}

impl Cursor {
    /// At the first operation.
    pub fn new() -> Cursor
        ensures left { (fields : List Field) (ops : List Op) → left fields ops result ≡ plan fields ops }
        ensures stands { (fields : List Field) (ops : List Op) → stands fields ops result ≡ true }
    {
        Cursor::fresh_at(0)
    }

    /// At an operation before which there was no act.
    fn fresh_at(op: u16) -> Cursor
        ensures { result ≡ record { op = op; place = record { stage = Stage.Before; last = 0 }; held = false } }
    {
        let place = Place {
            stage: Stage::Before,
            last: 0,
        };
        Cursor {
            op,
            place,
            held: false,
        }
    }

    /// The next act, or `None` where the script has ended. The script is one that is accepted with these fields, and
    /// the cursor has passed acts of this script with these fields alone.
    ///
    /// It takes constant time.
    pub fn next(&self, script: &Script, fields: &[FieldUnit]) -> Option<Act>
        requires accepted { Accepted fields.now script.now }
        requires stands { stands fields.now script.now self.now ≡ true }
        ensures { result ≡ next_act (left fields.now script.now self.now) }
    {
        let ops = script.ops();
        let cursor = self.begun(script, fields);
        match cursor.at(ops) {
            Some(op) => Some(cursor.act_of(op, ops, fields)),
            None => None,
        }
    }

    /// Passes the next act, with the byte that it was answered where it brings one ([`Act::brings`]), and the skips
    /// that follow it. The script, the fields and the cursor are as in [`Cursor::next`].
    pub fn answer(&mut self, script: &Script, fields: &[FieldUnit], byte: Option<u8>)
        requires accepted { Accepted fields.now script.now }
        requires stands { stands fields.now script.now self.old ≡ true }
        requires act { MatchOption (next_act (left fields.now script.now self.old)) ⊥ (λ a. is_some byte ≡ brings a) }
        ensures stands { stands fields.now script.now self.new ≡ true }
        ensures left { left fields.now script.now self.new
            ≡ plan_after (unwrap_or byte 0) (left fields.now script.now self.old) }
    {
        let ops = script.ops();
        let cursor = self.begun(script, fields);
        if let Some(op) = cursor.at(ops) {
            let cursor = cursor.after(op, ops, fields, byte.unwrap_or(0));
            *self = cursor.past_skips(ops);
        }
    }

    fn at(&self, ops: &[Op]) -> Option<Op>
        ensures { result ≡ slice_get ops.now self.now.op }
    {
        ops.get(usize::from(self.op)).copied()
    }

    /// At the next act. Only a new cursor can be at a skip, and the script knows where that one begins.
    fn begun(&self, script: &Script, fields: &[FieldUnit]) -> Cursor
        requires stands { stands fields.now script.now self.now ≡ true }
        ensures placed { is_placed fields.now script.now result ≡ true }
        ensures left { left fields.now script.now result ≡ left fields.now script.now self.now }
        ensures act { (o : Op) → slice_get script.now result.op ≡ Some o → is_skip o ≡ false }
    {
        match self.at(script.ops()) {
            Some(Op::Skip(..)) => Cursor::fresh_at(script.begin()),
            _ => *self,
        }
    }

    /// Past the skips that stand before the next act.
    fn past_skips(&self, ops: &[Op]) -> Cursor
        requires script { IsScript ops.now }
        requires placed { IsPlaced ops.now self.now }
        ensures placed { (any : List Field) → is_placed any ops.now self.now ≡ true
            → is_placed any ops.now result ≡ true }
        ensures left { (any : List Field) → left any ops.now result ≡ left any ops.now self.now }
        ensures act { (o : Op) → slice_get ops.now result.op ≡ Some o → is_skip o ≡ false }
        ensures place { result.place ≡ self.now.place }
        ensures held { result.held ≡ self.now.held }
    {
        let mut cursor = *self;
        while let Some(Op::Skip(value, count)) = cursor.at(ops) {
            cursor = cursor.past_skip(value, count, ops);
        }
        cursor
    }

    /// Past the skip at which the cursor stands, and the operations that it passes over.
    fn past_skip(&self, value: u64, count: u16, ops: &[Op]) -> Cursor
        requires script { IsScript ops.now }
        requires placed { IsPlaced ops.now self.now }
        requires at { slice_get ops.now self.now.op ≡ Some (Op.Skip value count) }
        ensures placed { (any : List Field) → is_placed any ops.now self.now ≡ true
            → is_placed any ops.now result ≡ true }
        ensures left { (any : List Field) → left any ops.now result ≡ left any ops.now self.now }
        ensures place { result.place ≡ self.now.place }
        ensures held { result.held ≡ self.now.held }
        ensures further { self.now.op < result.op }
        ensures within { result.op ≤ length ops.now }
    {
        let passed = skipped(self.place.last, value, count);
        Cursor {
            op: self.op + 1 + passed,
            ..*self
        }
    }

    /// The act of the operation at which the cursor stands.
    fn act_of(&self, op: Op, ops: &[Op], fields: &[FieldUnit]) -> Act
        requires accepted { Accepted fields.now ops.now }
        requires placed { is_placed fields.now ops.now self.now ≡ true }
        requires at { slice_get ops.now self.now.op ≡ Some op }
        requires skip { is_skip op ≡ false }
        ensures { next_act (left fields.now ops.now self.now) ≡ Some result }
    {
        match field_of(op, fields) {
            Some(field) => {
                let place = started(self.place, op, &field, self.held);
                walk::act(place, op, &field, self.held)
            }
            None => plain_act(op),
        }
    }

    /// The cursor once the act of its operation is answered.
    fn after(&self, op: Op, ops: &[Op], fields: &[FieldUnit], byte: u8) -> Cursor
        requires accepted { Accepted fields.now ops.now }
        requires placed { is_placed fields.now ops.now self.now ≡ true }
        requires at { slice_get ops.now self.now.op ≡ Some op }
        requires skip { is_skip op ≡ false }
        ensures placed { is_placed fields.now ops.now result ≡ true }
        ensures left { left fields.now ops.now result ≡ plan_after byte (left fields.now ops.now self.now) }
    {
        match field_of(op, fields) {
            Some(field) => {
                let place = started(self.place, op, &field, self.held);
                let place = walk::passed(place, op, &field, self.held, byte);
                let place = walk::settled(place, op, &field, self.held);
                match place.stage {
                    Stage::Done => self.past_op(place.last, self.held),
                    _ => Cursor { place, ..*self },
                }
            }
            None => self.past_op(self.place.last, held_after(op, self.held)),
        }
    }

    /// At the operation after this one.
    fn past_op(&self, last: u64, held: bool) -> Cursor
        requires { self.now.op < 4096 }
        ensures { result ≡ record {
          op = self.now.op
              + 1;
          place = record { stage = Stage.Before; last = last };
          held = held;
        } }
    {
        let place = Place {
            stage: Stage::Before,
            last,
        };
        Cursor {
            op: self.op + 1,
            place,
            held,
        }
    }
}

/// The operation at which a script begins: the first one that the skips at its begin do not pass over.
pub(crate) fn begin_of(ops: &[Op]) -> u16
    requires { IsScript ops.now }
    ensures { Begins ops.now result }
{
    Cursor::fresh_at(0).past_skips(ops).op
}

/// How many operations a skip passes over.
fn skipped(last: u64, value: u64, count: u16) -> u16
    ensures { result ≡ (if last == value then 0 else count) }
{
    if last == value { 0 } else { count }
}

/// The field that an operation names.
fn field_of(op: Op, fields: &[FieldUnit]) -> Option<FieldUnit>
    ensures { result ≡ field_named fields.now op }
{
    match op {
        Op::Read(field) | Op::Write(field, _) | Op::Add(field, _) => fields
            .get(usize::from(field))
            .copied(),
        _ => None,
    }
}

/// The act of an operation that names no field.
fn plain_act(op: Op) -> Act
    requires access { is_access op ≡ false }
    requires skip { is_skip op ≡ false }
    ensures { (fields : List Field) (held : Bool) (last : ℕ) (next : Bool → ℕ → ℕ → Plan)
        → next_act (plan_op fields op held last next) ≡ Some result }
{
    match op {
        Op::Notify(device, value) => Act::Notify(device, value),
        Op::Drop(event) => Act::Drop(event),
        Op::Up(event) => Act::Up(event),
        Op::Down(event) => Act::Down(event),
        Op::Raise(event) => Act::Raise(event),
        Op::Assert(event) => Act::Assert(event),
        Op::Push(code) => Act::Push(code),
        Op::Free => Act::Unlock,
        Op::Hold | Op::Read(_) | Op::Write(..) | Op::Add(..) | Op::Skip(..) => Act::Lock,
    }
}

/// Whether a hold is open after an operation that names no field.
fn held_after(op: Op, held: bool) -> bool
    requires access { is_access op ≡ false }
    requires skip { is_skip op ≡ false }
    ensures { (fields : List Field) (last byte : ℕ) (next : Bool → ℕ → ℕ → Plan)
        → plan_after byte (plan_op fields op held last next) ≡ next result last 0 }
{
    match op {
        Op::Hold => true,
        Op::Free => false,
        _ => held,
    }
}

/// The place from which the next act stands: the operation has begun, where it takes the lock or not.
fn started(place: Place, op: Op, field: &FieldUnit, held: bool) -> Place
    requires access { is_access op ≡ true }
    requires entered { is_entered field.now held place.stage ≡ true }
    ensures same { (next : ℕ → Plan)
        → rest_of_op op field.now held result.stage result.last next
        ≡ rest_of_op op field.now held place.stage place.last next }
    ensures ready { is_ready field.now held result.stage ≡ true }
    ensures going { is_done result.stage ≡ false }
{
    match place.stage {
        Stage::Before if !takes_lock(field, held) => walk::opened(place.last, op, field, held),
        _ => place,
    }
}
