//! From stage to stage of an operation on a field. Each function says that the acts which are left stay the same, or
//! are those behind the act that was passed.
ghost use Rattle.std.specs.Prelude.{◌≡◌, ◌<◌, Bool, Some, ℕ, false, true};
ghost use Rattle.field_units.specs.Bits.{byte_count, replaced};
ghost use Rattle.field_units.specs.Field.{Field};
ghost use Rattle.handler_script.specs.Left.{is_access, is_done, is_ready, read_done, rest_of_op, stage_fits, written};
ghost use Rattle.handler_script.specs.Parts.{write_act};
ghost use Rattle.handler_script.specs.Plan.{Plan, bytes_of, closed, next_act, opened, plan_after, unlocked};
ghost use Rattle.handler_script.specs.declared.op.Op.{Op};

use crate::access::{bursts, read_act, reads_first, takes_lock, write_act, written};
use crate::stage::{Place, Stage};
use crate::{Act, Op};
use acpi_regs::Request;
use field_units::FieldUnit;

/// Past burst mode: the lock is given back, or the operation is done.
fn unlocked(last: u64, field: &FieldUnit, held: bool) -> Place
    ensures same { (o : Op) (next : ℕ → Plan)
        → rest_of_op o field.now held result.stage result.last next ≡ unlocked field.now held (next last) }
    ensures ready { is_ready field.now held result.stage ≡ true }
{
    let stage = if takes_lock(field, held) {
        Stage::Unlocking
    } else {
        Stage::Done
    };
    Place { stage, last }
}

/// Past the bytes.
fn closed(last: u64, field: &FieldUnit, held: bool) -> Place
    ensures same { (o : Op) (next : ℕ → Plan)
        → rest_of_op o field.now held result.stage result.last next ≡ closed field.now held (next last) }
    ensures ready { is_ready field.now held result.stage ≡ true }
{
    if bursts(field) {
        Place {
            stage: Stage::Closing,
            last,
        }
    } else {
        unlocked(last, field, held)
    }
}

/// Past the begin of burst mode.
fn begun(last: u64, op: Op) -> Place
    requires { is_access op ≡ true }
    ensures same { (field : Field) (held : Bool) (next : ℕ → Plan)
        → rest_of_op op field held result.stage result.last next ≡ bytes_of op field held last next }
    ensures ready { (field : Field) (held : Bool) → is_ready field held result.stage ≡ true }
    ensures fits { (field : Field) → stage_fits field result.stage ≡ true }
    ensures going { is_done result.stage ≡ false }
{
    let stage = match op {
        Op::Write(..) => Stage::Writing(0),
        _ => Stage::Reading(0, 0),
    };
    Place { stage, last }
}

/// Past the lock.
pub(crate) fn opened(last: u64, op: Op, field: &FieldUnit, held: bool) -> Place
    requires { is_access op ≡ true }
    ensures same { (next : ℕ → Plan)
        → rest_of_op op field.now held result.stage result.last next ≡ opened op field.now held last next }
    ensures ready { is_ready field.now held result.stage ≡ true }
    ensures going { is_done result.stage ≡ false }
{
    if bursts(field) {
        Place {
            stage: Stage::Opened,
            last,
        }
    } else {
        begun(last, op)
    }
}

/// Past the last byte that is read.
fn read(value: u64, op: Op, field: &FieldUnit, held: bool) -> Place
    ensures same { (next : ℕ → Plan)
        → rest_of_op op field.now held result.stage result.last next ≡ read_done op field.now held next value }
    ensures ready { is_ready field.now held result.stage ≡ true }
{
    match op {
        Op::Add(..) => Place {
            stage: Stage::Writing(0),
            last: value,
        },
        _ => closed(value, field, held),
    }
}

/// The stage of the operation's next act, or that it is done.
pub(crate) fn settled(place: Place, op: Op, field: &FieldUnit, held: bool) -> Place
    requires access { is_access op ≡ true }
    requires fits { stage_fits field.now place.stage ≡ true }
    ensures same { (next : ℕ → Plan)
        → rest_of_op op field.now held result.stage result.last next
        ≡ rest_of_op op field.now held place.stage place.last next }
    ensures ready { is_ready field.now held result.stage ≡ true }
{
    let count = field.bytes_of().count;
    match place.stage {
        Stage::Before if !takes_lock(field, held) => opened(place.last, op, field, held),
        Stage::Opened if !bursts(field) => begun(place.last, op),
        Stage::Reading(k, so_far) if k == count => read(so_far, op, field, held),
        Stage::Writing(k) if k == count => closed(place.last, field, held),
        Stage::Closing if !bursts(field) => unlocked(place.last, field, held),
        Stage::Unlocking if !takes_lock(field, held) => Place {
            stage: Stage::Done,
            last: place.last,
        },
        _ => place,
    }
}

/// The act that stands at a stage.
pub(crate) fn act(place: Place, op: Op, field: &FieldUnit, held: bool) -> Act
    requires ready { is_ready field.now held place.stage ≡ true }
    requires going { is_done place.stage ≡ false }
    ensures { (next : ℕ → Plan) → next_act (rest_of_op op field.now held place.stage place.last next) ≡ Some result }
{
    match place.stage {
        Stage::Before => Act::Lock,
        Stage::Opened => Act::Ask(Request::Be),
        Stage::Reading(k, _) => read_act(field, k),
        Stage::Writing(k) if reads_first(field, k) => read_act(field, k),
        Stage::Writing(k) => write_byte(k, 0, place.last, op, field),
        Stage::Replacing(k, old) => write_byte(k, old, place.last, op, field),
        Stage::Closing => Act::Ask(Request::Bd),
        Stage::Unlocking | Stage::Done => Act::Unlock,
    }
}

/// The write of a byte of the field, which was `old`.
fn write_byte(k: u8, old: u8, last: u64, op: Op, field: &FieldUnit) -> Act
    requires { k < byte_count field.now }
    ensures { result ≡ write_act field.now k (replaced field.now k old (written op field.now last)) }
{
    write_act(field, k, field.put_bits(k, old, written(op, field, last)))
}

/// The stage once the act is passed, which was answered with a byte.
pub(crate) fn passed(place: Place, op: Op, field: &FieldUnit, held: bool, byte: u8) -> Place
    requires access { is_access op ≡ true }
    requires ready { is_ready field.now held place.stage ≡ true }
    requires going { is_done place.stage ≡ false }
    ensures same { (next : ℕ → Plan)
        → rest_of_op op field.now held result.stage result.last next
        ≡ plan_after byte (rest_of_op op field.now held place.stage place.last next) }
    ensures fits { stage_fits field.now result.stage ≡ true }
{
    field.law_fits();
    let last = place.last;
    let stage = match place.stage {
        Stage::Before => Stage::Opened,
        Stage::Opened => return begun(last, op),
        Stage::Reading(k, so_far) => Stage::Reading(k + 1, field.get_bits(k, byte, so_far)),
        Stage::Writing(k) if reads_first(field, k) => Stage::Replacing(k, byte),
        Stage::Writing(k) => Stage::Writing(k + 1),
        Stage::Replacing(k, _) => Stage::Writing(k + 1),
        Stage::Closing => Stage::Unlocking,
        Stage::Unlocking | Stage::Done => Stage::Done,
    };
    Place { stage, last }
}
