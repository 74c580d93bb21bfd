//! Scripts by hand: which are accepted, and what a cursor gives, act by act.
ghost use Rattle.std.specs.Prelude.{Bool, IfOk, false};
ghost use Rattle.acpi_regs.specs.Event.{same_event};
ghost use Rattle.acpi_regs.specs.declared.event.Event.TheVariants as event;
ghost use Rattle.handler_script.specs.Accepts.{Accepted};
ghost use Rattle.handler_script.specs.declared.op.Op.TheVariants as op;

use crate::laws::{law_acts, law_equality, law_locked};
use crate::{Act, Cursor, EventRules, Op, Script, ScriptFault};
use acpi_regs::{Cell, Event, Fixed, Request, Side};
use field_units::{FieldFault, FieldUnit, LockRule, RegionKind, UpdateRule};
use std::alloc::Global;
use std::test::Fail;

const PWR: Event = Event::Fixed(Fixed::Pwr);

fn at(offset: u16) -> Cell {
    Cell { region: 0, offset }
}

fn memory(
    bit: u32,
    width: u8,
    lock: LockRule,
    update: UpdateRule,
) -> Result<FieldUnit, FieldFault> {
    FieldUnit::new(0, RegionKind::Memory, 16, bit, width, lock, update)
}

/// A field of a controller that needs the lock.
fn controller(bit: u32, width: u8) -> Result<FieldUnit, FieldFault> {
    let kind = RegionKind::Controller;
    FieldUnit::new(
        0,
        kind,
        256,
        bit,
        width,
        LockRule::Lock,
        UpdateRule::Preserve,
    )
}

/// A script of these operations, or its fault.
fn script_of(
    alloc: Global,
    ops: &[Op],
    side: Side,
    fields: &[FieldUnit],
) -> Result<Result<Script, ScriptFault>, Fail>
    ensures { IfOk result (λ made. IfOk made (λ script. Accepted fields.now script)) }
{
    if ops.len() > 4096 {
        return Err(Fail::new("more than 4096 operations"));
    }
    Ok(Script::new(ops.to_vec(alloc)?, fields, side))
}

/// The acts of a script for these answers, up to and with the first that wants an answer and has none.
fn walk(
    alloc: Global,
    script: &Script,
    fields: &[FieldUnit],
    answers: &[u8],
) -> Result<Vec<Act>, Fail>
    requires { Accepted fields.now script.now }
{
    let mut acts = Vec::new(alloc);
    let mut bytes = answers.iter();
    let mut cursor = Cursor::new();
    for _ in 0..64 {
        let Some(act) = cursor.next(script, fields) else {
            break;
        };
        acts.push(act)?;
        if !act.brings() {
            cursor.answer(script, fields, None);
        } else if let Some(byte) = bytes.next() {
            cursor.answer(script, fields, Some(*byte));
        } else {
            break;
        }
    }
    Ok(acts)
}

/// The same, of these operations.
fn acts_of(
    alloc: Global,
    ops: &[Op],
    side: Side,
    fields: &[FieldUnit],
    answers: &[u8],
) -> Result<Vec<Act>, Fail> {
    let script = script_of(alloc, ops, side, fields)??;
    walk(alloc, &script, fields, answers)
}

#[test]
fn bits_of_a_field_are_read_and_written_by_its_rule(rt: HostRuntime) -> Result<(), Fail> {
    // Twelve bits from bit 2 on, over the bytes C3 and BC: the rule, the answers and the acts.
    let cases: [(UpdateRule, &[u8], &[Act]); 4] = [
        (
            UpdateRule::Preserve,
            &[0xC3, 0xBC],
            &[
                Act::Read(at(0)),
                Act::Write(at(0), 0xF3),
                Act::Read(at(1)),
                Act::Write(at(1), 0xAA),
            ],
        ),
        (
            UpdateRule::Preserve,
            &[0xC3],
            &[Act::Read(at(0)), Act::Write(at(0), 0xF3), Act::Read(at(1))],
        ),
        (
            UpdateRule::WriteAsOnes,
            &[],
            &[Act::Write(at(0), 0xF3), Act::Write(at(1), 0xEA)],
        ),
        (
            UpdateRule::WriteAsZeros,
            &[],
            &[Act::Write(at(0), 0xF0), Act::Write(at(1), 0x2A)],
        ),
    ];
    for (update, answers, expected) in cases {
        let fields = [memory(2, 12, LockRule::NoLock, update)?];
        let ops = [Op::Write(0, 2748)];
        let acts = acts_of(rt.alloc(), &ops, Side::Firmware, &fields, answers)?;
        assert_eq!(rt; acts.as_slice(), expected);
    }
    Ok(())
}

#[test]
fn an_operation_takes_the_lock_once_for_all_its_bytes(rt: HostRuntime) -> Result<(), Fail> {
    // A byte under the lock, a byte without it, and two bytes under the lock.
    let fields = [
        memory(0, 8, LockRule::Lock, UpdateRule::Preserve)?,
        memory(8, 8, LockRule::NoLock, UpdateRule::Preserve)?,
        memory(16, 16, LockRule::Lock, UpdateRule::Preserve)?,
    ];
    let cases: [(&[Op], &[u8], &[Act]); 6] = [
        (&[], &[], &[]),
        (
            &[Op::Add(0, 1)],
            &[0xFF],
            &[
                Act::Lock,
                Act::Read(at(0)),
                Act::Write(at(0), 0x00),
                Act::Unlock,
            ],
        ),
        (
            &[Op::Write(1, 90), Op::Read(1)],
            &[0x5A],
            &[Act::Write(at(1), 0x5A), Act::Read(at(1))],
        ),
        (
            &[Op::Add(2, 0x1_0001)],
            &[0xFF, 0x10],
            &[
                Act::Lock,
                Act::Read(at(2)),
                Act::Read(at(3)),
                Act::Write(at(2), 0x00),
                Act::Write(at(3), 0x11),
                Act::Unlock,
            ],
        ),
        (
            &[Op::Write(0, 1), Op::Write(0, 2)],
            &[],
            &[
                Act::Lock,
                Act::Write(at(0), 1),
                Act::Unlock,
                Act::Lock,
                Act::Write(at(0), 2),
                Act::Unlock,
            ],
        ),
        (
            &[
                Op::Hold,
                Op::Write(0, 1),
                Op::Write(1, 2),
                Op::Free,
                Op::Write(0, 3),
            ],
            &[],
            &[
                Act::Lock,
                Act::Write(at(0), 1),
                Act::Write(at(1), 2),
                Act::Unlock,
                Act::Lock,
                Act::Write(at(0), 3),
                Act::Unlock,
            ],
        ),
    ];
    for (ops, answers, expected) in cases {
        let acts = acts_of(rt.alloc(), ops, Side::Firmware, &fields, answers)?;
        assert_eq!(rt; acts.as_slice(), expected);
    }
    Ok(())
}

#[test]
fn the_controller_is_asked_and_bursts_for_more_than_one_byte(rt: HostRuntime) -> Result<(), Fail> {
    let fields = [controller(2040, 8)?, controller(0, 16)?];
    let cases: [(&[Op], &[u8], &[Act]); 5] = [
        (
            &[Op::Read(0)],
            &[0x5A],
            &[Act::Lock, Act::Ask(Request::Rd(0xFF)), Act::Unlock],
        ),
        (
            &[Op::Read(1)],
            &[0x90, 0, 0],
            &[
                Act::Lock,
                Act::Ask(Request::Be),
                Act::Ask(Request::Rd(0)),
                Act::Ask(Request::Rd(1)),
                Act::Ask(Request::Bd),
                Act::Unlock,
            ],
        ),
        (
            &[Op::Write(1, 0x1234)],
            &[0x90],
            &[
                Act::Lock,
                Act::Ask(Request::Be),
                Act::Ask(Request::Wr(0, 0x34)),
                Act::Ask(Request::Wr(1, 0x12)),
                Act::Ask(Request::Bd),
                Act::Unlock,
            ],
        ),
        (
            &[Op::Hold, Op::Add(1, 1), Op::Free],
            &[0x90, 0xFF, 0x00],
            &[
                Act::Lock,
                Act::Ask(Request::Be),
                Act::Ask(Request::Rd(0)),
                Act::Ask(Request::Rd(1)),
                Act::Ask(Request::Wr(0, 0x00)),
                Act::Ask(Request::Wr(1, 0x01)),
                Act::Ask(Request::Bd),
                Act::Unlock,
            ],
        ),
        (&[Op::Read(1)], &[], &[Act::Lock, Act::Ask(Request::Be)]),
    ];
    for (ops, answers, expected) in cases {
        let acts = acts_of(rt.alloc(), ops, Side::Os, &fields, answers)?;
        assert_eq!(rt; acts.as_slice(), expected);
    }
    Ok(())
}

#[test]
fn a_skip_passes_over_operations_by_the_value_read_last(rt: HostRuntime) -> Result<(), Fail> {
    let fields = [
        memory(0, 8, LockRule::NoLock, UpdateRule::Preserve)?,
        memory(8, 8, LockRule::NoLock, UpdateRule::Preserve)?,
    ];
    let cases: [(&[Op], &[u8], &[Act]); 6] = [
        (
            &[
                Op::Read(0),
                Op::Skip(5, 1),
                Op::Write(0, 1),
                Op::Skip(4, 1),
                Op::Write(0, 2),
            ],
            &[5],
            &[Act::Read(at(0)), Act::Write(at(0), 1)],
        ),
        // Nothing was read: the value is 0.
        (
            &[Op::Skip(0, 1), Op::Write(0, 1), Op::Write(0, 2)],
            &[],
            &[Act::Write(at(0), 1), Act::Write(at(0), 2)],
        ),
        (
            &[
                Op::Skip(1, 2),
                Op::Write(0, 1),
                Op::Write(0, 2),
                Op::Write(0, 3),
            ],
            &[],
            &[Act::Write(at(0), 3)],
        ),
        // The second skip is passed over.
        (
            &[Op::Skip(1, 1), Op::Skip(1, 1), Op::Write(0, 1)],
            &[],
            &[Act::Write(at(0), 1)],
        ),
        // An add leaves the value that it read, and a write leaves the value before.
        (
            &[
                Op::Add(0, 2),
                Op::Write(1, 9),
                Op::Skip(7, 1),
                Op::Write(1, 1),
                Op::Skip(9, 1),
                Op::Write(1, 2),
            ],
            &[7],
            &[
                Act::Read(at(0)),
                Act::Write(at(0), 9),
                Act::Write(at(1), 9),
                Act::Write(at(1), 1),
            ],
        ),
        (&[Op::Skip(1, 1), Op::Write(0, 1)], &[], &[]),
    ];
    for (ops, answers, expected) in cases {
        let acts = acts_of(rt.alloc(), ops, Side::Firmware, &fields, answers)?;
        assert_eq!(rt; acts.as_slice(), expected);
    }
    Ok(())
}

#[test]
fn the_other_operations_are_acts_of_the_same_name(rt: HostRuntime) -> Result<(), Fail> {
    let cases: [(Side, &[Op], &[Act]); 2] = [
        (
            Side::Os,
            &[
                Op::Notify(1, 0x80),
                Op::Drop(Event::Gpe(2)),
                Op::Up(PWR),
                Op::Down(Event::Gpe(3)),
            ],
            &[
                Act::Notify(1, 0x80),
                Act::Drop(Event::Gpe(2)),
                Act::Up(PWR),
                Act::Down(Event::Gpe(3)),
            ],
        ),
        (
            Side::Firmware,
            &[
                Op::Raise(PWR),
                Op::Assert(Event::Gpe(2)),
                Op::Drop(Event::Gpe(2)),
                Op::Push(0x2A),
            ],
            &[
                Act::Raise(PWR),
                Act::Assert(Event::Gpe(2)),
                Act::Drop(Event::Gpe(2)),
                Act::Push(0x2A),
            ],
        ),
    ];
    for (side, ops, expected) in cases {
        let acts = acts_of(rt.alloc(), ops, side, &[], &[])?;
        assert_eq!(rt; acts.as_slice(), expected);
    }
    Ok(())
}

/// The fault of these operations, where field 0 is the only one.
fn fault_of(alloc: Global, ops: &[Op], side: Side) -> Result<Option<ScriptFault>, Fail> {
    let fields = [memory(0, 8, LockRule::NoLock, UpdateRule::Preserve)?];
    Ok(script_of(alloc, ops, side, &fields)?.err())
}

#[test]
fn a_skip_passes_over_operations_that_follow_and_no_hold(rt: HostRuntime) -> Result<(), Fail> {
    let cases: [(&[Op], Option<u16>); 8] = [
        (&[Op::Skip(0, 1)], Some(0)),
        (&[Op::Skip(0, 0), Op::Read(0)], Some(0)),
        (&[Op::Skip(0, 1), Op::Read(0)], None),
        (&[Op::Skip(0, 2), Op::Read(0)], Some(0)),
        (&[Op::Skip(0, 1), Op::Hold, Op::Free], Some(0)),
        (&[Op::Skip(0, 2), Op::Read(0), Op::Hold, Op::Free], Some(0)),
        (&[Op::Hold, Op::Skip(0, 2), Op::Read(0), Op::Free], Some(1)),
        (&[Op::Hold, Op::Skip(0, 1), Op::Read(0), Op::Free], None),
    ];
    for (ops, place) in cases {
        let fault = fault_of(rt.alloc(), ops, Side::Firmware)?;
        assert_eq!(rt; fault, place.map(ScriptFault::BadSkip));
    }
    Ok(())
}

#[test]
fn holds_and_frees_come_in_turn(rt: HostRuntime) -> Result<(), Fail> {
    let cases: [(&[Op], Option<u16>); 7] = [
        (&[], None),
        (&[Op::Hold, Op::Hold, Op::Free], Some(1)),
        (&[Op::Free, Op::Hold], Some(0)),
        (&[Op::Hold, Op::Free, Op::Free], Some(2)),
        (&[Op::Hold, Op::Free, Op::Hold, Op::Free], None),
        (&[Op::Read(0), Op::Hold, Op::Read(0)], Some(1)),
        (&[Op::Hold, Op::Free, Op::Hold], Some(2)),
    ];
    for (ops, place) in cases {
        let fault = fault_of(rt.alloc(), ops, Side::Os)?;
        assert_eq!(rt; fault, place.map(ScriptFault::Unbalanced));
    }
    Ok(())
}

#[test]
fn an_operation_stands_on_its_side(rt: HostRuntime) -> Result<(), Fail> {
    let gpe = Event::Gpe(2);
    let cases: [(Side, &[Op], Option<u16>); 11] = [
        (Side::Os, &[Op::Raise(PWR)], Some(0)),
        (Side::Os, &[Op::Assert(gpe)], Some(0)),
        (Side::Os, &[Op::Read(0), Op::Push(1)], Some(1)),
        (Side::Os, &[Op::Drop(gpe), Op::Notify(1, 0x80)], None),
        (Side::Os, &[Op::Up(PWR), Op::Down(PWR)], None),
        (Side::Firmware, &[Op::Read(0), Op::Notify(1, 0x80)], Some(1)),
        (Side::Firmware, &[Op::Up(PWR)], Some(0)),
        (Side::Firmware, &[Op::Down(PWR)], Some(0)),
        (Side::Firmware, &[Op::Drop(gpe), Op::Raise(PWR)], None),
        (Side::Firmware, &[Op::Assert(gpe), Op::Push(1)], None),
        // The rule on sides comes before that on fields.
        (Side::Os, &[Op::Push(1), Op::Read(1)], Some(0)),
    ];
    for (side, ops, place) in cases {
        let fault = fault_of(rt.alloc(), ops, side)?;
        assert_eq!(rt; fault, place.map(ScriptFault::NotAllowed));
    }
    Ok(())
}

#[test]
fn the_first_faulty_operation_is_told(rt: HostRuntime) -> Result<(), Fail> {
    let cases: [(&[Op], ScriptFault); 7] = [
        (&[Op::Read(0), Op::Read(1)], ScriptFault::UnknownField(1)),
        (&[Op::Write(1, 0)], ScriptFault::UnknownField(0)),
        (&[Op::Add(65535, 0)], ScriptFault::UnknownField(0)),
        (&[Op::Free, Op::Push(1)], ScriptFault::Unbalanced(0)),
        (&[Op::Read(1), Op::Push(1)], ScriptFault::UnknownField(0)),
        // An open hold comes after every other fault.
        (&[Op::Hold, Op::Read(1)], ScriptFault::UnknownField(1)),
        (&[Op::Hold, Op::Skip(0, 1)], ScriptFault::BadSkip(1)),
    ];
    for (ops, fault) in cases {
        assert_eq!(rt; fault_of(rt.alloc(), ops, Side::Os)?, Some(fault));
    }
    Ok(())
}

/// References to the GPE with number 3 may not be counted.
struct NoThirdGpe;

impl EventRules for NoThirdGpe {
    ghost forbids = { λ _ o. elim o as (λ _. Bool)
        [ op.Up e ↦ same_event e (event.Gpe 3) | op.Down e ↦ same_event e (event.Gpe 3) | _ ↦ false ] };

    fn forbids(&self, op: Op) -> bool {
        match op {
            Op::Up(Event::Gpe(number)) | Op::Down(Event::Gpe(number)) => number == 3,
            _ => false,
        }
    }
}

#[test]
fn an_event_that_may_not_be_named_is_not_allowed(rt: HostRuntime) -> Result<(), Fail> {
    let cases: [(&[Op], Option<ScriptFault>); 4] = [
        (&[Op::Up(Event::Gpe(2)), Op::Down(PWR)], None),
        (
            &[Op::Up(Event::Gpe(2)), Op::Up(Event::Gpe(3))],
            Some(ScriptFault::NotAllowed(1)),
        ),
        (
            &[Op::Free, Op::Down(Event::Gpe(3))],
            Some(ScriptFault::Unbalanced(0)),
        ),
        (
            &[Op::Hold, Op::Down(Event::Gpe(3))],
            Some(ScriptFault::NotAllowed(1)),
        ),
    ];
    for (ops, fault) in cases {
        if ops.len() <= 4096 {
            let ops = ops.to_vec(rt.alloc())?;
            let told = Script::with_events(ops, &[], Side::Os, &NoThirdGpe).err();
            assert_eq!(rt; told, fault);
        }
    }
    Ok(())
}

#[test]
fn a_script_gives_its_operations_and_a_cursor_is_copied(rt: HostRuntime) -> Result<(), Fail> {
    let ops = [Op::Notify(1, 2), Op::Notify(3, 4)];
    let script = script_of(rt.alloc(), &ops, Side::Os, &[])??;
    let values = script.ops().iter().map(|op| match op {
        Op::Notify(device, value) => (*device, *value),
        _ => (0, 0),
    });
    assert!(rt; values.eq([(1, 2), (3, 4)]));

    let fields = [];
    let mut cursor = Cursor::new();
    let before = cursor;
    assert_eq!(rt; cursor.next(&script, &fields), Some(Act::Notify(1, 2)));
    cursor.answer(&script, &fields, None);
    assert_eq!(rt; cursor.next(&script, &fields), Some(Act::Notify(3, 4)));
    assert_eq!(rt; before.next(&script, &fields), Some(Act::Notify(1, 2)));

    law_acts();
    law_locked();
    law_equality();
    Ok(())
}
