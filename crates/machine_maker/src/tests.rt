//! Machines that are made, against weights and parts worked out by hand.
use crate::make;
use acpi_regs::Event;
use handler_script::Op;
use machine_desc::Machine;
use std::alloc::Global;
use std::test::Fail;

/// The machine of a number and a size, which is tested here.
fn sized(alloc: Global, number: u32, size: u8) -> Result<Machine, Fail> {
    if size < 1 || size > 64 {
        return Err(Fail::new("no size"));
    }
    Ok(make(alloc, number, size)?)
}

/// Whether the two are one addition, or one push.
fn is_same(one: &Op, other: &Op) -> bool {
    match one {
        Op::Add(field, value) => matches!(other, Op::Add(f, v) if f == field && v == value),
        Op::Push(code) => matches!(other, Op::Push(q) if q == code),
        _ => false,
    }
}

fn are_same(ones: &[Op], others: &[Op]) -> bool {
    ones.len() == others.len()
        && ones
            .iter()
            .zip(others)
            .all(|(one, other)| is_same(one, other))
}

#[test]
fn operations_of_the_smallest_machine(rt: HostRuntime) -> Result<(), Fail> {
    let machine = make(rt.alloc(), 0, 1)?;
    // 37 times the place, modulo 256: 0, 37, 74, 111, 148, 185, 222, 3, 40, 77, 114, 151, 188, 225, 6, 43.
    let first = machine.firmware().first().ok_or("no script")?;
    let expected = [
        Op::Add(0, 1),
        Op::Add(5, 1),
        Op::Add(10, 1),
        Op::Add(15, 1),
        Op::Push(5),
        Op::Push(2),
        Op::Push(7),
        Op::Add(3, 1),
        Op::Add(8, 1),
        Op::Add(13, 1),
        Op::Add(2, 1),
        Op::Push(8),
        Op::Push(5),
        Op::Push(2),
        Op::Add(6, 1),
        Op::Add(11, 1),
    ];
    assert!(rt; are_same(first.ops(), &expected));
    Ok(())
}

#[test]
fn last_items_of_the_largest_machine(rt: HostRuntime) -> Result<(), Fail> {
    let machine = make(rt.alloc(), 4_294_967_295, 64)?;
    // 255 and 37 times 4,095 make 151,770, which is 218 modulo 256; and there are 512 pulses.
    let last = machine.firmware().last().ok_or("no script")?;
    let op = last.ops().last().ok_or("no operation")?;
    assert!(rt; is_same(op, &Op::Push(3)));
    let pulses = machine.devices().last().ok_or("no device")?;
    assert_eq!(rt; pulses.as_slice().last(), Some(&Event::Gpe(7)));
    Ok(())
}

#[test]
fn sizes_weigh_what_their_parts_come_to(rt: HostRuntime) -> Result<(), Fail> {
    // At size 1 and number 0: 34 additions of 10 entries, 30 pushes; 8 pulses, which bring 8 runs of 3 entries; 30
    // starts and finishes of codes and their 11 entries each; 90 claims of the controller's event and 60 queries of 15
    // entries.
    let cases = [
        (0, 1, 1_782),
        (4_294_967_295, 1, 1_819),
        (0, 8, 14_848),
        (9, 33, 61_285),
        (3, 64, 118_784),
    ];
    for (number, size, weight) in cases {
        let machine = sized(rt.alloc(), number, size)?;
        assert_eq!(rt; machine.weight(), weight, "of {number} and {size}");
        assert_eq!(rt; machine.actors(), 13);
    }
    Ok(())
}
