//! Fields by hand: which bytes they have, what is read from them, and what a write leaves.
use crate::laws::{
    law_same_fault, law_same_lock_rule, law_same_region_kind, law_same_span, law_same_unit,
    law_same_update_rule,
};
use crate::{FieldFault, FieldUnit, LockRule, Region, RegionKind, Span, UpdateRule};
use std::test::Fail;

fn field(bit: u32, width: u8, update: UpdateRule) -> Result<FieldUnit, FieldFault> {
    FieldUnit::new(
        0,
        RegionKind::Memory,
        4096,
        bit,
        width,
        LockRule::NoLock,
        update,
    )
}

fn read(field: &FieldUnit, cells: &[u8]) -> u64 {
    let span = field.bytes_of();
    let mut value = 0;
    for k in 0..span.count {
        let place = span.first as usize + k as usize;
        let byte = cells.get(place).copied().unwrap_or(0);
        value = field.get_bits(k, byte, value);
    }
    value
}

fn write(field: &FieldUnit, cells: &mut [u8], value: u64) {
    let span = field.bytes_of();
    for k in 0..span.count {
        let place = span.first as usize + k as usize;
        if let Some(cell) = cells.get_mut(place) {
            *cell = field.put_bits(k, *cell, value);
        }
    }
}

fn fault_of(kind: RegionKind, len: u8, bit: u32, width: u8) -> Option<FieldFault> {
    let len = u16::from(len) + 1;
    FieldUnit::new(
        0,
        kind,
        len,
        bit,
        width,
        LockRule::Lock,
        UpdateRule::Preserve,
    )
    .err()
}

#[test]
fn a_field_has_a_width_and_lies_in_its_region(rt: HostRuntime) {
    // The kind of region and its cells less one, the first bit, the width, and the fault.
    let cases = [
        (
            RegionKind::Memory,
            7,
            4,
            64,
            Some(FieldFault::OutsideRegion),
        ),
        (RegionKind::Memory, 8, 4, 64, None),
        (RegionKind::Memory, 8, 4, 65, Some(FieldFault::BadWidth)),
        (RegionKind::Memory, 7, 4, 65, Some(FieldFault::BadWidth)),
        (RegionKind::Memory, 0, 0, 0, Some(FieldFault::BadWidth)),
        (RegionKind::Memory, 0, 9, 0, Some(FieldFault::BadWidth)),
        (RegionKind::Memory, 0, 7, 1, None),
        (RegionKind::Memory, 0, 8, 1, Some(FieldFault::OutsideRegion)),
        (RegionKind::Controller, 255, 2040, 8, None),
        (
            RegionKind::Controller,
            255,
            2041,
            8,
            Some(FieldFault::OutsideRegion),
        ),
        (
            RegionKind::Memory,
            255,
            u32::MAX,
            1,
            Some(FieldFault::OutsideRegion),
        ),
    ];
    for (kind, len, bit, width, fault) in cases {
        assert_eq!(rt;
            fault_of(kind, len, bit, width),
            fault,
            "{width} bits at {bit}"
        );
    }
    let last = FieldUnit::new(
        0,
        RegionKind::Memory,
        65535,
        524_216,
        64,
        LockRule::Lock,
        UpdateRule::Preserve,
    );
    assert_eq!(rt; last.err(), None);
}

#[test]
fn readers_give_what_the_field_was_made_of(rt: HostRuntime) -> Result<(), Fail> {
    let unit = FieldUnit::new(
        3,
        RegionKind::Controller,
        256,
        17,
        5,
        LockRule::Lock,
        UpdateRule::WriteAsZeros,
    )?;
    unit.law_fits();
    assert_eq!(rt; unit.region(), 3);
    assert_eq!(rt; unit.kind(), RegionKind::Controller);
    assert_eq!(rt; unit.len(), 256);
    assert_eq!(rt; unit.bit(), 17);
    assert_eq!(rt; unit.width(), 5);
    assert_eq!(rt; unit.lock(), LockRule::Lock);
    assert_eq!(rt; unit.update(), UpdateRule::WriteAsZeros);
    assert!(rt; law_same_unit(unit, unit));
    assert!(rt; !law_same_unit(unit, field(17, 5, UpdateRule::WriteAsZeros)?));
    Ok(())
}

#[test]
fn a_field_has_the_bytes_that_hold_its_bits(rt: HostRuntime) -> Result<(), Fail> {
    // The first bit and the width; the first byte and how many; whether the first is partial, and the last.
    let cases = [
        (0, 8, 0, 1, false, false),
        (0, 1, 0, 1, true, true),
        (7, 1, 0, 1, true, true),
        (7, 2, 0, 2, true, true),
        (8, 8, 1, 1, false, false),
        (4, 8, 0, 2, true, true),
        (2, 12, 0, 2, true, true),
        (12, 12, 1, 2, true, false),
        (16, 20, 2, 3, false, true),
        (0, 64, 0, 8, false, false),
        (1, 64, 0, 9, true, true),
        (4, 64, 0, 9, true, true),
        (2040, 8, 255, 1, false, false),
        (32_760, 8, 4095, 1, false, false),
    ];
    for (bit, width, first, count, first_partial, last_partial) in cases {
        let unit = field(bit, width, UpdateRule::Preserve)?;
        let span = unit.bytes_of();
        assert_eq!(rt; span, Span { first, count }, "{width} bits at {bit}");
        for k in 0..span.count {
            let last = k + 1 == count;
            let partial = k == 0 && first_partial || last && last_partial;
            assert_eq!(rt; unit.partial(k), partial, "byte {k}, {width} bits at {bit}");
        }
    }
    Ok(())
}

#[test]
fn a_write_leaves_the_other_bits_to_the_update_rule(rt: HostRuntime) -> Result<(), Fail> {
    let (keep, ones, zeros) = (
        UpdateRule::Preserve,
        UpdateRule::WriteAsOnes,
        UpdateRule::WriteAsZeros,
    );
    // The first bit, the width and the rule; two cells before; the value; the cells after, and what is read of them.
    let cases = [
        (2, 12, keep, [0xC3, 0xBC], 2748, [0xF3, 0xAA], 2748),
        (2, 12, ones, [0xC3, 0xBC], 2748, [0xF3, 0xEA], 2748),
        (2, 12, zeros, [0xC3, 0xBC], 2748, [0xF0, 0x2A], 2748),
        (3, 1, keep, [0x00, 0x55], 1, [0x08, 0x55], 1),
        (3, 1, keep, [0xFF, 0x55], 0, [0xF7, 0x55], 0),
        (3, 1, keep, [0xFF, 0x55], 2, [0xF7, 0x55], 0),
        (3, 1, ones, [0x00, 0x55], 0, [0xF7, 0x55], 0),
        (3, 1, zeros, [0xFF, 0x55], 3, [0x08, 0x55], 1),
        (8, 8, ones, [0x00, 0x55], 0x1AB, [0x00, 0xAB], 0xAB),
        (0, 16, zeros, [0x00, 0x55], 0x1234, [0x34, 0x12], 0x1234),
        (4, 8, zeros, [0xFF, 0xFF], 0x5A, [0xA0, 0x05], 0x5A),
        (4, 8, keep, [0xFF, 0xFF], 0x5A, [0xAF, 0xF5], 0x5A),
    ];
    for (bit, width, rule, before, value, after, found) in cases {
        let unit = field(bit, width, rule)?;
        let mut cells = before;
        write(&unit, &mut cells, value);
        assert_eq!(rt; cells, after, "{value} in {width} bits at {bit}");
        assert_eq!(rt; read(&unit, &cells), found);
    }
    let unit = field(2, 12, keep)?;
    assert_eq!(rt; read(&unit, &[0xC3, 0xBC]), 0xF30);
    Ok(())
}

#[test]
fn sixty_four_bits_at_bit_four_stand_in_nine_bytes(rt: HostRuntime) -> Result<(), Fail> {
    let value = 0x0123_4567_89AB_CDEF;
    let inner = [0xDE, 0xBC, 0x9A, 0x78, 0x56, 0x34, 0x12];
    // The rule, a cell before, and the first and the last cell after.
    let cases = [
        (UpdateRule::Preserve, 0xA5, 0xF5, 0xA0),
        (UpdateRule::WriteAsOnes, 0xA5, 0xFF, 0xF0),
        (UpdateRule::WriteAsZeros, 0xA5, 0xF0, 0x00),
    ];
    for (rule, before, first, last) in cases {
        let unit = field(4, 64, rule)?;
        let mut cells = [before; 10];
        write(&unit, &mut cells, value);
        assert_eq!(rt; cells[0], first);
        for (cell, byte) in cells[1..8].iter().zip(inner) {
            assert_eq!(rt; *cell, byte);
        }
        assert_eq!(rt; cells[8], last);
        assert_eq!(rt; cells[9], before);
        assert_eq!(rt; read(&unit, &cells), value);
    }
    Ok(())
}

#[test]
fn a_region_has_the_cells_that_it_was_given(rt: HostRuntime) -> Result<(), Fail> {
    let alloc = rt.alloc();
    let region = Region::new(RegionKind::Controller, vec![in alloc; 0x5A, 0xC3]?);
    assert_eq!(rt; region.kind(), RegionKind::Controller);
    assert_eq!(rt; region.len(), 2);
    assert_eq!(rt; region.cells(), [0x5A, 0xC3].as_slice());
    Ok(())
}

#[test]
fn rules_and_kinds_are_told_apart(rt: HostRuntime) {
    let locks = [LockRule::Lock, LockRule::NoLock];
    let kinds = [RegionKind::Memory, RegionKind::Controller];
    for (i, j) in [(0usize, 0usize), (0, 1), (1, 0), (1, 1)] {
        assert_eq!(rt; law_same_lock_rule(locks[i], locks[j]), i == j);
        assert_eq!(rt; law_same_region_kind(kinds[i], kinds[j]), i == j);
    }
    let rules = [
        UpdateRule::Preserve,
        UpdateRule::WriteAsOnes,
        UpdateRule::WriteAsZeros,
    ];
    for (i, one) in rules.iter().enumerate() {
        for (j, other) in rules.iter().enumerate() {
            assert_eq!(rt; law_same_update_rule(*one, *other), i == j);
        }
    }
    let span = Span { first: 1, count: 2 };
    assert!(rt; law_same_span(span, span));
    assert!(rt; !law_same_span(span, Span { first: 1, count: 3 }));
    assert!(rt; !law_same_span(span, Span { first: 2, count: 2 }));
}

#[test]
fn faults_have_names(rt: HostRuntime) -> Result<(), Fail> {
    let alloc = rt.alloc();
    let names = [
        (FieldFault::BadWidth, "BadWidth"),
        (FieldFault::OutsideRegion, "OutsideRegion"),
    ];
    for (fault, name) in names {
        assert_eq!(rt; fault.to_string(alloc)?.as_str(), name);
        for (other, other_name) in names {
            assert_eq!(rt; law_same_fault(fault, other), name == other_name);
        }
    }
    Ok(())
}
