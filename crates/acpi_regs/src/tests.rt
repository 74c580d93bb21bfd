//! Values of ACPI 6.5, section 4.8.3.1, and the order in which events and actors are served.
use crate::{
    Actor, BadGeometry, Deed, EcStatus, Event, Fixed, GeometryField, GpeGeometry, GpePlace,
    LockPhase, Memory, MethodName, NotAName, Pm1Bits, Side,
};
use bitflags::Flags;
use std::alloc::AllocError;

#[test]
fn fixed_events_have_the_bits_of_pm1_status(rt: HostRuntime) {
    let bits = [
        (Fixed::Tmr, 0),
        (Fixed::Gbl, 5),
        (Fixed::Pwr, 8),
        (Fixed::Slp, 9),
        (Fixed::Rtc, 10),
    ];
    for (event, bit) in bits {
        assert_eq!(rt; event.bit(), bit);
    }
}

#[test]
fn fixed_events_come_before_gpes_and_actors_in_their_order(rt: HostRuntime) {
    let events = [
        (Event::Fixed(Fixed::Tmr), Event::Fixed(Fixed::Gbl)),
        (Event::Fixed(Fixed::Gbl), Event::Fixed(Fixed::Pwr)),
        (Event::Fixed(Fixed::Pwr), Event::Fixed(Fixed::Slp)),
        (Event::Fixed(Fixed::Slp), Event::Fixed(Fixed::Rtc)),
        (Event::Fixed(Fixed::Rtc), Event::Gpe(0)),
        (Event::Gpe(3), Event::Gpe(4)),
    ];
    for (first, second) in events {
        assert!(rt; first < second);
    }
    let actors = [
        (Actor::Int, Actor::Poll),
        (Actor::Poll, Actor::Worker(0)),
        (Actor::Worker(3), Actor::Ec),
        (Actor::Ec, Actor::Device(0)),
        (Actor::Device(6), Actor::Device(7)),
        (Actor::Device(7), Actor::Firmware(0)),
    ];
    for (first, second) in actors {
        assert!(rt; first < second);
    }
}

#[test]
fn actors_stand_on_their_sides(rt: HostRuntime) {
    let sides = [
        (Actor::Int, Some(Side::Os)),
        (Actor::Poll, Some(Side::Os)),
        (Actor::Worker(3), Some(Side::Os)),
        (Actor::Ec, None),
        (Actor::Device(0), None),
        (Actor::Firmware(0), Some(Side::Firmware)),
    ];
    for (actor, side) in sides {
        assert_eq!(rt; actor.side(), side);
    }
}

#[test]
fn an_allocation_error_is_want_of_memory(rt: HostRuntime) {
    assert_eq!(rt; Memory::from(AllocError), Memory);
}

#[test]
fn flags_stand_at_the_bits_of_their_registers(rt: HostRuntime) {
    let fixed = [Fixed::Tmr, Fixed::Gbl, Fixed::Pwr, Fixed::Slp, Fixed::Rtc];
    for (event, bits) in fixed
        .into_iter()
        .zip([0x0001, 0x0020, 0x0100, 0x0200, 0x0400])
    {
        assert_eq!(rt; event.flag().bits(), bits);
    }
    assert_eq!(rt; Pm1Bits::WAK.bits(), 0x8000);
    let status = [
        (EcStatus::OBF, 0x01),
        (EcStatus::IBF, 0x02),
        (EcStatus::CMD, 0x08),
        (EcStatus::BURST, 0x10),
        (EcStatus::SCI_EVT, 0x20),
    ];
    for (flag, bits) in status {
        assert_eq!(rt; flag.bits(), bits);
        assert_eq!(rt; EcStatus::from_bits(bits), Some(flag));
    }
}

#[test]
fn methods_are_named_by_a_letter_and_two_upper_case_digits(rt: HostRuntime) {
    let names: [(&[u8], MethodName); 6] = [
        (b"_L1A", MethodName::Level(26)),
        (b"_L00", MethodName::Level(0)),
        (b"_E9F", MethodName::Edge(159)),
        (b"_EFF", MethodName::Edge(255)),
        (b"_Q01", MethodName::Query(1)),
        (b"_QA0", MethodName::Query(160)),
    ];
    for (text, name) in names {
        assert_eq!(rt; MethodName::parse(text), Ok(name));
        assert_eq!(rt; name.spell().as_slice(), text);
    }
    let others: [&[u8]; 9] = [
        b"_l1a", b"_Q00", b"_L1a", b"L1A0", b"_L1", b"_L1A0", b"", b"_W10", b"_E1G",
    ];
    for text in others {
        assert_eq!(rt; MethodName::parse(text), Err(NotAName));
    }
}

#[test]
fn blocks_of_gpes_are_refused_by_their_first_wrong_number(rt: HostRuntime) {
    let wrong = [
        ((3, 0, 0), GeometryField::Gpe0),
        ((66, 0, 3), GeometryField::Gpe0),
        ((64, 0, 1), GeometryField::Gpe1),
        ((32, 0, 66), GeometryField::Gpe1),
        ((32, 127, 2), GeometryField::Base1),
        ((32, 128, 34), GeometryField::Base1),
        ((0, 255, 2), GeometryField::Base1),
    ];
    for ((gpe0, base1, gpe1), field) in wrong {
        match GpeGeometry::new(gpe0, base1, gpe1) {
            Err(bad) => assert_eq!(rt; bad, BadGeometry { field }),
            Ok(_) => assert!(rt; false),
        }
    }
}

/// Whether the GPE has this place: block, byte and bit.
fn is_at(geometry: &GpeGeometry, event: u8, place: Option<(u8, u8, u8)>) -> bool {
    geometry.place_of(event) == place.map(|(block, byte, bit)| GpePlace { block, byte, bit })
}

#[test]
fn gpes_stand_in_the_status_bytes_of_their_blocks(rt: HostRuntime) {
    // The two lengths and the base, the end, and events with their places: block, byte and bit.
    let blocks: [((u16, u16, u16), u16, [(u8, Option<(u8, u8, u8)>); 4]); 4] = [
        (
            (32, 128, 32),
            256,
            [
                (0, Some((0, 0, 0))),
                (127, Some((0, 15, 7))),
                (129, Some((1, 0, 1))),
                (255, Some((1, 15, 7))),
            ],
        ),
        (
            (2, 0, 0),
            8,
            [
                (0, Some((0, 0, 0))),
                (7, Some((0, 0, 7))),
                (8, None),
                (255, None),
            ],
        ),
        (
            (2, 20, 4),
            36,
            [
                (7, Some((0, 0, 7))),
                (19, None),
                (20, Some((1, 0, 0))),
                (35, Some((1, 1, 7))),
            ],
        ),
        ((0, 9, 0), 0, [(0, None), (8, None), (9, None), (255, None)]),
    ];
    for ((gpe0, base1, gpe1), end, places) in blocks {
        let Ok(geometry) = GpeGeometry::new(gpe0, base1, gpe1) else {
            assert!(rt; false);
            return;
        };
        assert_eq!(rt; geometry.end(), end);
        for (event, place) in places {
            assert!(rt; is_at(&geometry, event, place));
        }
    }
}

#[test]
fn each_entry_of_the_lock_leads_to_the_next_phase(rt: HostRuntime) {
    let episode = [
        (LockPhase::Idle, Deed::Seek, LockPhase::Seeking(None)),
        (LockPhase::Marked, Deed::Busy, LockPhase::Waiting),
        (LockPhase::Waiting, Deed::Woken, LockPhase::Seeking(None)),
        (LockPhase::Won, Deed::Own, LockPhase::Owning),
        (LockPhase::Owning, Deed::Disown, LockPhase::Quit),
        (LockPhase::Gone(true), Deed::Leave(true), LockPhase::Idle),
    ];
    for (before, deed, after) in episode {
        assert!(rt; before.allows(deed));
        assert_eq!(rt; before.lock_deed(), Some(deed));
        assert_eq!(rt; before.moved(deed), after);
        assert_eq!(rt; after.is_idle(), after == LockPhase::Idle);
    }
    assert!(rt; !LockPhase::Gone(false).allows(Deed::Leave(true)));
    assert!(rt; !LockPhase::Owning.allows(Deed::Seek));
    assert_eq!(rt; LockPhase::Quit.lock_deed(), None);
    assert_eq!(rt; LockPhase::Owning.moved(Deed::Start(0)), LockPhase::Owning);
}
