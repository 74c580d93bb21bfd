//! What a machine's events do, touch by touch.
use crate::Touch::{Assert, Claim, Down, Drop, Finish, Raise, Up};
use crate::{EventChip, EventKind, EventWord, Touch};
use acpi_regs::{Event, Fixed, Listed, Memory};
use std::alloc::Global;

const EDGE: Event = Event::Gpe(3);

const LEVEL: Event = Event::Gpe(2);

const CONTROLLERS: Event = Event::Gpe(6);

const GBL: Event = Event::Fixed(Fixed::Gbl);

const POWER: Event = Event::Fixed(Fixed::Pwr);

const SLEEP: Event = Event::Fixed(Fixed::Slp);

const CLOCK: Event = Event::Fixed(Fixed::Rtc);

fn chip(alloc: Global) -> Result<EventChip, Memory> {
    let listed = [
        Listed {
            event: EDGE,
            level: false,
            refs: 1,
        },
        Listed {
            event: LEVEL,
            level: true,
            refs: 1,
        },
        Listed {
            event: POWER,
            level: false,
            refs: 1,
        },
        Listed {
            event: SLEEP,
            level: false,
            refs: 0,
        },
        Listed {
            event: CLOCK,
            level: false,
            refs: 255,
        },
    ];
    EventChip::new(alloc, &listed, Some(CONTROLLERS))
}

/// Makes the call if its condition holds, and returns whether it does.
fn made(chip: &mut EventChip, touch: Touch, event: Event) -> bool {
    let slot = chip.slot(event);
    match touch {
        Raise if !matches!(slot.kind, EventKind::Unknown) => chip.raise(event),
        Assert if slot.kind.is_level() => chip.assert_line(event),
        Drop if slot.kind.is_level() => chip.drop_line(event),
        Claim if chip.pending(event) => chip.claim(event),
        Finish if slot.state.held => chip.finish(event),
        Up if slot.kind.is_listed() => chip.up(event),
        Down if slot.kind.is_listed() => chip.down(event),
        _ => return false,
    }
    true
}

/// Whether each touch could be made, and left the event's status and whether it is pending as the row says.
fn follows(alloc: Global, event: Event, rows: &[(Touch, bool, bool)]) -> bool {
    let Ok(mut chip) = chip(alloc) else {
        return false;
    };
    for (touch, status, pending) in rows {
        let could = made(&mut chip, *touch, event);
        if !could || chip.status(event) != *status || chip.pending(event) != *pending {
            return false;
        }
    }
    true
}

#[test]
fn nothing_has_happened_on_a_new_chip(rt: HostRuntime) {
    let Ok(chip) = chip(rt.alloc()) else {
        assert!(rt; false);
        return;
    };
    for (event, count) in [(EDGE, 1), (LEVEL, 1), (POWER, 1), (SLEEP, 0), (CLOCK, 255)] {
        assert!(rt; !chip.status(event) && !chip.pending(event) && !chip.parked(event));
        assert_eq!(rt; chip.count(event), count);
    }
    assert_eq!(rt; chip.first_pending(), None);
}

#[test]
fn raises_before_one_claim_are_one_run_and_a_raise_during_the_run_is_another(rt: HostRuntime) {
    let rows = [
        (Raise, true, true),
        (Raise, true, true),
        (Claim, false, false),
        (Raise, true, false),
        (Finish, true, true),
        (Claim, false, false),
        (Finish, false, false),
    ];
    assert!(rt; follows(rt.alloc(), EDGE, &rows));
    assert!(rt; follows(rt.alloc(), POWER, &rows));
}

#[test]
fn a_level_event_runs_again_until_its_line_is_dropped(rt: HostRuntime) {
    let rows = [
        (Assert, true, true),
        (Claim, true, false),
        (Finish, true, true),
        (Claim, true, false),
        (Drop, true, false),
        (Finish, false, false),
        // A raise without the line is one run.
        (Raise, true, true),
        (Claim, true, false),
        (Raise, true, false),
        (Finish, false, false),
    ];
    assert!(rt; follows(rt.alloc(), LEVEL, &rows));
}

#[test]
fn an_event_without_references_waits(rt: HostRuntime) {
    let rows = [
        (Raise, true, false),
        (Down, true, false),
        (Up, true, true),
        (Up, true, true),
        (Down, true, true),
        (Down, true, false),
    ];
    assert!(rt; follows(rt.alloc(), SLEEP, &rows));
}

#[test]
fn references_stop_at_255_and_at_0(rt: HostRuntime) {
    let Ok(mut chip) = chip(rt.alloc()) else {
        assert!(rt; false);
        return;
    };
    for (touch, event, count) in [
        (Up, CLOCK, 255),
        (Down, CLOCK, 254),
        (Up, CLOCK, 255),
        (Down, SLEEP, 0),
        (Up, SLEEP, 1),
    ] {
        assert!(rt; made(&mut chip, touch, event));
        assert_eq!(rt; chip.count(event), count);
    }
}

#[test]
fn the_lock_and_the_controller_are_always_enabled_and_never_held(rt: HostRuntime) {
    let rows = [
        (Raise, true, true),
        (Claim, false, false),
        (Raise, true, true),
        (Raise, true, true),
        (Claim, false, false),
    ];
    assert!(rt; follows(rt.alloc(), GBL, &rows));
    assert!(rt; follows(rt.alloc(), CONTROLLERS, &rows));
}

#[test]
fn sixteen_runs_under_an_asserted_line_park_a_level_event(rt: HostRuntime) {
    // A drop frees it while its status stands, and so does an assert.
    for freed_by in [Drop, Assert] {
        let Ok(mut chip) = chip(rt.alloc()) else {
            assert!(rt; false);
            return;
        };
        assert!(rt; made(&mut chip, Assert, LEVEL));
        for _ in 0..16 {
            assert!(rt; !chip.parked(LEVEL) && chip.pending(LEVEL));
            assert!(rt; made(&mut chip, Claim, LEVEL) && made(&mut chip, Finish, LEVEL));
        }
        assert!(rt; chip.parked(LEVEL) && chip.status(LEVEL) && !chip.pending(LEVEL));
        assert_eq!(rt; chip.first_pending(), None);
        assert!(rt; made(&mut chip, freed_by, LEVEL));
        assert!(rt; !chip.parked(LEVEL));
        assert_eq!(rt; chip.first_pending(), Some(LEVEL));
    }
}

#[test]
fn events_are_pending_in_their_order(rt: HostRuntime) {
    let Ok(mut chip) = chip(rt.alloc()) else {
        assert!(rt; false);
        return;
    };
    let order = [GBL, POWER, CLOCK, LEVEL, EDGE, CONTROLLERS];
    for event in order {
        assert!(rt; made(&mut chip, Raise, event));
        assert_eq!(rt; chip.first_pending(), Some(GBL));
    }
    for event in order {
        assert_eq!(rt; chip.first_pending(), Some(event));
        assert!(rt; made(&mut chip, Claim, event));
    }
    assert_eq!(rt; chip.first_pending(), None);
}

/// A chip that lists every event once, with one reference.
fn full_chip(alloc: Global) -> Result<EventChip, Memory> {
    let mut listed = [Listed {
        event: GBL,
        level: false,
        refs: 1,
    }; 261];
    for (rank, item) in listed.iter_mut().enumerate() {
        if rank < 261 {
            item.event = Event::at_rank(rank as u16);
        }
    }
    EventChip::new(alloc, &listed, None)
}

/// Whether the event is the first one that is pending, and a claim and a finish of it could be made.
fn serves(chip: &mut EventChip, event: Event) -> bool {
    chip.first_pending() == Some(event)
        && made(chip, Claim, event)
        && (event == GBL || made(chip, Finish, event))
}

#[test]
fn each_event_is_found_alone_and_before_each_later_one(rt: HostRuntime) {
    let Ok(mut chip) = full_chip(rt.alloc()) else {
        assert!(rt; false);
        return;
    };
    for rank in 0..Event::COUNT {
        let event = Event::at_rank(rank);
        assert!(rt; made(&mut chip, Raise, event) && serves(&mut chip, event));
        for later in rank + 1..Event::COUNT {
            let other = Event::at_rank(later);
            assert!(rt; made(&mut chip, Raise, other) && made(&mut chip, Raise, event));
            assert!(rt; serves(&mut chip, event) && serves(&mut chip, other));
        }
        assert_eq!(rt; chip.first_pending(), None);
    }
}

/// Whether word k shows these bits.
fn shows(chip: &EventChip, k: u8, status: u16, enable: u16) -> bool {
    k < 17 && chip.words(k) == EventWord { status, enable }
}

#[test]
fn words_show_status_and_enable(rt: HostRuntime) {
    let Ok(mut chip) = chip(rt.alloc()) else {
        assert!(rt; false);
        return;
    };
    // The fixed events by their PM1 bits: the Global Lock's, the power button and the clock are enabled.
    assert!(rt; shows(&chip, 0, 0, 0x520));
    assert!(rt; shows(&chip, 1, 0, 0x4C));
    assert!(rt; made(&mut chip, Raise, SLEEP));
    assert!(rt; shows(&chip, 0, 0x200, 0x520));
    // GPE 2 is level: after sixteen runs under its line it is parked.
    assert!(rt; made(&mut chip, Assert, LEVEL));
    for _ in 0..16 {
        assert!(rt; made(&mut chip, Claim, LEVEL) && made(&mut chip, Finish, LEVEL));
    }
    assert!(rt; shows(&chip, 1, 4, 0x48));
    for k in 2..17 {
        assert!(rt; shows(&chip, k, 0, 0));
    }
}

#[test]
fn a_parked_event_alone_in_its_word_has_status_alone(rt: HostRuntime) {
    for gpe in [2, 255] {
        let event = Event::Gpe(gpe);
        let listed = [Listed {
            event,
            level: true,
            refs: 1,
        }];
        let Ok(mut chip) = EventChip::new(rt.alloc(), &listed, None) else {
            assert!(rt; false);
            return;
        };
        assert!(rt; made(&mut chip, Assert, event));
        for _ in 0..16 {
            assert!(rt; made(&mut chip, Claim, event) && made(&mut chip, Finish, event));
        }
        let status = 1u16 << (gpe % 16);
        assert_eq!(rt; chip.words(1 + gpe / 16), EventWord { status, enable: 0 });
    }
}

#[test]
fn touches_whose_condition_fails_are_not_made(rt: HostRuntime) {
    let Ok(mut chip) = chip(rt.alloc()) else {
        assert!(rt; false);
        return;
    };
    for (touch, event) in [
        (Raise, Event::Gpe(4)),
        (Assert, EDGE),
        (Drop, POWER),
        (Claim, EDGE),
        (Finish, EDGE),
        (Up, GBL),
        (Down, CONTROLLERS),
    ] {
        assert!(rt; !made(&mut chip, touch, event));
    }
}
