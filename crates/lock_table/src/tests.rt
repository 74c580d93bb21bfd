//! Where the events of PM1 and of the GPE blocks stand in the shared words.
use crate::{Attempt, Bits, Words};
use acpi_regs::{Event, Fixed};

#[test]
fn fixed_events_stand_at_their_pm1_bits_and_gpes_by_64(rt: HostRuntime) {
    let rows = [
        (Event::Fixed(Fixed::Tmr), 0x0001, [0, 0, 0, 0]),
        (Event::Fixed(Fixed::Gbl), 0x0020, [0, 0, 0, 0]),
        (Event::Fixed(Fixed::Pwr), 0x0100, [0, 0, 0, 0]),
        (Event::Fixed(Fixed::Slp), 0x0200, [0, 0, 0, 0]),
        (Event::Fixed(Fixed::Rtc), 0x0400, [0, 0, 0, 0]),
        (Event::Gpe(0), 0, [1, 0, 0, 0]),
        (Event::Gpe(63), 0, [0x8000_0000_0000_0000, 0, 0, 0]),
        (Event::Gpe(64), 0, [0, 1, 0, 0]),
        (Event::Gpe(130), 0, [0, 0, 4, 0]),
        (Event::Gpe(255), 0, [0, 0, 0, 0x8000_0000_0000_0000]),
    ];
    for (event, fixed, gpe) in rows {
        let mut bits = Bits::new();
        assert!(rt; !bits.has(event));
        bits.put(event);
        assert!(rt; bits.has(event));
        assert_eq!(rt; bits.fixed, fixed);
        assert_eq!(rt; bits.gpe, gpe);
    }
}

#[test]
fn an_attempt_tells_the_words_that_it_saw(rt: HostRuntime) {
    let words = Words {
        facs: 3,
        pins: Bits::new(),
    };
    assert_eq!(rt;
        Attempt::Marked { found: words.facs },
        Attempt::Marked { found: 3 }
    );
    assert!(rt; Attempt::Marked { found: 2 } != Attempt::Marked { found: 3 });
    assert!(rt;
        Attempt::Moved {
            loaded: 0,
            found: 2
        } != Attempt::Moved {
            loaded: 2,
            found: 0
        }
    );
    assert!(rt; Attempt::Won != Attempt::Marked { found: 2 });
}
