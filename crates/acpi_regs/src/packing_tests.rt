//! Entries as words, and words that are no entry; events by their places.
use crate::{Actor, Cell, Deed, Effect, Entry, Event, Fixed, HostMove, Request};

/// The word of an entry whose actor is in range.
fn packed(actor: Actor, deed: Deed) -> Option<u64> {
    let entry = Entry { actor, deed };
    match actor {
        Actor::Worker(number) if number >= 4 => None,
        Actor::Device(number) if number >= 8 => None,
        Actor::Firmware(number) if number >= 8 => None,
        _ => Some(entry.pack()),
    }
}

const LOW: Cell = Cell {
    region: 0,
    offset: 0,
};

const HIGH: Cell = Cell {
    region: 255,
    offset: 65535,
};

const FIRST: Event = Event::Gpe(0);

const LAST: Event = Event::Fixed(Fixed::Rtc);

/// Whether the word of a deed has this place of the enum and this payload, and is read as that deed; and whether the
/// other payload is that of no deed of that place.
fn is_word_of(deed: Deed, place: u64, payload: u64, refused: u64) -> bool {
    let actor = Actor::Poll;
    let word: u64 = 1 | (place << 8) | (payload << 16);
    let neighbour: u64 = 1 | (place << 8) | (refused << 16);
    packed(actor, deed) == Some(word)
        && Entry::unpack(word) == Some(Entry { actor, deed })
        && Entry::unpack(neighbour).is_none()
}

#[test]
fn deeds_of_the_lock_and_of_cells_have_their_words(rt: HostRuntime) {
    // The deed; its place in the enum; its payload; a payload that no deed of that place has.
    let rows = [
        (Deed::Seek, 0, 0, 1),
        (Deed::Busy, 1, 0, 1),
        (Deed::Woken, 2, 0, 1),
        (Deed::Own, 3, 0, 1),
        (Deed::Disown, 4, 0, 1),
        (Deed::Leave(false), 5, 0, 2),
        (Deed::Leave(true), 5, 1, 2),
        (Deed::Read(LOW, 0), 6, 0, 0x1_0000_0000),
        (Deed::Read(HIGH, 255), 6, 0xFFFF_FFFF, 0x1_0000_0000),
        (Deed::Write(LOW, 0), 7, 0, 0x1_0000_0000),
        (Deed::Write(HIGH, 255), 7, 0xFFFF_FFFF, 0x1_0000_0000),
    ];
    for (deed, place, payload, refused) in rows {
        assert!(rt; is_word_of(deed, place, payload, refused));
    }
}

#[test]
fn deeds_of_the_controller_have_their_words(rt: HostRuntime) {
    let rows = [
        (Deed::Begin(Request::Rd(0)), 8, 0, 0x1_0000),
        (Deed::Begin(Request::Rd(255)), 8, 0xFF00, 0x1_FF00),
        (Deed::Begin(Request::Wr(0, 0)), 8, 1, 0x100_0001),
        (Deed::Begin(Request::Wr(255, 255)), 8, 0xFF_FF01, 0x100_0001),
        (Deed::Begin(Request::Be), 8, 2, 0x102),
        (Deed::Begin(Request::Bd), 8, 3, 0x103),
        (Deed::Begin(Request::Qr), 8, 4, 5),
        (Deed::Step(HostMove::Sc(0)), 9, 0, 0x1_0000),
        (Deed::Step(HostMove::Sc(255)), 9, 0xFF00, 0x1_0000),
        (Deed::Step(HostMove::Data(0)), 9, 1, 0x1_0001),
        (Deed::Step(HostMove::Data(255)), 9, 0xFF01, 0x1_0001),
        (Deed::Step(HostMove::Get(0)), 9, 2, 3),
        (Deed::Step(HostMove::Get(255)), 9, 0xFF02, 0x1_0002),
        (Deed::Ctl(Effect::Taken), 10, 0, 0x100),
        (Deed::Ctl(Effect::Out(0)), 10, 1, 0x1_0001),
        (Deed::Ctl(Effect::Out(255)), 10, 0xFF01, 0x1_0001),
        (Deed::Ctl(Effect::Put), 10, 2, 0x102),
        (Deed::Ctl(Effect::Calm), 10, 3, 4),
        (Deed::Take(None), 11, 0, 0x100),
        (Deed::Take(Some(0)), 11, 1, 2),
        (Deed::Take(Some(255)), 11, 0xFF01, 0x1_0001),
        (Deed::Push(0), 12, 0, 256),
        (Deed::Push(255), 12, 255, 256),
    ];
    for (deed, place, payload, refused) in rows {
        assert!(rt; is_word_of(deed, place, payload, refused));
    }
}

#[test]
fn deeds_of_events_and_jobs_have_their_words(rt: HostRuntime) {
    let rows = [
        (Deed::Raise(FIRST), 13, 0, 261),
        (Deed::Raise(LAST), 13, 260, 261),
        (Deed::Latch(FIRST), 14, 0, 261),
        (Deed::Latch(LAST), 14, 260, 261),
        (Deed::Assert(FIRST), 15, 0, 261),
        (Deed::Assert(LAST), 15, 260, 261),
        (Deed::Drop(FIRST), 16, 0, 261),
        (Deed::Drop(LAST), 16, 260, 261),
        (Deed::Claim(FIRST), 17, 0, 261),
        (Deed::Claim(LAST), 17, 260, 261),
        (Deed::Start(0), 18, 0, 0x1_0000_0000),
        (Deed::Start(u32::MAX), 18, 0xFFFF_FFFF, 0x1_0000_0000),
        (Deed::Finish(0), 19, 0, 0x1_0000_0000),
        (Deed::Finish(u32::MAX), 19, 0xFFFF_FFFF, 0x1_0000_0000),
        (Deed::Notify(0, 0), 20, 0, 0x1_0000),
        (Deed::Notify(255, 255), 20, 0xFFFF, 0x1_0000),
        (Deed::Up(FIRST), 21, 0, 261),
        (Deed::Up(LAST), 21, 260, 261),
        (Deed::Down(FIRST), 22, 0, 261),
        (Deed::Down(LAST), 22, 260, 261),
    ];
    for (deed, place, payload, refused) in rows {
        assert!(rt; is_word_of(deed, place, payload, refused));
    }
}

#[test]
fn each_actor_has_its_code_and_entries_have_their_words(rt: HostRuntime) {
    let write = Deed::Write(LOW, 0x5A);
    let gbl = Deed::Claim(Event::Fixed(Fixed::Gbl));
    let rows = [
        (Actor::Firmware(0), write, 0x5A00_0000_070F),
        (Actor::Worker(0), Deed::Finish(0), 0x1302),
        (Actor::Int, gbl, 0x101_1100),
        (Actor::Int, Deed::Seek, 0),
        (Actor::Poll, Deed::Seek, 1),
        (Actor::Worker(0), Deed::Seek, 2),
        (Actor::Worker(3), Deed::Seek, 5),
        (Actor::Ec, Deed::Seek, 6),
        (Actor::Device(0), Deed::Seek, 7),
        (Actor::Device(7), Deed::Seek, 14),
        (Actor::Firmware(0), Deed::Seek, 15),
        (Actor::Firmware(7), Deed::Seek, 22),
    ];
    for (actor, deed, word) in rows {
        assert_eq!(rt; packed(actor, deed), Some(word));
        assert_eq!(rt; Entry::unpack(word), Some(Entry { actor, deed }));
    }
    // Actor 23, deed 23, and a bit above the payload.
    for word in [23, 0x1700, 0xFF00, 1 << 48, 1 << 63] {
        assert_eq!(rt; Entry::unpack(word), None);
    }
}

#[test]
fn events_have_their_places(rt: HostRuntime) {
    // The event; its place in the order; its bit in the registers.
    let rows = [
        (Event::Fixed(Fixed::Tmr), 0, 0),
        (Event::Fixed(Fixed::Gbl), 1, 5),
        (Event::Fixed(Fixed::Pwr), 2, 8),
        (Event::Fixed(Fixed::Slp), 3, 9),
        (LAST, 4, 10),
        (FIRST, 5, 16),
        (Event::Gpe(16), 21, 32),
        (Event::Gpe(255), 260, 271),
    ];
    for (event, rank, place) in rows {
        assert_eq!(rt; event.rank(), rank);
        assert_eq!(rt; event.register_place(), place);
    }
    for rank in 0..Event::COUNT {
        assert_eq!(rt; Event::at_rank(rank).rank(), rank);
    }
}
