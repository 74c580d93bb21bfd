//! The line of every kind of entry.
use crate::{Line, LineText, line_of_rest, line_of_stuck, write_line};
use acpi_regs::{Actor, Cell, Deed, Effect, Entry, Event, Fixed, HostMove, Request};
use std::test::Fail;

fn text(line: &LineText) -> Result<&str, Fail> {
    let (front, _) = line.bytes.split_at(usize::from(line.len).min(48));
    str::from_utf8(front).map_err(|_| Fail::new("a line is no text"))
}

fn line_text(line: &Line) -> Result<&str, Fail> {
    str::from_utf8(line.as_slice()).map_err(|_| Fail::new("a line is no text"))
}

/// Whether the entry of this deed, by the second firmware, has this line.
fn is_line(deed: Deed, expected: &str) -> Result<bool, Fail> {
    let entry = Entry {
        actor: Actor::Firmware(1),
        deed,
    };
    Ok(text(&write_line(&entry))? == expected)
}

#[test]
fn each_deed_has_its_words(rt: HostRuntime) -> Result<(), Fail> {
    let cell = Cell {
        region: 10,
        offset: 0x1C2,
    };
    let button = Event::Fixed(Fixed::Pwr);
    let lines = [
        (Deed::Seek, "f1 seek\n"),
        (Deed::Busy, "f1 busy\n"),
        (Deed::Woken, "f1 woken\n"),
        (Deed::Own, "f1 own\n"),
        (Deed::Disown, "f1 disown\n"),
        (Deed::Leave(false), "f1 leave 0\n"),
        (Deed::Leave(true), "f1 leave 1\n"),
        (Deed::Read(cell, 0), "f1 read 0A:01C2 00\n"),
        (Deed::Write(cell, 0xB5), "f1 write 0A:01C2 B5\n"),
        (Deed::Begin(Request::Rd(0xFF)), "f1 begin rd FF\n"),
        (Deed::Begin(Request::Wr(1, 0x2A)), "f1 begin wr 01 2A\n"),
        (Deed::Begin(Request::Be), "f1 begin be\n"),
        (Deed::Begin(Request::Bd), "f1 begin bd\n"),
        (Deed::Begin(Request::Qr), "f1 begin qr\n"),
        (Deed::Step(HostMove::Sc(0x80)), "f1 step sc 80\n"),
        (Deed::Step(HostMove::Data(0x0F)), "f1 step data 0F\n"),
        (Deed::Step(HostMove::Get(0x90)), "f1 step get 90\n"),
        (Deed::Ctl(Effect::Taken), "f1 ctl taken\n"),
        (Deed::Ctl(Effect::Out(0x5A)), "f1 ctl out 5A\n"),
        (Deed::Ctl(Effect::Put), "f1 ctl put\n"),
        (Deed::Ctl(Effect::Calm), "f1 ctl calm\n"),
        (Deed::Take(None), "f1 take -\n"),
        (Deed::Take(Some(0x2A)), "f1 take 2A\n"),
        (Deed::Push(0xFF), "f1 push FF\n"),
        (Deed::Raise(button), "f1 raise pwr\n"),
        (Deed::Latch(Event::Gpe(0xC3)), "f1 latch gC3\n"),
        (Deed::Assert(Event::Gpe(2)), "f1 assert g02\n"),
        (Deed::Drop(Event::Gpe(2)), "f1 drop g02\n"),
        (Deed::Claim(Event::Fixed(Fixed::Gbl)), "f1 claim gbl\n"),
        (Deed::Start(0), "f1 start 0\n"),
        (Deed::Finish(4_294_967_295), "f1 finish 4294967295\n"),
        (Deed::Notify(1, 0x80), "f1 notify 01 80\n"),
        (Deed::Up(Event::Fixed(Fixed::Rtc)), "f1 up rtc\n"),
        (Deed::Down(Event::Fixed(Fixed::Slp)), "f1 down slp\n"),
        (Deed::Claim(Event::Fixed(Fixed::Tmr)), "f1 claim tmr\n"),
    ];
    for (deed, line) in lines {
        assert!(rt; is_line(deed, line)?);
    }
    Ok(())
}

#[test]
fn each_actor_has_its_name(rt: HostRuntime) -> Result<(), Fail> {
    let names = [
        (Actor::Int, "int own\n"),
        (Actor::Poll, "poll own\n"),
        (Actor::Worker(3), "w3 own\n"),
        (Actor::Ec, "ec own\n"),
        (Actor::Device(7), "d7 own\n"),
        (Actor::Firmware(0), "f0 own\n"),
    ];
    for (actor, line) in names {
        let entry = Entry {
            actor,
            deed: Deed::Own,
        };
        let written = crate::line_of_entry(&entry);
        assert_eq!(rt; line_text(&written)?, line);
    }
    assert_eq!(rt; line_text(&line_of_stuck(Event::Gpe(0x6E)))?, "stuck g6E\n");
    assert_eq!(rt; line_text(&line_of_rest(49))?, "rest 49\n");
    Ok(())
}
