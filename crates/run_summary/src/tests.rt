//! The lines of a summary, and the counts of a history that is made by hand.
use crate::{SummaryText, count_entries};
use acpi_regs::{Actor, Cell, Deed, Effect, Entry, Event, HostMove, Request};
use machine_core::Board;
use machine_maker::make;
use std::test::Fail;

fn put_bytes(text: &mut SummaryText, bytes: &[u8]) -> Result<(), Fail> {
    for byte in bytes {
        if text.as_slice().len() > 150 {
            return Err(Fail::new("too long a text"));
        }
        text.push_spaced(*byte);
    }
    Ok(())
}

#[test]
fn lines_of_a_summary(rt: HostRuntime) -> Result<(), Fail> {
    let mut text = SummaryText::new();
    text.push_weight(0, 1, 1_782);
    text.push_counts(34, 30, 29);
    put_bytes(&mut text, &[0x02, 0x9A, 0xBC, 0xDE, 0xF0])?;
    let expected = b"make 0 1 weight 1782\nadds 34 runs 30 notifies 29\n 02 9A BC DE F0";
    assert!(rt; text.as_slice() == expected.as_slice());
    Ok(())
}

/// Makes entries, where each is allowed.
fn play(board: &mut Board, entries: &[(Actor, Deed)]) -> Result<(), Fail> {
    for (actor, deed) in entries {
        let entry = Entry {
            actor: *actor,
            deed: *deed,
        };
        if !board.can(&entry) {
            return Err(Fail::new("an entry is not allowed"));
        }
        board.apply(entry);
    }
    Ok(())
}

/// An addition of 1 to a cell that has this byte.
fn add(board: &mut Board, actor: Actor, offset: u16, byte: u8) -> Result<(), Fail> {
    let cell = Cell { region: 0, offset };
    let entries = [
        (actor, Deed::Seek),
        (actor, Deed::Own),
        (actor, Deed::Read(cell, byte)),
        (actor, Deed::Write(cell, byte.wrapping_add(1))),
        (actor, Deed::Disown),
        (actor, Deed::Leave(false)),
    ];
    play(board, entries.as_slice())
}

/// A push of code 05 by the first firmware, and the query of a worker that brings it.
fn push_and_query(board: &mut Board, worker: Actor) -> Result<(), Fail> {
    let entries = [
        (Actor::Firmware(0), Deed::Push(5)),
        (Actor::Poll, Deed::Claim(Event::Gpe(0x6E))),
        (worker, Deed::Start(0)),
        (worker, Deed::Seek),
        (worker, Deed::Own),
        (worker, Deed::Begin(Request::Qr)),
        (Actor::Poll, Deed::Step(HostMove::Sc(0x84))),
        (Actor::Ec, Deed::Ctl(Effect::Out(5))),
        (Actor::Poll, Deed::Step(HostMove::Get(5))),
        (worker, Deed::Take(Some(5))),
        (worker, Deed::Disown),
        (worker, Deed::Leave(false)),
        (worker, Deed::Finish(0)),
    ];
    play(board, entries.as_slice())
}

/// The run of code 05, whose handler adds to field 5 and notifies.
fn run_code(board: &mut Board, worker: Actor) -> Result<(), Fail> {
    play(board, [(worker, Deed::Start(1))].as_slice())?;
    add(board, worker, 5, 1)?;
    play(
        board,
        [(worker, Deed::Notify(5, 128)), (worker, Deed::Finish(1))].as_slice(),
    )
}

#[test]
fn counts_of_a_history_made_by_hand(rt: HostRuntime) -> Result<(), Fail> {
    let alloc = rt.alloc();
    let machine = make(alloc, 0, 1)?;
    let mut board = Board::new(alloc, machine)?;
    // The first script adds to the fields 0, 5, 10 and 15, and pushes code 05.
    for offset in [0, 5, 10, 15] {
        add(&mut board, Actor::Firmware(0), offset, 0)?;
    }
    push_and_query(&mut board, Actor::Worker(2))?;
    run_code(&mut board, Actor::Worker(2))?;
    // The worker's addition is none of firmware's, and a query starts no run of a code.
    let tally = count_entries(&board);
    assert!(rt; (tally.adds, tally.codes, tally.notifies) == (4, 1, 1));
    Ok(())
}
