//! The table and the lock, row by row.
ghost use Rattle.std.specs.Prelude.{◌≡◌, ◌∷◌, []};
ghost use Rattle.lock_table.specs.Bits.{words_of};

use super::seats::{
    back, finds_out, gives_up, is_busy, marks, noted, opened, owns, passed, seated, taken, wins,
};
use acpi_regs::{Actor, Deed, Entry, Event, Fixed, Memory};
use lock_table::{Bits, Recorded};
use std::process::Abort;

const F0: Actor = Actor::Firmware(0);

const W0: Actor = Actor::Worker(0);

const D0: Actor = Actor::Device(0);

#[test]
fn one_seat_at_a_time_has_the_turn(rt: HostRuntime) -> Result<(), Memory> {
    let (table, mut root) = opened(rt.alloc(), &[], 0)?;
    let mut first = seated(&table, &mut root, F0);
    let mut second = seated(&table, &mut root, W0);
    let turn = taken(&rt, &table, &mut first);
    assert!(rt; finds_out(&table, &mut second));
    passed(&table, &mut first, turn);
    let turn = taken(&rt, &table, &mut second);
    passed(&table, &mut second, turn);
    back(&table, &mut root, second, W0);
    back(&table, &mut root, first, F0);
    let (board, words) = table.close(root);
    assert_eq!(rt; board.len(), 0);
    assert_eq!(rt; words.facs, 0);
    assert_eq!(rt; words.pins.fixed, 0);
    assert_eq!(rt; words.pins.gpe, [0, 0, 0, 0]);
    Ok(())
}

#[test]
fn an_attempt_takes_a_free_word_and_marks_an_owned_one(rt: HostRuntime) -> Result<(), Memory> {
    let gbl = Event::Fixed(Fixed::Gbl);
    let (table, mut root) = opened(rt.alloc(), &[], 8)?;
    let mut int = seated(&table, &mut root, Actor::Int);
    let mut f0 = seated(&table, &mut root, F0);
    let mut w0 = seated(&table, &mut root, W0);
    noted(&rt, &table, &mut f0, F0, Deed::Seek);
    noted(&rt, &table, &mut w0, W0, Deed::Seek);
    wins(&rt, &table, &mut f0);
    marks(&rt, &table, &mut w0, 2);
    noted(&rt, &table, &mut w0, W0, Deed::Busy);
    noted(&rt, &table, &mut f0, F0, Deed::Raise(gbl));
    noted(&rt, &table, &mut int, Actor::Int, Deed::Claim(gbl));
    noted(&rt, &table, &mut w0, W0, Deed::Woken);
    marks(&rt, &table, &mut w0, 3);
    back(&table, &mut root, w0, W0);
    back(&table, &mut root, f0, F0);
    back(&table, &mut root, int, Actor::Int);
    let (board, words) = table.close(root);
    assert_eq!(rt; board.len(), 6);
    assert_eq!(rt; words.facs, 3);
    Ok(())
}

#[test]
fn a_lock_is_acquired_found_busy_and_given_up(rt: HostRuntime) -> Result<(), Memory> {
    let (table, mut root) = opened(rt.alloc(), &[], 8)?;
    let mut f0 = seated(&table, &mut root, F0);
    let mut w0 = seated(&table, &mut root, W0);
    noted(&rt, &table, &mut f0, F0, Deed::Seek);
    owns(&rt, &table, &mut f0);
    noted(&rt, &table, &mut w0, W0, Deed::Seek);
    is_busy(&rt, &table, &mut w0, 2);
    noted(&rt, &table, &mut f0, F0, Deed::Own);
    noted(&rt, &table, &mut f0, F0, Deed::Disown);
    assert!(rt; gives_up(&table, &mut f0));
    Ok(())
}

#[test]
fn a_pulse_sets_its_pin_once_and_a_collect_takes_it(rt: HostRuntime) -> Result<(), Memory> {
    let g03 = Event::Gpe(3);
    let (table, mut root) = opened(rt.alloc(), &[g03, g03], 1)?;
    let mut int = seated(&table, &mut root, Actor::Int);
    let mut d0 = seated(&table, &mut root, D0);
    assert!(rt; table.pulse(&mut d0, g03));
    assert!(rt; !table.pulse(&mut d0, g03));
    let mut turn = taken(&rt, &table, &mut int);
    let bits = table.collect(&mut int, &mut turn);
    assert_one_gpe(&rt, &bits);
    let latch = Entry {
        actor: Actor::Int,
        deed: Deed::Latch(g03),
    };
    assert!(rt; turn.board().note(latch));
    table.leave(&mut int, turn);
    back(&table, &mut root, d0, D0);
    back(&table, &mut root, int, Actor::Int);
    let (board, words) = table.close(root);
    assert_eq!(rt; board.len(), 1);
    assert_eq!(rt; words.pins.fixed, 0);
    assert_eq!(rt; words.pins.gpe, [0, 0, 0, 0]);
    Ok(())
}

/// The pin of GPE 3, and no other.
fn assert_one_gpe<R: Abort>(rt: &R, bits: &Bits)
    ensures { words_of bits.now ≡ 0 ∷ 8 ∷ 0 ∷ 0 ∷ 0 ∷ [] }
{
    let [first, second, third, fourth] = bits.gpe;
    assert!(rt; bits.fixed == 0);
    assert!(rt; first == 8 && second == 0 && third == 0 && fourth == 0);
}
