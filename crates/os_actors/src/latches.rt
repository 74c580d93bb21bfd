//! Latches of the events that a turn has collected.
ghost use Rattle.std.specs.Prelude.{◌≡◌, ◌<◌, ◌++◌, ◌∷◌, [], map, not, true};
ghost use Rattle.acpi_regs.specs.Core.{event_at, events_of, no_event};
ghost use Rattle.machine_history.specs.Legal.{is_host};
ghost use Rattle.machine_history.specs.Steps.{is_empty, latch};
ghost use Rattle.world.specs.Duties.{AreLatchable, pinned};
ghost use Rattle.machine_history.specs.Events.{latches};
ghost use Rattle.machine_history.specs.Machine.{pulses_of};
ghost use Rattle.std.specs.Prelude.{reverse};
ghost use Rattle.acpi_regs.specs.Event.{event_rank};

use acpi_regs::{Actor, Deed, Entry, Event, Fixed};
use lock_table::Bits;
use machine_core::Board;

/// Latches each event of these pins, in order. Whether there was one.
pub fn latch_all(board: &mut Board, actor: Actor, bits: Bits) -> bool
    requires host { is_host actor ≡ true }
    requires latchable { AreLatchable board.old.machine board.old.entries (pinned bits) }
    ensures board { board.new ≡ record board.old
        { entries = board.old.entries ++ map (latch actor) (events_of (pinned bits)) } }
    ensures answer { result ≡ not (is_empty (events_of (pinned bits))) }
{
    if is_clear(&bits) {
        return false;
    }
    let mut latched = false;
    for place in 0..261 {
        let event = event_at(place);
        if bits.has(event) {
            add_latch(board, actor, event);
            latched = true;
        }
    }
    latched
}

/// Whether no bit is set at all.
fn is_clear(bits: &Bits) -> bool
    ensures { result ≡ true → pinned bits.now ≡ no_event }
{
    bits.fixed == 0 && bits.gpe[0] == 0 && bits.gpe[1] == 0 && bits.gpe[2] == 0 && bits.gpe[3] == 0
}

fn add_latch(board: &mut Board, actor: Actor, event: Event)
    requires host { is_host actor ≡ true }
    requires pulsed { latches (reverse board.old.entries) event < pulses_of board.old.machine event }
    ensures { board.new ≡ record board.old { entries = board.old.entries ++ latch actor event ∷ [] } }
{
    board.law_legal();
    board.apply(Entry {
        actor,
        deed: Deed::Latch(event),
    });
}

/// The event at a place in the order in which events are served.
fn event_at(place: u16) -> Event
    requires { place < 261 }
    ensures is { result ≡ event_at place }
    ensures place { event_rank result ≡ place }
{
    match place {
        0 => Event::Fixed(Fixed::Tmr),
        1 => Event::Fixed(Fixed::Gbl),
        2 => Event::Fixed(Fixed::Pwr),
        3 => Event::Fixed(Fixed::Slp),
        4 => Event::Fixed(Fixed::Rtc),
        _ => Event::Gpe((place - 5) as u8),
    }
}
