ghost use Rattle.std.specs.Prelude.{◌≡◌, ◌↔◌, ◌≤◌, IsTrue, slice_get};
ghost use Rattle.history_text.specs.Text.{stuck};
ghost use Rattle.run_checker.specs.Ends.{Tells, number_of};

use acpi_regs::Event;
use acpi_regs::laws::law_equality;
use history_text::{EVENTS, event_at};
use machine_core::Board;

/// How the stuck lines of a log stand to the events that are parked at its end.
#[derive(Clone, Copy, Debug)]
pub enum Ending {
    /// They are those, so many.
    Right(u32),
    /// So many are those, and more are parked.
    Missing(u32),
    /// The line at this place, counted from 0, is the first that is another.
    Other(u32),
}

/// Compares stuck lines with the events that are parked, in the order in which events are served.
pub fn compare(board: &Board, told: &[Event]) -> Ending
    ensures tells { Tells told.now (stuck board.now.machine board.now.entries) result }
    ensures small { number_of result ≤ 261 }
{
    let mut count: u16 = 0;
    for place in 0..EVENTS {
        let event = event_at(place);
        if board.parked(event) {
            match told_at(told, count) {
                Some(next) => {
                    if !same(next, event) {
                        return Ending::Other(u32::from(count));
                    }
                }
                None => return Ending::Missing(u32::from(count)),
            }
            count += 1;
        }
    }
    if usize::from(count) < told.len() {
        Ending::Other(u32::from(count))
    } else {
        Ending::Right(u32::from(count))
    }
}

/// The event of the stuck line at a place.
fn told_at(told: &[Event], place: u16) -> Option<Event>
    ensures { result ≡ slice_get told.now place }
{
    told.get(usize::from(place)).copied()
}

fn same(one: Event, other: Event) -> bool
    ensures { IsTrue result ↔ (one ≡ other) }
{
    law_equality();
    one == other
}
