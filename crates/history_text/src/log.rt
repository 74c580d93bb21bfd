ghost use Rattle.std.specs.Prelude.{◌≡◌, ◌<◌, ◌≤◌, ◌++◌, reverse, OnErr, OnOk};
ghost use Rattle.acpi_io.specs.Faults.{RoseByOne};
ghost use Rattle.acpi_regs.specs.Core.{event_at, if_in};
ghost use Rattle.machine_history.specs.Events.{parked};
ghost use Rattle.acpi_io.specs.Sink.{WritesAll};
ghost use Rattle.history_text.specs.Text.{entry_lines, log_text, machine_line, stuck, stuck_lines};
ghost use Rattle.history_text.specs.Written.{GoesOn};

use crate::line::{line_of_entry, line_of_rest, line_of_stuck};
use crate::pieces::Pieces;
use acpi_io::{Sink, WriteFault};
use acpi_regs::{Event, Fixed};
use machine_core::Board;

/// Writes the log of a board: the line of the machine, around the text that is given for it; then a line for each
/// entry, one for each event that is parked at the end, and the line with the number of entries. It takes no memory.
/// Only with the canonical text of the machine is it a log that can be read again.
///
/// Answers `WriteFault` where a write failed; the sink has then taken a front of the text.
pub fn write_log<K: Sink>(
    machine_text: &[u8],
    board: &Board,
    sink: &mut K,
) -> Result<(), WriteFault>
    ensures ends { WritesAll (K.held sink.old) (K.held sink.new)
        (log_text board.now.machine machine_text.now board.now.entries) result }
    ensures later { K.faults sink.old ≤ K.faults sink.new }
    ensures cause { OnErr result (RoseByOne (K.faults sink.old) (K.faults sink.new)) }
    ensures told { OnOk result (K.faults sink.new ≡ K.faults sink.old) }
{
    let mut pieces = Pieces::new();
    put_machine(&mut pieces, sink, machine_text)?;
    put_entries(&mut pieces, sink, board)?;
    put_parked(&mut pieces, sink, board)?;
    pieces.put(sink, line_of_rest(board.len()).as_slice())?;
    pieces.finish(sink)
}

/// Puts the line of the machine behind what waits.
fn put_machine<K: Sink>(
    pieces: &mut Pieces,
    sink: &mut K,
    machine_text: &[u8],
) -> Result<(), WriteFault>
    ensures goes_on { GoesOn (K.held sink.old) (K.held sink.new)
        (pieces.old ++ machine_line machine_text.now) pieces.new result }
    ensures later { K.faults sink.old ≤ K.faults sink.new }
    ensures cause { OnErr result (RoseByOne (K.faults sink.old) (K.faults sink.new)) }
    ensures told { OnOk result (K.faults sink.new ≡ K.faults sink.old) }
{
    pieces.put(sink, b"machine ")?;
    pieces.put(sink, machine_text)?;
    pieces.put(sink, b"\n")
}

/// Puts a line for each entry of the board behind what waits.
fn put_entries<K: Sink>(pieces: &mut Pieces, sink: &mut K, board: &Board) -> Result<(), WriteFault>
    ensures goes_on { GoesOn (K.held sink.old) (K.held sink.new)
        (pieces.old ++ entry_lines board.now.entries) pieces.new result }
    ensures later { K.faults sink.old ≤ K.faults sink.new }
    ensures cause { OnErr result (RoseByOne (K.faults sink.old) (K.faults sink.new)) }
    ensures told { OnOk result (K.faults sink.new ≡ K.faults sink.old) }
{
    for i in 0..board.len() {
        pieces.put(sink, line_of_entry(&board.entry(i)).as_slice())?;
    }
    Ok(())
}

/// How many events there are: the fixed ones, and 256 GPEs.
pub const EVENTS: u16 = 261;

/// Puts a line for each event that is parked behind what waits.
fn put_parked<K: Sink>(pieces: &mut Pieces, sink: &mut K, board: &Board) -> Result<(), WriteFault>
    ensures goes_on { GoesOn (K.held sink.old) (K.held sink.new)
        (pieces.old ++ stuck_lines (stuck board.now.machine board.now.entries)) pieces.new result }
    ensures later { K.faults sink.old ≤ K.faults sink.new }
    ensures cause { OnErr result (RoseByOne (K.faults sink.old) (K.faults sink.new)) }
    ensures told { OnOk result (K.faults sink.new ≡ K.faults sink.old) }
{
    for place in 0..EVENTS {
        put_if_parked(pieces, sink, board, event_at(place))?;
    }
    Ok(())
}

/// Puts the line of an event behind what waits, where it is parked.
fn put_if_parked<K: Sink>(
    pieces: &mut Pieces,
    sink: &mut K,
    board: &Board,
    event: Event,
) -> Result<(), WriteFault>
    ensures goes_on { GoesOn (K.held sink.old) (K.held sink.new)
        (pieces.old ++ stuck_lines (if_in (parked board.now.machine (reverse board.now.entries)) event)) pieces.new result }
    ensures later { K.faults sink.old ≤ K.faults sink.new }
    ensures cause { OnErr result (RoseByOne (K.faults sink.old) (K.faults sink.new)) }
    ensures told { OnOk result (K.faults sink.new ≡ K.faults sink.old) }
{
    if board.parked(event) {
        pieces.put(sink, line_of_stuck(event).as_slice())
    } else {
        Ok(())
    }
}

/// The event at a place in the order in which events are served.
pub fn event_at(place: u16) -> Event
    requires { place < 261 }
    ensures { result ≡ event_at place }
{
    match place {
        0 => Event::Fixed(Fixed::Tmr),
        1 => Event::Fixed(Fixed::Gbl),
        2 => Event::Fixed(Fixed::Pwr),
        3 => Event::Fixed(Fixed::Slp),
        4 => Event::Fixed(Fixed::Rtc),
        _ => Event::Gpe((place - 5) as u8),
    }
}
