//! What all actors share: one board in turns, the Global Lock's word of the FACS, and five words of pins (ACPI 6.5,
//! sections 5.2.10.1 and 4.8).
//!
//! A [`LockTable`] keeps the board, and a seat, [`TableSeat`], is one actor's pass to it, on a thread of its own. One
//! seat at a time has the turn, and with it the board; the words change in single steps at any time. No call waits or
//! loops, and only `new` takes memory. The table stands on `atomic_table`, whose rule says what holds between any two
//! steps: words, board and what the seats know stand for a core of `acpi_regs` (`Core`), which is sound
//! (`CoreSound`). That is `Kept` of `specs/Rule.antt`. Each step is one event of that core (`CoreEvents`) or none, so
//! that it stays sound by the laws there.
//!
//! Contracts see a seat as what it knows, a [`View`]: its actor with phase and entries, and the history that it has
//! seen. `specs/Views.antt` says how each step changes that, and `specs/Calls.antt` and `specs/WordCalls.antt` what
//! the calls say. [`Bits`] and [`Words`] are plain values, which a world of one thread keeps, and which a table
//! leaves when it is closed.
#![tactic(auto)]

pub mod laws;
mod lends;
mod plays;
mod rule;
mod seat;
mod seats;
mod steps;
mod table;
mod turns;
mod view;
mod word_plays;
mod words;

pub use acpi_regs::{PulseLists, Recorded};
pub use seat::{Entered, TableSeat, Turn};
pub use table::LockTable;
pub use view::{Occupant, Part, SeatPhase, Stage, View};
pub use words::{Attempt, Bits, Words};

#[cfg(test)]
mod tests;
