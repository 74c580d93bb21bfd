//! The registers of all events that can raise an SCI: status, line, whether a handler holds the event, the count of
//! references, and how many runs in a row ended under an asserted line (ACPI 6.5, sections 4.8.3.1, 4.8.4.1, 5.6.4 and
//! 5.6.4.1).
//!
//! The crate depends on `acpi_regs`. `specs/State.antt` has one record for the state of an event and one function for
//! each way to touch it. By `Touches` of `specs/Chip.antt`, a call of [`EventChip`] changes one event by that function
//! and leaves all others. The time of a call does not depend on what the machine lists. Only `EventChip::new` takes
//! memory.
#![tactic(auto)]

mod chip;
pub mod laws;
mod places;
mod state;
mod words;

pub use chip::{EventChip, EventWord, rank_of};
pub use state::{EventKind, EventState, Slot, Touch};

#[cfg(test)]
mod tests;
