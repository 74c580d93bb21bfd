//! The actors of the operating system: its interrupt handler, its polling loop, and its workers.
//!
//! Each is its phase, and makes one step at a time over any [`World`]: the first thing in its list that is allowed.
//! The interrupt handler and the polling loop collect the pins in one turn and latch each event that they found;
//! where there was none they make the next move of the host for a worker that asked the controller, else they claim
//! the first pending event (ACPI 6.5, sections 5.6.4 and 12.6). A worker runs jobs: their acts one by one, and the
//! Global Lock's protocol around those that need it (section 5.2.10.1).
//!
//! The contracts say what call of the world a step made and what it came to (`specs/Hosts.antt`, and
//! `specs/Stepping.antt` of `world`). [`laws`] has that over the world of one thread a step does exactly what the
//! definitions give its actor.
#![tactic(auto)]

mod host;
mod host_turn;
mod interrupt;
mod latches;
pub mod laws;
mod poll;
mod worker;

pub use interrupt::Interrupt;
pub use poll::Poll;
pub use worker::Worker;
pub use world::StepOutcome;
