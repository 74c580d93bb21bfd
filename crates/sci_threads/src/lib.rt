//! All actors of a machine: rounds and schedules over a world of one thread, and each on a thread of its own over a
//! table.
//!
//! [`all_actors`] makes the actors of a machine, each at its start. [`drain`] makes rounds, one step of each actor in
//! the order in which actors are served, until one in which nobody did anything; [`run_schedule`] makes the steps of
//! the machine's schedule first. Each step is exactly what the definitions give its actor, so they lead to the core
//! to which the rounds of the definitions settle (`specs/Played.antt` of `machine_history`). That they end follows
//! from the count of what is to come of `core_laws`, which each step lessens.
//!
//! An [`ActorSeat`] is an actor with its seat at a table that threads share, and [`run_parallel`] runs each beside
//! the others. No contract can say that threads ran at once; it says of each seat that its actor is at its end or
//! that it tells of all the steps (`specs/Shared.antt`).
#![tactic(auto)]

mod actors;
mod any;
pub mod laws;
mod parallel;
mod rounds;
mod seats;
mod shared;

pub use acpi_regs::{Gate, OpenGate};
pub use actors::all_actors;
pub use any::AnyActor;
pub use parallel::run_parallel;
pub use rounds::{drain, run_schedule, step_of};
pub use seats::{join_all, prepare};
pub use shared::ActorSeat;
