//! A machine run on threads: its memory taken, its actors run beside one another, and the rest done on one thread.
//!
//! [`prepare_run`] reads a description and takes all memory; [`prepare_machine`] does so for a machine that is there.
//! [`race`] gives every actor a thread of its own and takes all of them back; it has no refusal. [`carry_out`] closes
//! the table that they shared, lets rounds finish what the threads left, and writes the log; [`at_rest`] gives the
//! board in its place.
//!
//! [`Prepared`] and [`Raced`] are what stands between them: what each keeps is its type's invariant
//! (`specs/Prepared.antt`, `specs/Raced.antt`). No contract can say that threads ran at once; it says that in the
//! root of the table each actor is at its end or tried more often than the history can have entries.
#![tactic(auto)]

mod carry;
mod prepared;
mod raced;
mod racing;
#[cfg(test)]
mod tests;

pub use carry::{at_rest, carry_out};
pub use prepared::{Prepared, prepare_machine, prepare_run};
pub use raced::Raced;
pub use racing::race;
