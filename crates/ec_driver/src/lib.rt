//! The host's half of a transaction with the embedded controller (ACPI 6.5, chapter 12).
//!
//! It stands on `ec_chip`. The definition of the contracts is `specs/Wire.antt`: the list of moves of each request,
//! the host's and the controller's. The laws say that a driver and a controller that take turns make exactly these
//! moves, whoever has a turn when.
#![tactic(auto)]

pub mod laws;
mod transaction;
mod wire;

pub use transaction::{AdvanceOutcome, Transaction};
pub use wire::Move;

#[cfg(test)]
mod tests;
