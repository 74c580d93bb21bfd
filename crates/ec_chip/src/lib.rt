//! The embedded controller as the host and the firmware see it (ACPI 6.5, chapter 12): its two registers, burst
//! mode, the bytes of its space and its list of query codes.
//!
//! It stands on `acpi_regs`. The definition of the contracts is `specs/Chip.antt`: a record of the controller's
//! state, and one function for each call. All room is taken by [`EcChip::new`], and every other call is done in
//! constant time.
#![tactic(auto)]

mod chip;
pub mod laws;
mod parts;

pub use chip::EcChip;
pub use parts::{CtlOutcome, Half, Port};

#[cfg(test)]
mod tests;
