//! Large machines, each from a number and a size.
//!
//! The crate uses `machine_desc` and the crates below it. What [`make`] gives is `made` of `specs/Maker.antt`: the same
//! space, events and codes at every number and size. The size is how long the scripts of the firmware and the lists of
//! the devices are. The number is which operations the firmware has. [`laws`] has that such a machine breaks no rule of
//! a description, and that a run has room for its weight.
#![tactic(auto)]

pub mod laws;
mod making;
mod parts;
#[cfg(test)]
mod tests;

pub use making::make;
