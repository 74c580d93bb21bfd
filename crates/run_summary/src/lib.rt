//! The summary of a run of a machine that is made, counted in its history.
//!
//! The crate stands on `machine_core`, whose board has the history, on `machine_maker`, whose `specs/Summary.antt`
//! says what the operations of such a machine come to, on `core_laws` for what is added to a cell, and on `itoa` and
//! `arrayvec` for text. [`summarize`] goes through the entries of the board once, and reads its cells; that what it
//! finds is the sum over the operations is proved ([`laws`]), and no operation is looked at.
#![tactic(auto)]

pub mod laws;
mod summary;
mod tally;
#[cfg(test)]
mod tests;
mod text;

pub use summary::summarize;
pub use tally::{Tally, count_entries};
pub use text::SummaryText;
