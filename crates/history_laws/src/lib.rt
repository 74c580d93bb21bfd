//! What the definitions of `machine_history` mean, in sentences over whole histories.
//!
//! It uses `machine_history` and what that crate uses. The definitions there look back from the newest entry; the
//! laws here say the same in the words of a reader: the last entry that touches a piece of state decides it, jobs and
//! query codes come in order, each claim consumes a raise, a script makes each of its acts once. `Once` in `specs/`
//! has the sentences on scripts; the others cite the sentences of `machine_history`.
//!
//! No board or actor needs these laws, so the crate is proved beside `machine_core`. `acpi_commands` cites them for
//! the log of a run.
#![tactic(auto)]

pub mod laws;
