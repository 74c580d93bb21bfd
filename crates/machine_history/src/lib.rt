//! What may happen on a machine: the table of entries, the state that each entry leaves, and whole histories.
//!
//! It stands on `machine_desc`, and on `event_chip` and `ec_driver` for what a touch does to an event and for the
//! moves of a transaction. Nearly all of it is definitions, in `specs/`: which entry is allowed after which past
//! (`Legal`), what the past tells of the Global Lock, events, jobs, the controller and cells, and when nothing is
//! left open (`Complete`). The crates above cite them: the board keeps what they find by looking back, and the actors
//! make entries that they allow.
//!
//! [`laws`] ties the definitions to the sentences that they stand for, and says what follows from them.
#![tactic(auto)]

pub mod laws;
mod parts;
mod rule;

pub use parts::{Access, Job, Touched};
pub use rule::LogRule;
