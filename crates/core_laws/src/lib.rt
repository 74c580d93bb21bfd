//! Laws over every interleaving: whatever atomic steps the actors of a machine take, in whatever order, its core stays
//! sound, at most one actor holds the Global Lock, and nothing deadlocks.
//!
//! The crate has definitions and laws alone, and stands on `machine_history` and what is below it. A core is what
//! actors share: the lock's word, the pins, the history, and each actor's phase (`Core` and `CoreEvents` of
//! `acpi_regs`). The events of a machine's core are in `specs/CoreSteps`, soundness in `specs/Sound` and, in
//! sentences, in `specs/Said`; `specs/Gives` says that a step of an actor is a list of events, `specs/Stuck` when
//! nobody has a step, `specs/Rounds` what is to come, `specs/Adds` what additions to one cell come to, and
//! `specs/Upgrade` what the upgrade to version 2 leaves as it is. Nothing is said of fairness or of time.
#![tactic(auto)]

pub mod laws;
