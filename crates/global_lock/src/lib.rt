//! The Global Lock over a table that threads share (ACPI 6.5, section 5.2.10.1), each phase of an actor a type.
//!
//! A value of a phase names its actor and is consumed by the call that ends the phase, so that a caller's text shows
//! the order of the calls: who seeks tries, who has disowned releases. Such a value can be made wherever its seat is
//! in the phase that it names; that the seat is there is a condition of each call, over what `lock_table` tells of
//! seats. The crate stands on `lock_table` and `acpi_regs`.
#![tactic(auto)]

mod calls;
mod phases;

pub use calls::{Acquired, TryLock, acquire, give_up, try_lock};
pub use phases::{Gone, Marked, Owning, Quit, Seeking, Waiting, Won};

#[cfg(test)]
mod tests;
