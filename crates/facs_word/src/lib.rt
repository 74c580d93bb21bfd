//! The Firmware ACPI Control Structure (FACS) and the word of the Global Lock in it (ACPI 6.5, section 5.2.10).
//!
//! The crate depends on `thiserror` alone. [`acquire_of`] and [`release_of`] compute the next word of the lock, as
//! `specs/Word.antt` defines it: the two low bits change, and the reserved bits stay. [`Facs`] is the table, which
//! contracts see as the list of its first 64 bytes. `reads` of `specs/Table.antt` says which bytes are accepted, and
//! which fault is reported for the others. [`laws`] has the sentences that follow from these definitions.
#![tactic(auto)]

pub mod laws;
mod table;
mod word;

pub use table::{Facs, FacsFault};
pub use word::{acquire_of, owned, pending, release_of};

#[cfg(test)]
mod tests;
