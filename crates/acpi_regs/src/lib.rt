//! Registers, names and journal entries of the ACPI event core.
//!
//! All other crates use the types of this one: fixed events and the flags of the PM1 registers, GPEs and their blocks,
//! the names of methods, the status of the embedded controller, actors, and the entries of a history. An entry is what
//! one actor did in one step, and a history is a list of entries, the oldest first. The crate depends on `bitflags` and
//! `facs_word`.
//!
//! The contracts cite the tables of ACPI in `specs/` (`Event`, `Geometry`, `Names`). The crates above also cite the
//! definitions of histories there: the entries of one actor, the owner and the seekers of the Global Lock, its signals,
//! and the side of an actor. They cite the core that actors share between their steps, with each actor's phase (`Core`,
//! `Phases`), what may happen to it in one atomic step (`CoreEvents`), and when it is sound (`CoreSound`).
//!
//! [`laws`] has what follows from the definitions: `==` holds exactly between equal values, events and actors are
//! ordered, names and places are read back as they were written, and each step leads from a sound core to a sound one.
#![tactic(auto)]

mod actor;
mod entry;
mod event;
mod flags;
mod gate;
mod geometry;
pub mod laws;
mod memory;
mod name;
mod order;
mod packing;
mod phase;
mod recorded;
mod unpacking;

pub use actor::{Actor, Side};
pub use entry::{Cell, Deed, Effect, Entry, HostMove, Request};
pub use event::{Event, Fixed, Listed};
pub use flags::{EcStatus, Pm1Bits};
pub use gate::{Gate, OpenGate};
pub use geometry::{BadGeometry, GeometryField, GpeGeometry, GpePlace};
pub use memory::Memory;
pub use name::{MethodName, NotAName, byte_named, digit_byte};
pub use phase::{LockPhase, Pulse};
pub use recorded::{PulseLists, Recorded};

#[cfg(test)]
mod packing_tests;
#[cfg(test)]
mod tests;
