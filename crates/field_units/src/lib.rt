//! Regions of cells, and fields of bits in them (ACPI 6.5, sections 5.5.2.4 and 19.6.48).
//!
//! It stands on `thiserror` alone, and takes no memory. A [`FieldUnit`] is read byte by byte with
//! [`FieldUnit::get_bits`], and written byte by byte with [`FieldUnit::put_bits`]. The contracts of these calls are
//! `joined` and `replaced` of `specs/Bits.antt`, which speak of single bits: bit i of a field is bit `bit + i` of its
//! region. The laws in [`laws`] say what they come to: what was written is read, and every other bit of the bytes
//! goes by the update rule.
#![tactic(auto)]

mod bits;
mod fault;
pub mod laws;
mod region;
mod rules;
mod unit;

pub use fault::FieldFault;
pub use region::Region;
pub use rules::{LockRule, RegionKind, UpdateRule};
pub use unit::{FieldUnit, Span};

#[cfg(test)]
mod tests;
