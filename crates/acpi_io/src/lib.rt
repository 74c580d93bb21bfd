//! Bytes in and out of the ACPI event core.
//!
//! The program reads its input through a [`Source`] and writes its log through a [`Sink`]. Each has a count of
//! faults, which a failed call raises by one and no other call changes. So a call above can promise that it answers a
//! fault exactly where one came, and that it asked no more from then on. [`read_all`] reads a source to its end, and
//! [`write_all`] writes all bytes to a sink. [`MemorySource`] and [`MemorySink`] keep their bytes in memory and fail
//! where they are told to, and [`StdSource`] and [`StdSink`] stand over the readers and writers of `std`.
//!
//! Where no fault is answered, none came: the count is as it was. The laws in [`laws`] say that values which compare
//! as equal are equal.
//!
//! It stands on `acpi_regs`, for the error for want of memory, and on `std`. Its contracts are the definitions in
//! `specs/`: `RoseByOne` of a count of faults; `ReadTakes` and `ReadsAll` of the bytes that a source has left;
//! `WriteAdds` and `WritesAll` of the bytes that a sink holds; and, exactly, what the next call of a source or a
//! sink in memory answers and what it leaves.
#![tactic(auto)]

pub mod laws;
mod memory_sink;
mod memory_source;
mod sink;
mod source;
mod standard;

pub use memory_sink::MemorySink;
pub use memory_source::MemorySource;
pub use sink::{Sink, WriteFault, WriteOutcome, write_all};
pub use source::{ReadAllFault, ReadOutcome, Source, read_all};
pub use standard::{StdSink, StdSource};

#[cfg(test)]
mod tests;
