//! The text of a log: how it reaches a sink, and how bytes are read as one.
//!
//! It stands on `machine_core`, whose board has the history, on `machine_reader` for the machine's line, on `acpi_io`
//! for sinks, on `memchr` for the ends of lines, and on `itoa` and `arrayvec` for text. What a line is, and the whole
//! log, stands in `specs/Text.antt`; the contract is that the functions here write exactly that. Writing takes no
//! memory: a line is made in a fixed buffer, and lines are gathered in another, which is handed to the sink whenever
//! it is full.
//!
//! Reading has no grammar of its own (`specs/Lines.antt`): of a line the only entry is guessed that it can be the
//! text of, and that entry is written again and compared. So a line is read exactly where it is written for some
//! entry. The bytes are gone through once, line by line.
//!
//! [`laws`] says that no two entries have one text, and no two pairs of machine and history one log.
#![tactic(auto)]

mod bytes;
mod fault;
mod guess;
pub mod laws;
mod line;
mod log;
mod log_read;
mod pieces;
mod read;
mod typed;

pub use bytes::log_bytes;
pub use fault::LogFault;
pub use line::{Line, LineText, line_of_entry, line_of_rest, line_of_stuck, write_line};
pub use log::{EVENTS, event_at, write_log};
pub use log_read::{Log, read_log};
pub use pieces::Pieces;

#[cfg(test)]
mod tests;
