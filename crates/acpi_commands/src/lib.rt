//! What the program `acpi_events` does: it reads a machine's description from a source, runs the machine, and writes
//! the history of what happened as a log to a sink; or it reads a log and judges it.
//!
//! All of it stands in [`acpi_events`], a call over any source and sink whose contract says what each status means
//! (`specs/Run.antt`), by the words of the program (`specs/Words.antt`). What a log says of its machine is
//! `specs/Headline.antt`, sentence by sentence; what is said of a log that is judged is `specs/Check.antt`. [`end`]
//! then tells a refusal and gives the exit code (`specs/Ending.antt`). The program's `main`, which hands these the
//! words and the standard streams, is a crate of its own. The crate stands on `threaded_run`, which runs a machine on
//! threads, on `sci_threads`, which replays one on a single thread, on `machine_reader`, which reads descriptions, on
//! `history_text`, which writes the log and reads one, on `run_checker`, which judges it, and on `acpi_io`.
#![tactic(auto)]

mod check;
mod command;
mod ending;
pub mod laws;
mod log;
mod make;
mod names;
mod program;
mod replay;
mod run;
mod staged;
mod status;

pub use acpi_regs::{Gate, OpenGate};
pub use ending::end;
pub use program::acpi_events;
pub use status::Status;
pub use threaded_run::{Prepared, Raced, carry_out, prepare_run, race};
