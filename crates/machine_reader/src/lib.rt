//! The description of a machine as JSON, in version 1 or 2: read with its first fault, and written as its one canonical
//! text.
//!
//! The crate uses `machine_desc` and the crates below it, `serde_json` for the tree of a text, `json` for what a JSON
//! text is, and `itoa` for numbers. What [`read_machine`] answers is `Describes` of `specs/Description.antt`: the form
//! of a description (`specs/Shape.antt`, by the walk of `specs/Reading.antt`), then the rules of `machine_desc`, then
//! the weight. What [`write_machine`] gives is `canonical` of `specs/Canonical.antt`, the JSON text of a value. It is
//! written straight into its bytes. [`laws`] has two laws: each canonical text is read as its machine, and no two
//! machines have the same one.
//!
//! [`walk`], [`read_shaped`], [`machine_at`] and [`machine_parts`] are for readers of other objects, which may hold a
//! machine.
#![tactic(auto)]

mod apart;
mod bytes;
mod fault;
pub mod laws;
mod list;
mod members;
mod names;
mod ops;
mod parts;
mod path;
mod ranges;
mod read;
pub mod walk;
mod whole;
mod write;
mod written;

pub use apart::machine_parts;
pub use fault::ReaderFault;
pub use path::PathText;
pub use read::{machine_at, read_machine, read_shaped};
pub use write::write_machine;
