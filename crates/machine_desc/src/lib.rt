//! A whole machine as its description gives it, with the rules that it keeps.
//!
//! The crate stands on `acpi_regs`, `field_units` and `handler_script`. [`Machine::new`] takes the parts that a
//! reader found and accepts them exactly where they break no rule of `specs/Rules.antt`; else it tells the first that
//! is broken, and where. From then on contracts see a machine as plain data (`specs/Machine.antt`).
#![tactic(auto)]

mod build;
mod copy;
mod cost;
mod fault;
mod given;
mod items;
mod items_rules;
mod known;
pub mod laws;
mod lists;
mod machine;
mod parts;
mod pulses;
mod rules;
mod scripted;
mod served;
mod space;
mod tally;
mod weight;

pub use fault::{BadMachine, MachineError, Part, Place, Rule, Spot};
pub use items::Items;
pub use machine::{ControllerDesc, ListedEvent, Machine, Query};
pub use parts::{ControllerPart, EventPart, FieldPart, MachineParts, QueryPart, RegionPart};
