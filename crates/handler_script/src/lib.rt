//! Scripts of event handlers and of the firmware: operations in order, with jumps forward and no loops, and the acts
//! that they mean (ACPI 6.5, sections 5.5.2.4 and 12.3).
//!
//! The crate stands on `field_units` and `acpi_regs`, and takes no memory. What a script means is `plan` of
//! `specs/Plan.antt`: the acts that are left, each going on by the byte that it is answered. A [`Cursor`] stands in a
//! script; its contract is what is left of that plan. [`Script::new`] accepts exactly the scripts in which
//! `script_fault` of `specs/Accepts.antt` finds no fault.
#![tactic(auto)]

mod accept;
mod access;
mod act;
mod cursor;
mod fault;
pub mod laws;
mod op;
mod script;
mod stage;
mod walk;

pub use accept::EventRules;
pub use act::Act;
pub use cursor::Cursor;
pub use fault::ScriptFault;
pub use op::Op;
pub use script::Script;

#[cfg(test)]
mod tests;
