//! One interface to the words and the board that actors share, and the steps that several kinds of actor have in
//! common.
//!
//! A [`World`] is what an actor reaches: it makes attempts at the Global Lock's word, releases it, pulses pins and
//! takes turns at the board. What an actor does with the board in a turn is a [`Duty`]. Each world says by one
//! relation what its calls make of it, and by one what they ask: [`SerialWorld`], a board with plain words for one
//! thread, tells all of both (`specs/Serial.antt`); [`TableWorld`], a seat of a table that threads share, tells what
//! its seat knows (`specs/Shared.antt`).
//!
//! A step of an actor is proved once, over every world (`specs/Stepping.antt`): it makes one call, and its outcome
//! and its new phase are what that call's answer says. [`laws`] has what follows for the world of one thread, where a
//! step does exactly what the definitions give its actor.
//!
//! The crate stands on `machine_core` and `lock_table`. No call takes memory, and none depends on how long the
//! journal is.
#![tactic(auto)]

mod duty;
pub mod laws;
mod may;
mod outcome;
mod pins;
mod script;
mod script_turn;
mod serial;
mod table_world;
mod turn;
mod world;

pub use duty::Duty;
pub use may::{add, otherwise, where_may};
pub use outcome::{StepOutcome, of_turn};
pub use script::{script_step, step_deed};
pub use serial::SerialWorld;
pub use table_world::TableWorld;
pub use turn::{Acted, TurnOutcome};
pub use world::World;
