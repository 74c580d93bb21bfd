//! The judge of a log: is it a complete legal history of its machine?
//!
//! A log may come from anywhere. [`check`] makes its entries one after another on a board of `machine_core`, whose
//! contract says that a refusal is the first condition that an entry fails after those before it; so the judge finds
//! by an index what the definitions find by looking back. Its verdict is `Judges` of `specs/Verdict.antt`: complete;
//! or the first line that breaks a rule, and the rule; or the first actor that has something left to do, by the
//! reasons of `specs/Reasons.antt`.
#![tactic(auto)]

mod ending;
mod ends;
mod judge;
pub mod laws;
mod reasons;
mod replay;
mod verdict;
mod words;

pub use judge::check;
pub use verdict::Verdict;
pub use words::rule_name;
