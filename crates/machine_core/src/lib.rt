//! The board: a machine, the journal of what happened on it, and what follows from the journal.
//!
//! It stands on `machine_history`, whose definitions say which journals are legal and what a journal tells.
//! [`Board::can`] is true exactly where the journal with one more entry is legal, [`Board::refusal`] names the first
//! condition of the table of entries that fails, and [`Board::apply`] appends that entry and nothing else. Each
//! reader gives the value that a definition has for the journal.
//!
//! Beside the journal the board keeps what the definitions find by looking back, a subject a struct: the Global Lock,
//! the events, the actors, the jobs, the controller and the cells in memory. So no call depends on how long the
//! journal is, how long a script is, or how many jobs there are, and none but `Board::new` takes memory.
#![tactic(auto)]

mod actors;
mod board;
mod cells;
mod course;
mod events;
mod jobs;
mod lock;
mod recorded;
mod same;
mod wire;

pub use board::Board;
pub use machine_history::LogRule;
