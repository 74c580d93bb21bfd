//! Tables and the Global Lock, row by row of what the standard says, and on threads. All calls on tables are
//! tried here, those of `lock_table` too, since one small journal serves them all.
mod notes;
mod rows;
mod seats;
mod threads;
