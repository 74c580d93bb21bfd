ghost use Rattle.std.specs.Prelude.{◌≡◌, ◌≤◌, IfOk, MatchOption};
ghost use Rattle.machine_desc.specs.Weight.{weight_of};
ghost use Rattle.machine_reader.specs.Description.{limit};
ghost use Rattle.run_checker.specs.Verdict.{IsRightEnd, IsWrongLine, Judges};

use crate::ending::{Ending, compare};
use crate::ends::Ends;
use crate::reasons::first_unfinished;
use crate::replay::{line_behind, replay};
use crate::verdict::Verdict;
use acpi_regs::{Entry, Event, Memory};
use history_text::Log;
use machine_core::Board;
use machine_history::LogRule;
use std::alloc::Global;

/// Judges a log: whether it is a complete legal history of its machine, else its first line that breaks a rule, and
/// which, else the first actor that has something left to do. The entries are made one after another on a board; it
/// takes memory for the board alone.
///
/// # Errors
/// `Memory` where room was wanting.
pub fn check(alloc: Global, log: &Log) -> Result<Verdict, Memory>
    requires { weight_of log.now.machine ≤ limit }
    ensures { IfOk result (λ verdict.
        Judges log.now.machine log.now.entries.items log.now.stuck.items log.now.rest verdict) }
{
    let machine = log.machine.copied(alloc)?;
    let mut board = Board::new(alloc, machine)?;
    match replay(&mut board, &log.entries) {
        Some((line, rule)) => Ok(Verdict::Illegal { line, rule }),
        None => Ok(judge_end(&board, &log.entries, &log.stuck, log.rest)),
    }
}

/// Judges what stands behind the entries of a log, which are all on the board.
fn judge_end(board: &Board, entries: &[Entry], told: &[Event], last: u32) -> Verdict
    requires same { board.now.entries ≡ entries.now }
    requires light { weight_of board.now.machine ≤ limit }
    ensures { Judges board.now.machine entries.now told.now last result }
{
    board.law_legal();
    match wrong_line(board, told, last) {
        Some(line) => Verdict::Illegal {
            line,
            rule: LogRule::Rest,
        },
        None => judge_rest(board, entries, told, last),
    }
}

/// Judges what is left to do after the entries, which are all on the board. All lines are right.
fn judge_rest(board: &Board, entries: &[Entry], told: &[Event], last: u32) -> Verdict
    requires same { board.now.entries ≡ entries.now }
    requires light { weight_of board.now.machine ≤ limit }
    requires right { IsRightEnd board.now.machine entries.now told.now last }
    ensures { Judges board.now.machine entries.now told.now last result }
{
    board.machine().law_rules();
    board.law_legal();
    let ends = Ends::of(board.machine(), entries);
    match first_unfinished(board, &ends) {
        Some(actor) => Verdict::Unfinished { actor },
        None => Verdict::Complete,
    }
}

/// The first line behind the entries that is not what the history gives.
fn wrong_line(board: &Board, told: &[Event], last: u32) -> Option<u32>
    requires { weight_of board.now.machine ≤ limit }
    ensures { MatchOption result (IsRightEnd board.now.machine board.now.entries told.now last)
        (λ line. IsWrongLine board.now.machine board.now.entries told.now last line) }
{
    let first = line_behind(board);
    match compare(board, told) {
        Ending::Other(place) => Some(first + place),
        Ending::Missing(count) => Some(first + count),
        Ending::Right(count) => {
            if last == board.len() {
                None
            } else {
                Some(first + count)
            }
        }
    }
}
