ghost use Rattle.std.specs.Prelude.{◌≡◌, ◌+◌, ◌≤◌, [], MatchOption, length};
ghost use Rattle.machine_desc.specs.Weight.{weight_of};
ghost use Rattle.run_checker.specs.Verdict.{BrokenAt};

use acpi_regs::Entry;
use machine_core::Board;
use machine_history::LogRule;

/// Makes the entries one after another on a board that has none. Where one is not allowed it stops, and tells the
/// entry's line and the rule; the board then has the entries before it.
pub fn replay(board: &mut Board, entries: &[Entry]) -> Option<(u32, LogRule)>
    requires empty { board.old.entries ≡ [] }
    requires light { weight_of board.old.machine ≤ 1048576 }
    ensures machine { board.new.machine ≡ board.old.machine }
    ensures ends { MatchOption result (board.new.entries ≡ entries.now)
        (λ p. BrokenAt board.old.machine entries.now p.0 p.1) }
{
    for entry in entries {
        board.law_legal();
        match board.refusal(entry) {
            Some(rule) => return Some((line_behind(board), rule)),
            None => board.apply(*entry),
        }
    }
    None
}

/// The number of the line behind those of the machine and of the entries on the board.
pub fn line_behind(board: &Board) -> u32
    requires { weight_of board.now.machine ≤ 1048576 }
    ensures line { result ≡ length board.now.entries + 2 }
    ensures small { result ≤ 1048578 }
{
    board.machine().law_rules();
    board.law_legal();
    board.len() + 2
}
