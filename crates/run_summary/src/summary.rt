//! The summary of a run of a machine that is made.
ghost use Rattle.std.specs.Prelude.{◌≡◌, ◌+◌, ◌<◌, ◌≤◌, ◌++◌, ℕ, length, reverse};
ghost use Rattle.machine_history.specs.Cells.{IsCell};
ghost use Rattle.machine_history.specs.Complete.{Complete};
ghost use Rattle.machine_maker.specs.Maker.{made};
ghost use Rattle.machine_maker.specs.Summary.{cells_line, summary};
ghost use Rattle.run_summary.specs.Told.{bytes_of, cell_of, told};

use crate::laws::law_summary;
use crate::tally::count_entries;
use crate::text::SummaryText;
use acpi_regs::Cell;
use machine_core::Board;
use machine_maker::laws::law_made;

/// The summary of a run of the machine of a number and of a size to 64 ([`machine_maker::make`]), whose complete
/// history the board has. It is counted in that history: the bytes that firmware wrote, the codes that queries took,
/// each of which started a run, and the notify entries; the cells are those of the board. It takes no memory.
pub fn summarize(board: &Board, number: u32, size: u8) -> SummaryText
    requires few { size ≤ 64 }
    requires machine { board.now.machine ≡ made number size }
    requires complete { Complete board.now.machine board.now.entries }

    // What the history has.
    ensures counted { result ≡ told number size board.now.machine (reverse board.now.entries) }

    // What the operations of the machine come to.
    ensures summary { result ≡ summary number size }
{
    law_summary();
    board.machine().law_rules();
    tell(board, number, size)
}

/// The three lines that the board's history tells.
fn tell(board: &Board, number: u32, size: u8) -> SummaryText
    requires few { size ≤ 64 }
    requires machine { board.now.machine ≡ made number size }
    requires complete { Complete board.now.machine board.now.entries }
    ensures { result ≡ told number size board.now.machine (reverse board.now.entries) }
{
    law_made();
    law_summary();
    board.machine().law_rules();
    let tally = count_entries(board);
    let mut text = SummaryText::new();
    text.push_weight(number, size, board.machine().weight() as u32);
    text.push_counts(tally.adds, tally.codes, tally.notifies);
    push_cells(&mut text, board);
    text
}

/// The line with the bytes of the board's first sixteen cells.
fn push_cells(text: &mut SummaryText, board: &Board)
    requires room { length text.old + 54 ≤ 160 }
    requires cells { (k : ℕ) → k < 16 → IsCell board.now.machine (cell_of k) }
    ensures { text.new ≡ text.old ++ cells_line (bytes_of board.now.machine (reverse board.now.entries) 16) }
{
    text.push_text(b"cells");
    for offset in 0..16 {
        text.push_spaced(board.cell(Cell { region: 0, offset }));
    }
    text.push_text(b"\n");
}
