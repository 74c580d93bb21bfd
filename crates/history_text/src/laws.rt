//! Laws over the text of a log, for every entry, machine and history. A law is a function with nothing to do, whose
//! contract says it.
ghost use Rattle.std.specs.Prelude.{◌≤◌, All};
ghost use Rattle.acpi_regs.specs.Comparisons.{IsExact};
ghost use Rattle.machine_desc.specs.Weight.{weight_of};
ghost use Rattle.machine_reader.specs.Description.{limit};
ghost use Rattle.history_text.specs.Laws.{NoBadLine, OneBadLine, OneLog, OneMachine, OneText};
ghost use Rattle.history_text.specs.Lines.{IsReadBack};
ghost use Rattle.history_text.specs.Named.{IsEntry, OneEntry};
ghost use Rattle.history_text.specs.contracts.fault.LogFaultPartialEq.TheImpl as log_fault_eq;

use crate::LogFault;
use crate::typed::law_deed;
use machine_core::Board;
use machine_desc::Machine;
use machine_reader::laws::law_read_back;

/// No two entries have one text, where their actors have names and their numbers are of their types.
pub fn law_one_entry()
    ensures { OneEntry }
{}

/// The lines of a log have no bad one, and other bytes have one first bad line at most.
pub fn law_bad_lines()
    ensures one { OneBadLine }
    ensures none { NoBadLine }
{}

/// Bytes are the lines of one log at most.
pub fn law_one_log()
    ensures { OneLog }
{}

/// No two pairs of machine and history have one text.
pub fn law_one_text()
    ensures machine { OneMachine }
    ensures pair { OneText }
{}

/// Two faults are `==` exactly where they are the same.
pub fn law_equality()
    ensures { IsExact LogFault (log_fault_eq.ghosts).eq }
{}

/// The canonical text of each machine whose weight is at most 1,048,576 describes it.
pub fn law_canonical(machine: &Machine)
    requires { weight_of machine.now ≤ limit }
    ensures { IsReadBack machine.now }
{
    law_read_back(machine);
}

/// Each entry of a board has an actor with a name, and its numbers are those of their types. It looks at each entry
/// once, and changes nothing.
pub fn law_entries(board: &Board)
    ensures { All IsEntry board.now.entries }
{
    board.law_legal();
    board.machine().law_rules();
    for i in 0..board.len() {
        law_deed(board.entry(i).deed);
    }
}
