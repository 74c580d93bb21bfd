//! What the log of a run says of its machine: a fact for the proofs of the commands, which costs nothing to call.
ghost use Rattle.std.specs.Prelude.{All, List, Ok, ℕ};
ghost use Rattle.acpi_regs.specs.declared.entry.Entry.{Entry};
ghost use Rattle.history_text.specs.Lines.{IsReadBack};
ghost use Rattle.history_text.specs.Named.{IsEntry};
ghost use Rattle.machine_desc.specs.Kept.{IsMachine};
ghost use Rattle.machine_desc.specs.Machine.{MachineData};
ghost use Rattle.machine_history.specs.Complete.{Complete};
ghost use Rattle.machine_reader.specs.Description.{Describes};
ghost use Rattle.acpi_commands.specs.Check.{IsCompleteLog};
ghost use Rattle.acpi_commands.specs.Headline.{Ran};
ghost use Rattle.acpi_commands.specs.Run.{text};

use history_laws::laws::{
    law_claims_consume, law_codes_in_order, law_jobs_in_order, law_scripts_once,
};
use machine_history::laws::{law_complete_legal, law_exclusion, law_reads_last};

/// Of each complete history of a machine that bytes describe every sentence of the headline is true, and its text is
/// a log that `check` takes for complete.
pub fn law_log()
    ensures ran { (bytes : List ℕ) (m : MachineData) (history : List Entry) → Describes bytes (Ok m) → IsMachine m
        → Complete m history → Ran bytes m history }
    ensures log { (m : MachineData) (history : List Entry) → IsReadBack m → All IsEntry history → Complete m history
        → IsCompleteLog (text m history) m history }
{
    law_complete_legal();
    law_scripts_once();
    law_jobs_in_order();
    law_reads_last();
    law_exclusion();
    law_codes_in_order();
    law_claims_consume();
}
