//! Laws over the definitions of this crate, each for every machine and history. A law is a function with nothing
//! to do, whose contract says it; that of a comparison makes the comparison.
ghost use Rattle.std.specs.Prelude.{◌≡◌, ◌↔◌, ◌≤◌, List, length, reverse, Some, IsTrue};
ghost use Rattle.acpi_regs.specs.Comparisons.{IsExact};
ghost use Rattle.acpi_regs.specs.declared.actor.Actor.{Actor};
ghost use Rattle.acpi_regs.specs.declared.entry.Entry.{Entry};
ghost use Rattle.handler_script.specs.Each.{Each};
ghost use Rattle.machine_desc.specs.Kept.{IsMachine};
ghost use Rattle.machine_desc.specs.Machine.{MachineData};
ghost use Rattle.machine_desc.specs.Weight.{weight_of};
ghost use Rattle.machine_history.specs.Acts.{fits};
ghost use Rattle.machine_history.specs.Complete.{Complete};
ghost use Rattle.machine_history.specs.Exclusion.{AccessesByOwner, DisownsBetween, LeavesNext, ReadsLast};
ghost use Rattle.machine_history.specs.Legal.{EachAllowed, Legal};
ghost use Rattle.machine_history.specs.Scripts.{plan_left};
ghost use Rattle.machine_history.specs.Sentences.{FrontOfWire, StepsByHosts};
ghost use Rattle.machine_history.specs.Wire.{Open, open_of};
ghost use Rattle.machine_history.specs.contracts.parts.AccessPartialEq.TheImpl as access_eq;
ghost use Rattle.machine_history.specs.contracts.parts.JobPartialEq.TheImpl as job_eq;

use crate::{Access, Job, LogRule};

/// A complete history is legal.
pub fn law_complete_legal()
    ensures { (m : MachineData) (history : List Entry) → Complete m history → Legal m history }
{}

/// Whatever an actor has left to do: it reads and writes bytes of memory alone, asks the controller for its
/// addresses, and pushes no code 0.
pub fn law_acts_fit()
    ensures { (m : MachineData) (past : List Entry) (a : Actor)
        → IsMachine m → Each (fits m) (plan_left m past a) }
{}

/// A history is legal exactly where each of its entries is allowed after those before it.
pub fn law_legal_each()
    ensures { (m : MachineData) (history : List Entry) → Legal m history ↔ EachAllowed m history }
{}

/// A legal history of a machine has at most as many entries as the machine's weight.
pub fn law_weight()
    ensures { (m : MachineData) (history : List Entry) → IsMachine m → Legal m history → length history ≤ weight_of m }
{}

/// In a legal history, while a begin is open, the moves since it are a front of the moves of its request.
pub fn law_wire_front()
    ensures { (m : MachineData) (history : List Entry) (o : Open) → Legal m history
        → open_of (reverse history) ≡ Some o → FrontOfWire (reverse history) o }
{}

/// In a legal history each read gives the last byte that was written to its cell, or the description's, also where the
/// controller makes it.
pub fn law_reads_last()
    ensures { (m : MachineData) (history : List Entry) → Legal m history → ReadsLast m history }
{}

/// In a legal history of a machine each access is made for the next act of the actor to whom it is credited, also
/// where the controller makes it, and where that act needs the Global Lock its actor owns it. Between an own and the
/// next own the actor of the first disowns, and the next entry of an actor after its disown is its leave.
pub fn law_exclusion()
    ensures owner { (m : MachineData) (history : List Entry) → IsMachine m → Legal m history
        → AccessesByOwner m history }
    ensures between { (m : MachineData) → DisownsBetween m }
    ensures leaves { (m : MachineData) → LeavesNext m }
{}

/// In a legal history each step is made while a transaction is open: by the interrupt handler or by polling where one
/// of the OS's side began it, by the firmware itself where a firmware did; and by the interrupt handler only where it
/// has claimed the controller's event since its last step.
pub fn law_steps()
    ensures { (m : MachineData) (history : List Entry) → Legal m history → StepsByHosts m history }
{}

/// Jobs, and accesses, are equal, by `==`, exactly where they are the same.
pub fn law_equality()
    ensures job { IsExact Job (job_eq.ghosts).eq }
    ensures access { IsExact Access (access_eq.ghosts).eq }
{}

/// Conditions of the table of entries are equal, by `==`, exactly where they are the same.
pub fn law_log_rules_equal(one: &LogRule, other: &LogRule) -> bool
    ensures { IsTrue result ↔ (one.now ≡ other.now) }
{
    one == other
}
