//! Laws of verdicts, for every machine and log. A law is a function with nothing to do, whose contract says it.

ghost use Rattle.acpi_regs.specs.Comparisons.{IsExact};
ghost use Rattle.run_checker.specs.Laws.{CompletesAll, OneVerdict};
ghost use Rattle.run_checker.specs.contracts.verdict.VerdictPartialEq.TheImpl as verdict_eq;

use crate::Verdict;

/// A log has one verdict at most. So each verdict comes exactly where it is said to come.
pub fn law_one_verdict()
    ensures { OneVerdict }
{}

/// Two verdicts are `==` exactly where they are the same.
pub fn law_equality()
    ensures { IsExact Verdict (verdict_eq.ghosts).eq }
{}

/// A legal history of a machine is complete exactly where no actor of the machine has something left to do.
pub fn law_none_unfinished()
    ensures { CompletesAll }
{}
