use acpi_regs::Actor;
use machine_history::LogRule;

/// What a judge says of a log.
#[derive(Clone, Copy, Debug, PartialEq, Eq)]
pub enum Verdict {
    /// The log is a complete legal history of its machine.
    Complete,
    /// This line, counted from 1, is the first that breaks a rule: an entry that is not allowed after those before
    /// it, or, with `Rest`, a stuck line or the last line that is not what the history gives.
    Illegal { line: u32, rule: LogRule },
    /// All lines are right, and this actor, the first of them, has something left to do.
    Unfinished { actor: Actor },
}
