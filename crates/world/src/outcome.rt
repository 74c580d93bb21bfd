ghost use Rattle.std.specs.Prelude.{◌≡◌};
ghost use Rattle.world.specs.Stepping.{attempt_outcome, did_outcome, is_stepped, turn_outcome};

use crate::Acted;
use acpi_regs::Deed;
use lock_table::Attempt;

/// What one step of an actor came to.
#[derive(Clone, Copy, Debug, PartialEq, Eq)]
pub enum StepOutcome {
    /// Its call was carried out: it made entries, exchanged or released the word, or pulsed a pin, which may have
    /// been set already.
    Stepped,
    /// It looked at the board, and there was nothing for it to do.
    NotReady,
    /// It did not get a turn at the board.
    Out,
    /// The word of the Global Lock had changed between its load and its exchange.
    Moved,
    /// Its script or its list of pulses is through.
    Ended,
}

impl StepOutcome {
    /// Whether something was done.
    pub fn is_stepped(self) -> bool
        ensures { result ≡ is_stepped self }
    {
        matches!(self, StepOutcome::Stepped)
    }
}

/// The outcome of an attempt at the lock.
pub fn of_attempt(attempt: Attempt) -> StepOutcome
    ensures { result ≡ attempt_outcome attempt }
{
    match attempt {
        Attempt::Moved { .. } => StepOutcome::Moved,
        _ => StepOutcome::Stepped,
    }
}

/// The outcome of a turn that adds at most one entry of a script.
pub fn of_made(ended: bool, made: Option<Deed>) -> StepOutcome
    ensures { result ≡ turn_outcome ended made }
{
    match made {
        Some(_) => StepOutcome::Stepped,
        None => of_end(ended),
    }
}

fn of_end(ended: bool) -> StepOutcome
    ensures { result ≡ turn_outcome ended None }
{
    if ended {
        StepOutcome::Ended
    } else {
        StepOutcome::NotReady
    }
}

/// The outcome of a turn of an actor that has no script.
pub fn of_turn(acted: Acted) -> StepOutcome
    ensures { result ≡ did_outcome acted }
{
    match acted {
        Acted::Did => StepOutcome::Stepped,
        Acted::Nothing => StepOutcome::NotReady,
    }
}
