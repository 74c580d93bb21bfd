//! Laws over the definitions of this crate, each for every state and list of calls. A law is a function with
//! nothing to do, whose contract says it.
ghost use Rattle.std.specs.Prelude.{◌≡◌, ◌↔◌, List, IsTrue};
ghost use Rattle.ec_chip.specs.Calls.{Call, LastTurns, PutsOutInOrder, TellsStatus};
ghost use Rattle.ec_chip.specs.Chip.{ChipData};

use crate::CtlOutcome;

/// Whatever calls are made, the controller puts each query code out once, in the order in which the codes were
/// pushed. It is not said that the host reads it there.
pub fn law_codes_in_order()
    ensures { (calls : List Call) (c : ChipData) → PutsOutInOrder calls c }
{}

/// Whatever calls are made, burst mode is what the last call made it that turns it on or off.
pub fn law_burst_last()
    ensures { (calls : List Call) (c : ChipData) → LastTurns calls c }
{}

/// Each flag of the status register is set exactly where its sentence holds.
pub fn law_status()
    ensures { (c : ChipData) → TellsStatus c }
{}

/// Two outcomes are equal exactly where they are the same.
pub fn law_same_outcome(first: CtlOutcome, second: CtlOutcome) -> bool
    ensures { IsTrue result ↔ (first ≡ second) }
{
    first == second
}
