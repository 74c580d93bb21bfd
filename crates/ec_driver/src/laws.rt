//! Laws over the definitions of this crate, each for every request, every state of the controller and every order of
//! turns. A law is a function with nothing to do, whose contract says it.
ghost use Rattle.std.specs.Prelude.{◌≡◌, ◌↔◌, List, IsTrue};
ghost use Rattle.acpi_regs.specs.declared.entry.Request.{Request};
ghost use Rattle.ec_chip.specs.Chip.{ChipData};
ghost use Rattle.ec_driver.specs.Driver.{TransactionData};
ghost use Rattle.ec_driver.specs.Turns.{AlwaysDoes, AlwaysFollows, MovesAsAsked, StandsOn, Turn};

use crate::AdvanceOutcome;

/// A driver and a controller that take turns, in any order and with codes pushed between, make exactly the moves of
/// the request.
pub fn law_follows_wire()
    ensures { (r : Request) (c : ChipData) (turns : List Turn) → AlwaysFollows r c turns }
{}

/// A finished read has given the byte of its cell, a finished write has left its byte in the cell and no other cell
/// changed, and a finished query has given the first code that waited, or 00, and the code left the list.
pub fn law_does_what_is_asked()
    ensures { (r : Request) (c : ChipData) (turns : List Turn) → AlwaysDoes r c turns }
{}

/// The condition of the driver's calls holds of a new transaction where nothing is on its way, and the controller's
/// turns and pushed codes keep it.
pub fn law_stands()
    ensures { (t : TransactionData) (c : ChipData) → StandsOn t c }
{}

/// Where the condition of the driver's calls holds, the controller makes its move of the request and no other.
pub fn law_controller_moves()
    ensures { (t : TransactionData) (c : ChipData) → MovesAsAsked t c }
{}

/// Two outcomes are equal exactly where they are the same.
pub fn law_same_outcome(first: AdvanceOutcome, second: AdvanceOutcome) -> bool
    ensures { IsTrue result ↔ (first ≡ second) }
{
    first == second
}
