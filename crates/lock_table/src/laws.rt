//! Laws of the places of pins and of the actors in a table's root: facts for the proofs of the crates above, which
//! cost nothing to call.
ghost use Rattle.std.specs.Prelude.{◌≡◌, List, Some, false, true};
ghost use Rattle.acpi_regs.specs.Actor.{same_actor};
ghost use Rattle.acpi_regs.specs.declared.actor.Actor.{Actor};
ghost use Rattle.lock_table.specs.declared.view.Part.{Part};
ghost use Rattle.lock_table.specs.Views.{find, fresh, fresh_parts, is_known, remove};
ghost use Rattle.lock_table.specs.Bits.{PlacesAreDistinct, PlacesFit};
ghost use Rattle.acpi_regs.specs.Comparisons.{IsExact};
ghost use Rattle.lock_table.specs.contracts.words.AttemptPartialEq.TheImpl as attempt_eq;

use crate::Attempt;

/// Each event has a bit of its own in one of the five words.
pub fn law_places()
    ensures distinct { PlacesAreDistinct }
    ensures fit { PlacesFit }
{}

/// Two answers are `==` exactly where they are the same.
pub fn law_equality()
    ensures { IsExact Attempt (attempt_eq.ghosts).eq }
{}

/// The root of a new table has each actor that there is, and those that are not split stay.
pub fn law_root()
    ensures first { (a : Actor) → is_known a ≡ true → find a fresh_parts ≡ Some (fresh a) }
    ensures stays { (a b : Actor) (ps : List Part) → same_actor a b ≡ false → find b (remove a ps) ≡ find b ps }
{}
