//! Entries that are made where they are allowed.
ghost use Rattle.std.specs.Prelude.{◌≡◌, ◌++◌, reverse};
ghost use Rattle.machine_history.specs.Steps.{otherwise, where_may};
ghost use Rattle.world.specs.Duties.{IsAllowed, added, did};

use crate::Acted;
use acpi_regs::{Actor, Deed, Entry};
use machine_core::Board;

/// The deed, where the board allows it to its actor now.
pub fn where_may(board: &Board, actor: Actor, deed: Option<Deed>) -> Option<Deed>
    ensures { result ≡ where_may board.now.machine (reverse board.now.entries) actor deed }
{
    match deed {
        Some(deed) => {
            if board.refusal(&Entry { actor, deed }).is_none() {
                Some(deed)
            } else {
                None
            }
        }
        None => None,
    }
}

/// The first of two deeds that is there.
pub fn otherwise(first: Option<Deed>, next: Option<Deed>) -> Option<Deed>
    ensures { result ≡ otherwise first next }
{
    first.or(next)
}

/// Adds the entry of an actor to the board, where it makes one. Whether it did.
pub fn add(board: &mut Board, actor: Actor, made: Option<Deed>) -> Acted
    requires { IsAllowed board.old.machine (reverse board.old.entries) actor made }
    ensures board { board.new ≡ record board.old { entries = board.old.entries ++ added actor made } }
    ensures answer { result ≡ did (added actor made) }
{
    board.law_legal();
    match made {
        Some(deed) => {
            board.apply(Entry { actor, deed });
            Acted::Did
        }
        None => Acted::Nothing,
    }
}
