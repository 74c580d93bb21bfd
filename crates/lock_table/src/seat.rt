ghost use Rattle.lock_table.specs.Views.{IsOwn};

use crate::view::View;
use acpi_regs::Actor;
use atomic_table::Badge;
use std::marker::Model;

/// One actor's pass to a table, or the root's.
///
/// Contracts see its table, its number there, and what it knows: its actor with phase and entries, and the history
/// that it has seen.
#[derive(Drop)]
pub struct TableSeat {
    pub(crate) badge: Badge<View>,
    /// The actor; none for the root.
    pub(crate) actor: Option<Actor>,
    /// What the actor's last release found.
    pub(crate) signal: bool,
}

impl Model for TableSeat {
    ghost use Rattle.lock_table.specs.Calls.{IsSeat, Pass, pass_of};

    ghost Value = { Pass };

    ghost view = { λ s. pass_of s.badge };

    ghost invariant = { λ s. IsSeat s.badge s.actor s.signal };
}

impl TableSeat {
    ghost use Rattle.std.specs.Prelude.{◌≡◌};
    ghost use Rattle.lock_table.specs.Calls.{KnowsSignal, actor_in};

    /// The seat's actor; none for the root.
    pub fn actor(&self) -> Option<Actor>
        ensures { result ≡ actor_in self.now.view.who }
    {
        self.actor
    }

    /// While its actor has released the Global Lock's word and not left: whether that word was pending.
    pub fn signal(&self) -> bool
        ensures { KnowsSignal result self.now.view.who }
    {
        self.signal
    }
}

/// The board while its seat has the turn.
pub struct Turn<B> {
    pub(crate) board: B,
}

/// What trying to take the turn comes to.
pub enum Entered<B> {
    /// The turn is the seat's.
    Turn(Turn<B>),
    /// Another seat has it.
    Out,
}

impl TableSeat {
    /// What holds of every seat: the phase of each actor is of its kind, and no pins are held without the turn.
    pub fn law_own(&self)
        ensures { IsOwn self.now.view }
    {
        let _badge = &self.badge;
    }
}
