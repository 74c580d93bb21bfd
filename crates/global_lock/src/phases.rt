//! The phases of an actor towards the Global Lock (ACPI 6.5, section 5.2.10.1), as types.
ghost use Rattle.std.specs.Prelude.{◌≡◌};
ghost use Rattle.acpi_regs.specs.declared.phase.LockPhase.TheVariants as lock;
ghost use Rattle.lock_table.specs.Views.{ForOne, IsSeeking};
ghost use Rattle.global_lock.specs.Phases.{HasReleased, IsIn, IsSeatOf};

use acpi_regs::Actor;
use lock_table::TableSeat;
use std::marker::Model;

/// The actor of a seat that has one.
fn actor_of(seat: &TableSeat) -> Actor
    requires { ForOne (λ p. Unit {0}) seat.now.view.who }
    ensures { IsSeatOf (λ p. Unit {0}) result seat.now.view }
{
    let Some(actor) = seat.actor() else {
        unreachable!()
    };
    actor
}

/// It competes for the lock.
#[derive(Debug, Drop)]
pub struct Seeking {
    actor: Actor,
}

impl Model for Seeking {
    ghost use Rattle.acpi_regs.specs.declared.actor.Actor.{Actor};

    ghost Value = { Actor };

    ghost view = { λ s. s.actor };
}

impl Seeking {
    /// The phase of a seat's actor, which is in it.
    pub fn of(seat: &TableSeat) -> Seeking
        requires { ForOne (IsSeeking) seat.now.view.who }
        ensures { IsSeatOf (IsSeeking) result seat.now.view }
    {
        Seeking {
            actor: actor_of(seat),
        }
    }

    /// The actor.
    pub fn actor(&self) -> Actor
        ensures { result ≡ self.now }
    {
        self.actor
    }
}

/// Its exchange found the lock owned, and set Pending.
#[derive(Debug, Drop)]
pub struct Marked {
    actor: Actor,
}

impl Model for Marked {
    ghost use Rattle.acpi_regs.specs.declared.actor.Actor.{Actor};

    ghost Value = { Actor };

    ghost view = { λ s. s.actor };
}

impl Marked {
    /// The phase of a seat's actor, which is in it.
    pub fn of(seat: &TableSeat) -> Marked
        requires { ForOne (IsIn lock.Marked) seat.now.view.who }
        ensures { IsSeatOf (IsIn lock.Marked) result seat.now.view }
    {
        Marked {
            actor: actor_of(seat),
        }
    }

    /// The actor.
    pub fn actor(&self) -> Actor
        ensures { result ≡ self.now }
    {
        self.actor
    }
}

/// It waits for the signal of a release.
#[derive(Debug, Drop)]
pub struct Waiting {
    actor: Actor,
}

impl Model for Waiting {
    ghost use Rattle.acpi_regs.specs.declared.actor.Actor.{Actor};

    ghost Value = { Actor };

    ghost view = { λ s. s.actor };
}

impl Waiting {
    /// The phase of a seat's actor, which is in it.
    pub fn of(seat: &TableSeat) -> Waiting
        requires { ForOne (IsIn lock.Waiting) seat.now.view.who }
        ensures { IsSeatOf (IsIn lock.Waiting) result seat.now.view }
    {
        Waiting {
            actor: actor_of(seat),
        }
    }

    /// The actor.
    pub fn actor(&self) -> Actor
        ensures { result ≡ self.now }
    {
        self.actor
    }
}

/// Its exchange took the lock.
#[derive(Debug, Drop)]
pub struct Won {
    actor: Actor,
}

impl Model for Won {
    ghost use Rattle.acpi_regs.specs.declared.actor.Actor.{Actor};

    ghost Value = { Actor };

    ghost view = { λ s. s.actor };
}

impl Won {
    /// The phase of a seat's actor, which is in it.
    pub fn of(seat: &TableSeat) -> Won
        requires { ForOne (IsIn lock.Won) seat.now.view.who }
        ensures { IsSeatOf (IsIn lock.Won) result seat.now.view }
    {
        Won {
            actor: actor_of(seat),
        }
    }

    /// The actor.
    pub fn actor(&self) -> Actor
        ensures { result ≡ self.now }
    {
        self.actor
    }
}

/// It owns the lock.
#[derive(Debug, Drop)]
pub struct Owning {
    actor: Actor,
}

impl Model for Owning {
    ghost use Rattle.acpi_regs.specs.declared.actor.Actor.{Actor};

    ghost Value = { Actor };

    ghost view = { λ s. s.actor };
}

impl Owning {
    /// The phase of a seat's actor, which is in it.
    pub fn of(seat: &TableSeat) -> Owning
        requires { ForOne (IsIn lock.Owning) seat.now.view.who }
        ensures { IsSeatOf (IsIn lock.Owning) result seat.now.view }
    {
        Owning {
            actor: actor_of(seat),
        }
    }

    /// The actor.
    pub fn actor(&self) -> Actor
        ensures { result ≡ self.now }
    {
        self.actor
    }
}

/// It has disowned the lock, and is about to release its word.
#[derive(Debug, Drop)]
pub struct Quit {
    actor: Actor,
}

impl Model for Quit {
    ghost use Rattle.acpi_regs.specs.declared.actor.Actor.{Actor};

    ghost Value = { Actor };

    ghost view = { λ s. s.actor };
}

impl Quit {
    /// The phase of a seat's actor, which is in it.
    pub fn of(seat: &TableSeat) -> Quit
        requires { ForOne (IsIn lock.Quit) seat.now.view.who }
        ensures { IsSeatOf (IsIn lock.Quit) result seat.now.view }
    {
        Quit {
            actor: actor_of(seat),
        }
    }

    /// The actor.
    pub fn actor(&self) -> Actor
        ensures { result ≡ self.now }
    {
        self.actor
    }
}

/// It has released the lock's word, and is about to leave.
#[derive(Debug, Drop)]
pub struct Gone {
    actor: Actor,
    signal: bool,
}

impl Model for Gone {
    ghost use Rattle.global_lock.specs.Phases.{Released};

    ghost Value = { Released };

    ghost view = { λ s. record { actor = s.actor; signal = s.signal } };
}

impl Gone {
    /// The phase of a seat's actor, which is in it.
    pub fn of(seat: &TableSeat) -> Gone
        requires { ForOne (λ p. (found : _) × IsIn (lock.Gone found) p) seat.now.view.who }
        ensures { HasReleased result seat.now.view }
    {
        Gone {
            actor: actor_of(seat),
            signal: seat.signal(),
        }
    }

    /// The actor.
    pub fn actor(&self) -> Actor
        ensures { result ≡ self.now.actor }
    {
        self.actor
    }

    /// Whether the release found Pending, so that the other side has to be signalled.
    pub fn signal(&self) -> bool
        ensures { result ≡ self.now.signal }
    {
        self.signal
    }
}
