ghost use Rattle.std.specs.Prelude.{◌≡◌};
ghost use Rattle.acpi_regs.specs.Phases.{allows, is_idle, lock_deed, moved};

use crate::{Deed, Event};

/// What a worker or a firmware thread is doing with the Global Lock (ACPI 6.5, section 5.2.10.1).
///
/// A load and an exchange of the lock's word lead from `Seeking` to `Won` or to `Marked`. A release leads from `Quit`
/// to `Gone`. Every other change of phase is an entry.
#[derive(Clone, Copy, Debug, PartialEq, Eq)]
pub enum LockPhase {
    /// It does not compete.
    Idle,
    /// It competes, and has loaded this word, if any.
    Seeking(Option<u32>),
    /// Its exchange found the lock owned, and set Pending.
    Marked,
    /// It waits for the signal of a release.
    Waiting,
    /// Its exchange took the lock.
    Won,
    /// It owns the lock.
    Owning,
    /// It has disowned the lock, and is about to release the word.
    Quit,
    /// It has released the word. True if Pending was set there.
    Gone(bool),
}

impl LockPhase {
    /// Whether the phase allows an entry. A phase allows at most one of the lock's entries, and all other entries.
    pub fn allows(self, deed: Deed) -> bool
        ensures { result ≡ allows self deed }
    {
        match deed {
            Deed::Seek => self.is_idle(),
            Deed::Busy => matches!(self, LockPhase::Marked),
            Deed::Woken => matches!(self, LockPhase::Waiting),
            Deed::Own => matches!(self, LockPhase::Won),
            Deed::Disown => matches!(self, LockPhase::Owning),
            Deed::Leave(true) => matches!(self, LockPhase::Gone(true)),
            Deed::Leave(false) => matches!(self, LockPhase::Gone(false)),
            _ => true,
        }
    }

    /// The lock's entry that the phase allows, if it allows one.
    pub fn lock_deed(self) -> Option<Deed>
        ensures { result ≡ lock_deed self }
    {
        match self {
            LockPhase::Idle => Some(Deed::Seek),
            LockPhase::Marked => Some(Deed::Busy),
            LockPhase::Waiting => Some(Deed::Woken),
            LockPhase::Won => Some(Deed::Own),
            LockPhase::Owning => Some(Deed::Disown),
            LockPhase::Gone(signals) => Some(Deed::Leave(signals)),
            LockPhase::Seeking(_) | LockPhase::Quit => None,
        }
    }

    /// The phase after an entry of its actor.
    pub fn moved(self, deed: Deed) -> LockPhase
        ensures { result ≡ moved deed self }
    {
        match deed {
            Deed::Seek | Deed::Woken => LockPhase::Seeking(None),
            Deed::Busy => LockPhase::Waiting,
            Deed::Own => LockPhase::Owning,
            Deed::Disown => LockPhase::Quit,
            Deed::Leave(_) => LockPhase::Idle,
            _ => self,
        }
    }

    /// Whether the actor does not compete.
    pub fn is_idle(self) -> bool
        ensures { result ≡ is_idle self }
    {
        matches!(self, LockPhase::Idle)
    }
}

/// A pulse of a device.
#[derive(Clone, Copy, Debug, PartialEq, Eq)]
pub struct Pulse {
    /// The event whose pin was set.
    pub event: Event,
    /// Whether the pin was clear before.
    pub clear: bool,
}
