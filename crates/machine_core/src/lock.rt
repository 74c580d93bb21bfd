//! Who owns the Global Lock, who competes for it, and who was signalled (ACPI 6.5, section 5.2.10.1).
ghost use Rattle.std.specs.Prelude.{◌≡◌, [], true};
ghost use Rattle.acpi_regs.specs.Event.{is_gbl};
ghost use Rattle.machine_core.specs.Lock.{lock_after, lock_of, seeker_on, wake_on};

use acpi_regs::{Actor, Deed, Event, Fixed, Side};

/// The Global Lock as the journal tells it.
#[derive(Clone, Copy, Debug)]
pub struct LockState {
    pub owner: Option<Actor>,
    pub os_seeker: Option<Actor>,
    pub firmware_seeker: Option<Actor>,
    pub os_wake: bool,
    pub firmware_wake: bool,
}

/// Whether this is the event of the Global Lock's release.
fn is_lock_event(event: Event) -> bool
    ensures { result ≡ is_gbl event }
{
    event == Event::Fixed(Fixed::Gbl)
}

impl LockState {
    /// Nobody has touched the lock.
    pub fn new() -> LockState
        ensures { result ≡ lock_of [] }
    {
        LockState {
            owner: None,
            os_seeker: None,
            firmware_seeker: None,
            os_wake: false,
            firmware_wake: false,
        }
    }

    /// The actor that competes on a side.
    pub fn seeker(self, side: Side) -> Option<Actor>
        ensures { result ≡ seeker_on self side }
    {
        match side {
            Side::Os => self.os_seeker,
            Side::Firmware => self.firmware_seeker,
        }
    }

    /// Whether a side was signalled.
    pub fn wake(self, side: Side) -> bool
        ensures { result ≡ wake_on self side }
    {
        match side {
            Side::Os => self.os_wake,
            Side::Firmware => self.firmware_wake,
        }
    }

    /// The lock after an entry.
    pub fn after(self, actor: Actor, deed: Deed) -> LockState
        ensures { result ≡ lock_after actor deed self }
    {
        match deed {
            Deed::Seek => self.sought(actor),
            Deed::Woken => self.woken(actor),
            Deed::Own => LockState {
                owner: Some(actor),
                ..self
            },
            Deed::Disown => LockState {
                owner: None,
                ..self
            },
            Deed::Leave(signals) => self.left(actor, signals),
            Deed::Claim(event) => self.claimed(event),
            _ => self,
        }
    }

    fn sought(self, actor: Actor) -> LockState
        ensures { result ≡ lock_after actor Deed.Seek self }
    {
        match actor.side() {
            Some(Side::Os) => LockState {
                os_seeker: Some(actor),
                ..self
            },
            Some(Side::Firmware) => LockState {
                firmware_seeker: Some(actor),
                ..self
            },
            None => self,
        }
    }

    // A woken takes the signal of its side.
    fn woken(self, actor: Actor) -> LockState
        ensures { result ≡ lock_after actor Deed.Woken self }
    {
        match actor.side() {
            Some(Side::Os) => LockState {
                os_wake: false,
                ..self
            },
            Some(Side::Firmware) => LockState {
                firmware_wake: false,
                ..self
            },
            None => self,
        }
    }

    // A signal of the OS wakes the firmware at once. That of the firmware is an event, which the OS claims first.
    fn left(self, actor: Actor, signals: bool) -> LockState
        ensures { result ≡ lock_after actor (Deed.Leave signals) self }
    {
        match actor.side() {
            Some(Side::Os) => LockState {
                os_seeker: None,
                firmware_wake: signals || self.firmware_wake,
                ..self
            },
            Some(Side::Firmware) => LockState {
                firmware_seeker: None,
                ..self
            },
            None => self,
        }
    }

    fn claimed(self, event: Event) -> LockState
        ensures { (actor : Actor) → result ≡ lock_after actor (Deed.Claim event) self }
    {
        if is_lock_event(event) {
            LockState {
                os_wake: true,
                ..self
            }
        } else {
            self
        }
    }
}
