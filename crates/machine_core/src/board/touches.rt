//! What an entry does to events and jobs.
ghost use Rattle.std.specs.Prelude.{◌≡◌, ◌∷◌, reverse, length, if◌then◌else◌};
ghost use Rattle.acpi_regs.specs.declared.actor.Side.TheVariants as side;
ghost use Rattle.acpi_regs.specs.Actor.{stands_on};
ghost use Rattle.acpi_regs.specs.Event.{gbl};
ghost use Rattle.event_chip.specs.declared.state.Touch.TheVariants as touch;
ghost use Rattle.machine_history.specs.Events as events;
ghost use Rattle.machine_history.specs.Jobs as jobs;
ghost use Rattle.machine_history.specs.Machine as machines;
ghost use Rattle.machine_history.specs.Wire.{asks_code, codes, open_of};

use super::Board;
use crate::events::own_event;
use crate::same::names;
use acpi_regs::{Actor, Deed, Effect, Entry, Event, Fixed};
use event_chip::Touch;
use machine_desc::Machine;
use machine_history::{Job, Touched};

impl Board {
    /// The event that an entry would touch, and how.
    pub(super) fn touched(&self, entry: Entry) -> Option<Touched>
        ensures { result ≡ events.touched self.now.machine (reverse self.now.entries) entry }
    {
        match entry.deed {
            Deed::Raise(event) => does(Touch::Raise, event),
            Deed::Latch(event) => does(Touch::Raise, event),
            Deed::Assert(event) => does(Touch::Assert, event),
            Deed::Drop(event) => does(Touch::Drop, event),
            Deed::Claim(event) => does(Touch::Claim, event),
            Deed::Finish(job) => does_to(Touch::Finish, self.event_ended(job)),
            Deed::Up(event) => does(Touch::Up, event),
            Deed::Down(event) => does(Touch::Down, event),
            Deed::Leave(true) => released(entry.actor),
            Deed::Push(_) => does_to(Touch::Raise, own_event(&self.machine)),
            Deed::Ctl(effect) => self.moved(effect),
            _ => None,
        }
    }

    /// The job that an entry would make.
    pub(super) fn made(&self, entry: Entry) -> Option<Job>
        ensures { result ≡ jobs.made self.now.machine (reverse self.now.entries) entry }
    {
        match entry.deed {
            Deed::Claim(event) => self.claimed_job(event),
            Deed::Take(byte) => self.taken_job(byte),
            _ => None,
        }
    }

    fn event_ended(&self, job: u32) -> Option<Event>
        ensures { result ≡ jobs.event_ended (jobs.jobs self.now.machine (reverse self.now.entries)) job }
    {
        self.jobs.event_ended(job)
    }

    /// What a move of the controller raises.
    fn moved(&self, effect: Effect) -> Option<Touched>
        ensures { result ≡ events.touched self.now.machine (reverse self.now.entries)
            (record { actor = Actor.Ec; deed = Deed.Ctl effect }) }
    {
        if self.is_loud(effect) {
            does_to(Touch::Raise, own_event(&self.machine))
        } else {
            None
        }
    }

    fn is_loud(&self, effect: Effect) -> bool
        ensures { result ≡ events.is_loud self.now.machine (open_of (reverse self.now.entries))
            (codes (reverse self.now.entries)) effect }
    {
        match effect {
            Effect::Calm => false,
            Effect::Out(_) => {
                !is_silent(&self.machine) || (self.asks_code() && 1 < self.waiting_codes())
            }
            _ => !is_silent(&self.machine),
        }
    }

    fn claimed_job(&self, event: Event) -> Option<Job>
        ensures { result ≡ jobs.claimed_job self.now.machine (codes (reverse self.now.entries)) event }
    {
        if self.lists(event) {
            return Some(Job::Event(event));
        }
        if self.is_own(event) && self.waiting_codes() != 0 {
            return Some(Job::Query);
        }
        None
    }

    /// The run of the code that a take carries, where its request is a query.
    fn taken_job(&self, byte: Option<u8>) -> Option<Job>
        ensures { result ≡ jobs.taken_job (open_of (reverse self.now.entries)) byte }
    {
        match byte {
            Some(code) => {
                if self.asks_code() && code != 0 {
                    Some(Job::Code(code))
                } else {
                    None
                }
            }
            None => None,
        }
    }

    /// Whether the machine lists the event: it has a handler, and a count of references.
    pub fn lists(&self, event: Event) -> bool
        ensures { result ≡ machines.lists self.now.machine event }
    {
        self.events.chip.slot(event).kind.is_listed()
    }

    /// Whether the event is the controller's.
    fn is_own(&self, event: Event) -> bool
        ensures { result ≡ machines.is_own self.now.machine event }
    {
        names(own_event(&self.machine), event)
    }

    fn waiting_codes(&self) -> u32
        ensures { result ≡ length (codes (reverse self.now.entries)) }
    {
        self.wire.codes()
    }

    fn asks_code(&self) -> bool
        ensures { result ≡ asks_code (open_of (reverse self.now.entries)) }
    {
        self.wire.asks_code()
    }
}

fn does(by: Touch, event: Event) -> Option<Touched>
    ensures { result ≡ events.does by event }
{
    Some(Touched { event, by })
}

fn does_to(by: Touch, event: Option<Event>) -> Option<Touched>
    ensures { result ≡ events.does_to by event }
{
    match event {
        Some(event) => does(by, event),
        None => None,
    }
}

/// What a signalling leave touches: one of the firmware raises the Global Lock's event.
fn released(actor: Actor) -> Option<Touched>
    ensures { result ≡ (if stands_on side.Firmware actor then events.does touch.Raise gbl else None) }
{
    match actor {
        Actor::Firmware(_) => does(Touch::Raise, Event::Fixed(Fixed::Gbl)),
        _ => None,
    }
}

fn is_silent(machine: &Machine) -> bool
    ensures { result ≡ machines.is_silent machine.now.controller }
{
    match machine.controller() {
        Some(controller) => controller.silent,
        None => true,
    }
}
