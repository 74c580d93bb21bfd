//! Which events a machine knows, and what its scripts may name.
ghost use Rattle.std.specs.Prelude.{◌≡◌, ◌&&◌, List, Option, map};
ghost use Rattle.std.specs.List.{list_any};
ghost use Rattle.acpi_regs.specs.Event.{is_gbl, same_event};
ghost use Rattle.machine_desc.specs.Machine.{listed_part};
ghost use Rattle.machine_desc.specs.Rules as rules;

use crate::EventPart;
use acpi_regs::{Event, Fixed};
use handler_script::{EventRules, Op};

/// What a description says of events: those that have a handler, and that of the controller, where there is one.
#[derive(Clone, Copy)]
pub struct KnownEvents<'a> {
    pub events: &'a [EventPart],
    pub own: Option<Event>,
}

/// Whether the two are one event.
fn same_event(one: Event, other: Event) -> bool
    ensures { result ≡ same_event one other }
{
    one == other
}

/// Whether the event is that of the controller.
pub fn is_event_of(event: Event, own: Option<Event>) -> bool
    ensures { result ≡ rules.is_event_of event own }
{
    match own {
        Some(other) => same_event(other, event),
        None => false,
    }
}

/// Whether one of these parts names the event.
fn any_names(events: &[EventPart], event: Event) -> bool
    ensures { result ≡ list_any (λ x. same_event x.event event) events.now }
{
    events.iter().any(|part| same_event(part.event, event))
}

/// Whether one of these parts names the event, and says that it is level-triggered.
fn any_levels(events: &[EventPart], event: Event) -> bool
    ensures { result ≡ list_any (λ x. same_event x.event event && x.level) events.now }
{
    events
        .iter()
        .any(|part| same_event(part.event, event) && part.level)
}

/// Whether the event is listed among these.
pub fn is_listed(events: &[EventPart], event: Event) -> bool
    ensures { result ≡ rules.is_listed (map listed_part events.now) event }
{
    any_names(events, event)
}

/// Whether the event is listed among these as level-triggered.
fn is_level(events: &[EventPart], event: Event) -> bool
    ensures { result ≡ rules.is_level (map listed_part events.now) event }
{
    any_levels(events, event)
}

impl KnownEvents<'_> {
    /// Whether the machine knows the event.
    pub fn knows(&self, event: Event) -> bool
        ensures { result ≡ rules.is_known (map listed_part self.now.events.now) self.now.own event }
    {
        same_event(event, Event::Fixed(Fixed::Gbl))
            || is_event_of(event, self.own)
            || is_listed(self.events, event)
    }
}

impl EventRules for KnownEvents<'_> {
    ghost use Rattle.std.specs.Prelude.{map};
    ghost use Rattle.machine_desc.specs.Machine.{listed_part};
    ghost use Rattle.machine_desc.specs.Rules as rules;

    ghost forbids = { λ s o. rules.forbids (map listed_part s.events.now) s.own o };

    #[tactic(auto, unfolding(crate::specs::Rules::forbids))]
    fn forbids(&self, op: Op) -> bool {
        match op {
            Op::Raise(event) => !self.knows(event),
            Op::Up(event) => !is_listed(self.events, event),
            Op::Down(event) => !is_listed(self.events, event),
            Op::Assert(event) => !is_level(self.events, event),
            Op::Drop(event) => !is_level(self.events, event),
            Op::Push(_) => self.own.is_none(),
            _ => false,
        }
    }
}
