//! The rules of devices and of the schedule.
ghost use Rattle.std.specs.Prelude.{◌≡◌, Bool, List, Option, None, Some, position, not, map};
ghost use Rattle.machine_desc.specs.Machine.{listed_part};
ghost use Rattle.machine_desc.specs.Rules as rules;

use crate::items_rules::{ItemRules, broken, items_fault};
use crate::known::KnownEvents;
use crate::{BadMachine, Items, Part, Rule, Spot};
use acpi_regs::{Actor, Event};

/// The place of the first pulse of an event that the machine does not know.
fn unknown_pulse(events: &KnownEvents<'_>, pulses: &[Event]) -> Option<usize>
    ensures { result ≡ rules.unknown_pulse (map listed_part events.now.events.now) events.now.own pulses.now }
{
    pulses.iter().position(|event| !events.knows(*event))
}

/// The rules of a device.
#[derive(Clone, Copy)]
struct DeviceRules<'a> {
    events: &'a KnownEvents<'a>,
}

impl ItemRules<Items<Event>> for DeviceRules<'_> {
    ghost use Rattle.std.specs.Prelude.{map};
    ghost use Rattle.machine_desc.specs.Machine.{listed_part};
    ghost use Rattle.machine_desc.specs.Rules as rules;

    ghost fault = { λ s before pulses. rules.device_rule (map listed_part s.events.now.events.now) s.events.now.own
        before pulses };

    fn fault(&self, _: &[Items<Event>], pulses: &Items<Event>) -> Option<Spot> {
        let pulses = pulses.as_slice();
        if pulses.len() > 4096 {
            return broken(Rule::LongList);
        }
        let place = unknown_pulse(self.events, pulses)?;
        Some(Spot {
            rule: Rule::UnknownEvent,
            op: place as u32,
        })
    }
}

/// The first rule that the devices break.
#[tactic(auto, unfolding(crate::specs::Rules::devices_fault))]
pub fn devices_fault(events: &KnownEvents<'_>, devices: &[Items<Event>]) -> Option<BadMachine>
    ensures { result ≡ rules.devices_fault (map listed_part events.now.events.now) events.now.own devices.now }
{
    items_fault(Part::Device, 8, &DeviceRules { events }, devices)
}

/// How many actors of each kind a machine has.
#[derive(Clone, Copy)]
pub struct Counts {
    pub workers: usize,
    pub controller: bool,
    pub devices: usize,
    pub firmware: usize,
}

impl Counts {
    /// Whether the machine has the actor.
    fn has(&self, actor: Actor) -> bool
        ensures { result ≡ rules.has_actor self.now actor }
    {
        match actor {
            Actor::Int => true,
            Actor::Poll => true,
            Actor::Worker(number) => usize::from(number) < self.workers,
            Actor::Ec => self.controller,
            Actor::Device(number) => usize::from(number) < self.devices,
            Actor::Firmware(number) => usize::from(number) < self.firmware,
        }
    }
}

impl ItemRules<Actor> for Counts {
    ghost use Rattle.machine_desc.specs.Rules as rules;

    ghost fault = { λ s before a. rules.step_rule s before a };

    fn fault(&self, _: &[Actor], actor: &Actor) -> Option<Spot> {
        if self.has(*actor) {
            return None;
        }
        broken(Rule::UnknownActor)
    }
}

/// The first rule that the schedule breaks.
#[tactic(auto, unfolding(crate::specs::Rules::schedule_fault))]
pub fn schedule_fault(counts: &Counts, schedule: &[Actor]) -> Option<BadMachine>
    ensures { result ≡ rules.schedule_fault counts.now schedule.now }
{
    items_fault(Part::Schedule, 65_536, counts, schedule)
}
