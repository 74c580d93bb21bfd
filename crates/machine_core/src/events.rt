//! The registers of all events, and how many pulses of each have no latch yet.
ghost use Rattle.std.specs.Prelude.{◌≡◌, ◌+◌, ◌<◌, ◌≤◌, ◌^◌, ℕ, [], All, IfOk, List, length, map, slice_index, sum_by};
ghost use Rattle.acpi_regs.specs.declared.event.Event.{Event};
ghost use Rattle.acpi_regs.specs.Event.{event_rank};
ghost use Rattle.event_chip.specs.Chip.{slot_of};
ghost use Rattle.machine_desc.specs.Kept.{own_event};
ghost use Rattle.machine_history.specs.Events.{slot_after};
ghost use Rattle.machine_history.specs.Machine.{pulses_of, times};
ghost use Rattle.machine_core.specs.Events.{IsEvent, IsEvents, unlatched_after, unlatched_of};

use acpi_regs::{Deed, Event, Listed, Memory};
use event_chip::{EventChip, rank_of};
use machine_desc::{Items, ListedEvent, Machine};
use machine_history::Touched;
use std::alloc::{AllocError, Global};

/// How many events there can be: five fixed ones, and GPEs 0 to 255.
const EVENTS: usize = 261;

/// What is kept of every event.
#[derive(Drop)]
pub struct Events {
    pub chip: EventChip,
    pub unlatched: Vec<u32>,
}

impl Events {
    /// The events of a machine on which nothing has happened.
    pub fn new(alloc: Global, machine: &Machine) -> Result<Events, Memory>
        ensures { IfOk result (λ events. IsEvents machine.now [] events) }
    {
        let listed = listed_of(alloc, machine.events())?;
        let chip = EventChip::new(alloc, listed.as_slice(), own_event(machine))?;
        machine.law_rules();
        let unlatched = pulses_in(alloc, machine.devices())?;
        Ok(Events { chip, unlatched })
    }

    /// How many pulses of an event have no latch.
    pub fn unlatched(&self, event: Event) -> u32
        requires { length self.now.unlatched.items ≡ 261 }
        ensures { result ≡ unlatched_of self.now.unlatched.items event }
    {
        self.unlatched[rank_of(event)]
    }

    /// Makes what an entry does to the event that it touches, where it touches one.
    pub fn touch(&mut self, touched: Option<Touched>, deed: Deed)
        requires { length self.old.unlatched.items ≡ 261 }
        ensures size { length self.new.unlatched.items ≡ 261 }
        ensures slots { (n : Event) → slot_of self.new.chip n ≡ slot_after n touched (slot_of self.old.chip n) }
        ensures unlatched { (n : Event) → IsEvent n → unlatched_of self.new.unlatched.items n
            ≡ unlatched_after n deed (unlatched_of self.old.unlatched.items n) }
    {
        touch_one(&mut self.chip, touched);
        latch(&mut self.unlatched, deed);
    }
}

fn touch_one(chip: &mut EventChip, touched: Option<Touched>)
    ensures { (n : Event) → slot_of chip.new n ≡ slot_after n touched (slot_of chip.old n) }
{
    if let Some(touched) = touched {
        chip.touch(touched.by, touched.event);
    }
}

/// A latch takes a pulse.
fn latch(unlatched: &mut [u32], deed: Deed)
    requires { length unlatched.old ≡ 261 }
    ensures { (n : Event) → IsEvent n
        → unlatched_of unlatched.new n ≡ unlatched_after n deed (unlatched_of unlatched.old n) }
{
    if let Deed::Latch(event) = deed {
        let rank = rank_of(event);
        unlatched[rank] = unlatched[rank].saturating_sub(1);
    }
}

/// The event of a machine's controller.
pub fn own_event(machine: &Machine) -> Option<Event>
    ensures { result ≡ own_event machine.now }
{
    match machine.controller() {
        Some(controller) => Some(controller.event),
        None => None,
    }
}

/// The listed events without their handlers.
fn listed_of(alloc: Global, events: &[ListedEvent]) -> Result<Vec<Listed>, AllocError>
    ensures { IfOk result (λ listed. listed.items ≡ map (λ e. e.listed) events.now) }
{
    events.iter().map(|event| event.listed).collect(alloc)
}

/// How many pulses of each event stand in these lists.
fn pulses_in(alloc: Global, devices: &[Items<Event>]) -> Result<Vec<u32>, AllocError>
    requires few { length devices.now ≤ 8 }
    requires short { All (λ pulses. length pulses ≤ 4096) devices.now }
    ensures size { IfOk result (λ counts. length counts.items ≡ 261) }
    ensures counts { IfOk result (λ counts. (n : Event) → IsEvent n
        → unlatched_of counts.items n ≡ sum_by (times n) devices.now) }
{
    let mut counts = no_pulses(alloc)?;
    add_devices(&mut counts, devices);
    Ok(counts)
}

fn no_pulses(alloc: Global) -> Result<Vec<u32>, AllocError>
    ensures size { IfOk result (λ counts. length counts.items ≡ 261) }
    ensures counts { IfOk result (λ counts. (k : ℕ) → slice_index counts.items k ≡ 0) }
{
    vec![in alloc; 0; EVENTS]
}

/// Counts the pulses of all devices, where nothing was counted yet.
fn add_devices(counts: &mut [u32], devices: &[Items<Event>])
    requires size { length counts.old ≡ 261 }
    requires zero { (k : ℕ) → slice_index counts.old k ≡ 0 }
    requires few { length devices.now ≤ 8 }
    requires short { All (λ pulses. length pulses ≤ 4096) devices.now }
    ensures { (n : Event) → IsEvent n → unlatched_of counts.new n ≡ sum_by (times n) devices.now }
{
    for pulses in devices {
        add_pulses(counts, pulses.as_slice());
    }
}

/// Counts the pulses of a list.
fn add_pulses(counts: &mut [u32], pulses: &[Event])
    requires size { length counts.old ≡ 261 }
    requires room { (k : ℕ) → slice_index counts.old k + length pulses.now < 2 ^ 32 }
    ensures counts { (n : Event) → IsEvent n
        → unlatched_of counts.new n ≡ unlatched_of counts.old n + times n pulses.now }
    ensures most { (k : ℕ) → slice_index counts.new k ≤ slice_index counts.old k + length pulses.now }
{
    for event in pulses {
        counts[rank_of(*event)] += 1;
    }
}
