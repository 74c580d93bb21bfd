ghost use Rattle.std.specs.Prelude.{◌≡◌, ◌<◌, ◌||◌, IfOk, ℕ, false, if◌then◌else◌, length, slice_index, slice_index_or};
ghost use Rattle.acpi_regs.specs.Event.{event_rank, is_gbl, same_event};
ghost use Rattle.acpi_regs.specs.Registers.{place_of};
ghost use Rattle.event_chip.specs.Chip.{always, first_slot, is_controllers, listing, no_slot, slot_of, slot_or};
ghost use Rattle.event_chip.specs.Kept.{IsQuiet, Shows, enables};
ghost use Rattle.event_chip.specs.Places.{rank_in};

use crate::places::Places;
use crate::words::Words;
use crate::{EventKind, Slot, Touch};
use acpi_regs::{Event, Fixed, Listed, Memory};
use std::alloc::{AllocError, Global};
use std::marker::Model;

/// How many events there can be: five fixed ones, and GPEs 0 to 255.
const EVENTS: usize = 261;

/// The registers of every event of a machine.
#[derive(Drop)]
pub struct EventChip {
    slots: Vec<Slot>,
    // The status and enable bits of all events, which follow from the slots.
    words: Words,
}

/// A status word and an enable word: the fixed events by their PM1 bits, or sixteen GPEs (ACPI 6.5, sections 4.8.3.1
/// and 4.8.4.1).
#[derive(Clone, Copy, Debug, PartialEq, Eq)]
pub struct EventWord {
    /// The events that have status.
    pub status: u16,
    /// The events that are enabled.
    pub enable: u16,
}

impl Model for EventChip {
    ghost use Rattle.std.specs.Prelude.{List};
    ghost use Rattle.event_chip.specs.Kept.{IsKept};
    ghost use Rattle.event_chip.specs.declared.state.Slot.{Slot};

    ghost Value = { List Slot };

    ghost view = { λ c. c.slots.items };

    ghost invariant = { λ c. IsKept c.slots.items c.words.status.words c.words.enable.words c.words.summary };
}

impl EventChip {
    ghost use Rattle.std.specs.Prelude.{true};
    ghost use Rattle.event_chip.specs.Chip.{IsFirst, IsKnown, IsLevel, IsListed, Touches, pends};
    ghost use Rattle.event_chip.specs.Kept.{enables, is_set};
    ghost use Rattle.event_chip.specs.State.{is_parked};
    ghost use Rattle.event_chip.specs.Words.{IsWord};
    ghost use Rattle.event_chip.specs.declared.state.Touch.TheVariants as touch;

    /// The chip of a machine that lists these events, with the controller's event if it has a controller. Nothing has
    /// happened yet. If an event is listed twice, the first item counts. The Global Lock's event and the controller's
    /// are always enabled, listed or not.
    ///
    /// # Errors
    /// `Memory` if an allocation fails.
    pub fn new(
        alloc: Global,
        listed: &[Listed],
        controller: Option<Event>,
    ) -> Result<EventChip, Memory>
        ensures { IfOk result (λ chip. (n : Event) → slot_of chip n ≡ first_slot listed.now controller n) }
    {
        let mut enable = Places::new();
        let slots = first_slots(alloc, &mut enable, listed, controller)?;
        let words = Words {
            status: Places::new(),
            enable,
            summary: 0,
        };
        Ok(EventChip { slots, words })
    }

    /// The kind of an event and its registers.
    pub fn slot(&self, event: Event) -> Slot
        ensures { result ≡ slot_of self.now event }
    {
        self.slots[rank_of(event)]
    }

    /// Touches an event, whatever its state. Each call below is one touch, with the condition under which a machine
    /// makes it.
    #[inline(always)]
    pub fn touch(&mut self, touch: Touch, event: Event)
        ensures { Touches touch event self.old self.new }
    {
        let place = place_at(event);
        let rank = rank_of(event);
        let old = self.slots[rank];
        let new = self.slots[rank].touch(touch);
        self.words.follow(touch, place, old, new);
    }

    /// The event happened: its status is set (ACPI 6.5, sections 4.8.3.1 and 4.8.4.1). Requires that the kind of its
    /// `slot` is not `Unknown`.
    #[inline(always)]
    pub fn raise(&mut self, event: Event)
        requires { IsKnown self.old event }
        ensures { Touches touch.Raise event self.old self.new }
    {
        self.touch(Touch::Raise, event)
    }

    /// The line of an event was asserted: its status is set, and its runs are counted from 0. Requires a level event
    /// (`slot(event).kind.is_level()`).
    #[inline(always)]
    pub fn assert_line(&mut self, event: Event)
        requires { IsLevel self.old event }
        ensures { Touches touch.Assert event self.old self.new }
    {
        self.touch(Touch::Assert, event)
    }

    /// The line of an event was dropped. Its status stays until the event's run ends. Requires a level event
    /// (`slot(event).kind.is_level()`).
    #[inline(always)]
    pub fn drop_line(&mut self, event: Event)
        requires { IsLevel self.old event }
        ensures { Touches touch.Drop event self.old self.new }
    {
        self.touch(Touch::Drop, event)
    }

    /// The OS takes an event for dispatch (ACPI 6.5, section 5.6.4). A listed event is then held. The status is cleared
    /// unless the event is level. Requires that the event is `pending`.
    #[inline(always)]
    pub fn claim(&mut self, event: Event)
        requires { pends self.old event ≡ true }
        ensures { Touches touch.Claim event self.old self.new }
    {
        self.touch(Touch::Claim, event)
    }

    /// A run of the event's handler ended: the event is no longer held, and a level status becomes its line. A run that
    /// ends under an asserted line is counted, up to sixteen. Any other run sets that count to 0. Requires that the
    /// event is held.
    #[inline(always)]
    pub fn finish(&mut self, event: Event)
        requires { (slot_of self.old event).state.held ≡ true }
        ensures { Touches touch.Finish event self.old self.new }
    {
        self.touch(Touch::Finish, event)
    }

    /// Adds one reference to an event, up to 255. Requires a listed event (`slot(event).kind.is_listed()`).
    #[inline(always)]
    pub fn up(&mut self, event: Event)
        requires { IsListed self.old event }
        ensures { Touches touch.Up event self.old self.new }
    {
        self.touch(Touch::Up, event)
    }

    /// Removes one reference from an event, down to 0. Requires a listed event (`slot(event).kind.is_listed()`).
    #[inline(always)]
    pub fn down(&mut self, event: Event)
        requires { IsListed self.old event }
        ensures { Touches touch.Down event self.old self.new }
    {
        self.touch(Touch::Down, event)
    }

    /// Whether the event has status and is enabled.
    #[inline(always)]
    pub fn pending(&self, event: Event) -> bool
        ensures { result ≡ pends self.now event }
    {
        self.words.meets(place_at(event))
    }

    /// The first event, in the order in which events are served, that has status and is enabled; `None` exactly if no
    /// event is pending.
    #[inline(always)]
    pub fn first_pending(&self) -> Option<Event>
        ensures { IsFirst self.now result }
    {
        Some(event_in(self.words.first()?))
    }

    /// The status and enable bits of the fixed events (k is 0) or of GPEs 16 (k - 1) to 16 (k - 1) + 15. A bit of no
    /// event, or of an event that the chip does not know, is 0 in both. Requires k below 17.
    pub fn words(&self, k: u8) -> EventWord
        requires { k < 17 }
        ensures status { IsWord is_set self.now k result.status }
        ensures enable { IsWord enables self.now k result.enable }
    {
        EventWord {
            status: self.words.status.words[usize::from(k)],
            enable: self.words.enable.words[usize::from(k)],
        }
    }

    /// Whether the event's status is set.
    pub fn status(&self, event: Event) -> bool
        ensures { result ≡ (slot_of self.now event).state.status }
    {
        self.slot(event).state.status
    }

    /// How many references enable a listed event.
    pub fn count(&self, event: Event) -> u8
        ensures { result ≡ (slot_of self.now event).state.count }
    {
        self.slot(event).state.count
    }

    /// Whether at least sixteen runs in a row of a level event ended under its asserted line.
    pub fn parked(&self, event: Event) -> bool
        ensures { result ≡ is_parked (slot_of self.now event).kind (slot_of self.now event).state }
    {
        self.slot(event).is_parked()
    }
}

/// The slots of a chip at its start. `enable` is empty before, and has the bits of the enabled events after.
fn first_slots(
    alloc: Global,
    enable: &mut Places,
    listed: &[Listed],
    controller: Option<Event>,
) -> Result<Vec<Slot>, AllocError>
    requires { (k : ℕ) → slice_index enable.old.words k ≡ 0 }
    ensures size { IfOk result (λ slots. length slots.items ≡ 261) }
    ensures quiet { IfOk result (λ slots. IsQuiet slots.items) }
    ensures bits { IfOk result (λ slots. Shows enables slots.items enable.new.words) }
    ensures slots { IfOk result (λ slots. (n : Event) → slot_of slots.items n ≡ first_slot listed.now controller n) }
{
    let mut slots = unknown_slots(alloc)?;
    write_known(&mut slots, enable, listed, controller);
    Ok(slots)
}

/// Writes the slots of all events that a machine knows. Requires that each slot is that of an unknown event.
fn write_known(
    slots: &mut [Slot],
    enable: &mut Places,
    listed: &[Listed],
    controller: Option<Event>,
)
    requires size { length slots.old ≡ 261 }
    requires unknown { (k : ℕ) → slice_index_or slots.old k no_slot ≡ no_slot }
    requires empty { (k : ℕ) → slice_index enable.old.words k ≡ 0 }
    ensures quiet { IsQuiet slots.new }
    ensures bits { Shows enables slots.new enable.new.words }
    ensures slots { (n : Event) → slot_of slots.new n ≡ first_slot listed.now controller n }
{
    write_listed(slots, enable, listed);
    write_always(slots, enable, controller);
}

/// The slots of a machine that knows no event.
fn unknown_slots(alloc: Global) -> Result<Vec<Slot>, AllocError>
    ensures size { IfOk result (λ slots. length slots.items ≡ 261) }
    ensures slots { IfOk result (λ slots. (k : ℕ) → slice_index_or slots.items k no_slot ≡ no_slot) }
{
    vec![in alloc; Slot::fresh(EventKind::Unknown, 0); EVENTS]
}

/// Writes the slots of the events that are always enabled.
fn write_always(slots: &mut [Slot], enable: &mut Places, controller: Option<Event>)
    requires { length slots.old ≡ 261 }
    ensures quiet { IsQuiet slots.old → IsQuiet slots.new }
    ensures bits { Shows enables slots.old enable.old.words → Shows enables slots.new enable.new.words }
    ensures slots { (n : Event) → slot_of slots.new n
        ≡ (if is_gbl n || is_controllers controller n then always else slot_of slots.old n) }
{
    let slot = Slot::fresh(EventKind::Always, 0);
    write(slots, enable, Event::Fixed(Fixed::Gbl), slot);
    if let Some(event) = controller {
        write(slots, enable, event, slot);
    }
}

/// Writes the slots of listed events, the last item first, so that the first item of an event counts.
fn write_listed(slots: &mut [Slot], enable: &mut Places, listed: &[Listed])
    requires { length slots.old ≡ 261 }
    ensures quiet { IsQuiet slots.old → IsQuiet slots.new }
    ensures bits { Shows enables slots.old enable.old.words → Shows enables slots.new enable.new.words }
    ensures slots { (n : Event) → slot_of slots.new n ≡ slot_or (listing listed.now n) (slot_of slots.old n) }
{
    for written in 0..listed.len() {
        let item = &listed[listed.len() - 1 - written];
        write(slots, enable, item.event, Slot::listed(item));
    }
}

/// Writes the slot and the enable bit of an event that has not happened.
fn write(slots: &mut [Slot], enable: &mut Places, event: Event, slot: Slot)
    requires size { length slots.old ≡ 261 }
    requires fresh { slot.state.status ≡ false }
    ensures quiet { IsQuiet slots.old → IsQuiet slots.new }
    ensures bits { Shows enables slots.old enable.old.words → Shows enables slots.new enable.new.words }
    ensures slots { (n : Event) → slot_of slots.new n ≡ (if same_event event n then slot else slot_of slots.old n) }
{
    slots[rank_of(event)] = slot;
    enable.set(place_at(event), slot.is_enabled());
}

/// The place of an event in the order in which events are served, from 0 to 260.
#[inline(always)]
pub fn rank_of(event: Event) -> usize
    ensures value { result ≡ event_rank event }
    ensures bound { result < 261 }
{
    usize::from(event.rank())
}

/// The place of the event's bit, from 0 to 271.
#[inline(always)]
fn place_at(event: Event) -> usize
    ensures value { result ≡ place_of event }
    ensures bound { result < 272 }
{
    match event {
        Event::Fixed(fixed) => usize::from(fixed.bit()),
        Event::Gpe(number) => 16 + usize::from(number),
    }
}

/// The event whose bit is at a place.
#[inline(always)]
fn event_in(place: usize) -> Event
    requires { rank_in place < 261 }
    ensures { event_rank result ≡ rank_in place }
{
    if place >= 16 {
        return Event::Gpe((place - 16) as u8);
    }
    match place {
        0 => Event::Fixed(Fixed::Tmr),
        5 => Event::Fixed(Fixed::Gbl),
        8 => Event::Fixed(Fixed::Pwr),
        9 => Event::Fixed(Fixed::Slp),
        _ => Event::Fixed(Fixed::Rtc),
    }
}
