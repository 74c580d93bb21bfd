//! A journal for tests: one device's pulse list, and entries in room that is taken at the start.
ghost use Rattle.std.specs.Prelude.{◌≡◌, ◌<◌, ◌^◌, ◌++◌, ◌∷◌, [], IfOk, reverse, false, true, vec_len};
ghost use Rattle.acpi_regs.specs.Actor.{stands_on};
ghost use Rattle.acpi_regs.specs.CoreEvents.{IsUnsought};
ghost use Rattle.acpi_regs.specs.Lock.{seeker, seeker_after};

use acpi_regs::{Actor, Deed, Entry, Event, Side};
use lock_table::{PulseLists, Recorded};
use std::alloc::{AllocError, Global};

/// The pulse list of device 0; no other has one.
#[derive(Drop)]
pub struct OneList {
    events: Vec<Event>,
}

impl PulseLists for OneList {
    ghost use Rattle.std.specs.Prelude.{◌∷◌, []};

    ghost lists = { λ l. l.events.items ∷ [] };

    fn pulses(&self, device: u8) -> &[Event] {
        if device == 0 {
            self.events.as_slice()
        } else {
            &[]
        }
    }
}

/// The journal.
#[derive(Drop)]
pub struct Notes {
    list: OneList,
    entries: Vec<Entry>,
    ghost small: { vec_len entries < 2 ^ 32 },
}

impl Recorded for Notes {
    type Base = OneList;

    ghost base = { λ n. n.list };

    ghost entries = { λ n. n.entries.items };

    fn len(&self) -> u32 {
        self.entries.len() as u32
    }
}

impl Notes {
    /// A journal without entries, with room for so many.
    pub fn new(alloc: Global, list: &[Event], room: usize) -> Result<Notes, AllocError>
        ensures { IfOk result (λ n. (n.entries.items ≡ []) × (n.list.events.items ≡ list.now)) }
    {
        let mut events = Vec::new(alloc);
        events.extend_from_slice(list)?;
        let entries = Vec::with_capacity(alloc, room)?;
        Ok(Notes {
            list: OneList { events },
            entries,
        })
    }

    /// The entries, the oldest first.
    pub fn entries(&self) -> &[Entry]
        ensures { result.now ≡ self.now.entries.items }
    {
        self.entries.as_slice()
    }

    /// Appends an entry where there is room.
    pub fn note(&mut self, entry: Entry) -> bool
        ensures list { self.new.list ≡ self.old.list }
        ensures noted { result ≡ true → self.new.entries.items ≡ self.old.entries.items ++ entry ∷ [] }
        ensures full { result ≡ false → self.new.entries.items ≡ self.old.entries.items }
    {
        if self.entries.len() >= self.entries.capacity() || self.entries.len() >= 1_000_000 {
            return false;
        }
        self.entries.push_reserved(entry);
        true
    }

    /// Whether an entry is no seek, or its side has no seeker.
    pub fn lets(&self, entry: Entry) -> bool
        ensures { result ≡ true → IsUnsought (reverse self.now.entries.items) entry.actor entry.deed }
    {
        match entry.deed {
            Deed::Seek => match entry.actor.side() {
                Some(side) => seeker(self.entries.as_slice(), side).is_none(),
                None => false,
            },
            _ => true,
        }
    }
}

/// Whether an actor stands on a side.
fn stands_on(side: Side, actor: Actor) -> bool
    ensures { result ≡ stands_on side actor }
{
    match (side, actor.side()) {
        (Side::Os, Some(Side::Os)) => true,
        (Side::Firmware, Some(Side::Firmware)) => true,
        _ => false,
    }
}

/// The seeker of a side after an entry.
fn seeker_after(side: Side, entry: Entry, found: Option<Actor>) -> Option<Actor>
    ensures { result ≡ seeker_after side entry.actor entry.deed found }
{
    match entry.deed {
        Deed::Seek => {
            if stands_on(side, entry.actor) {
                Some(entry.actor)
            } else {
                found
            }
        }
        Deed::Leave(_) => {
            if stands_on(side, entry.actor) {
                None
            } else {
                found
            }
        }
        _ => found,
    }
}

/// The seeker of a side.
fn seeker(entries: &[Entry], side: Side) -> Option<Actor>
    ensures { result ≡ seeker side (reverse entries.now) }
{
    let mut found = None;
    for entry in entries {
        found = seeker_after(side, *entry, found);
    }
    found
}
