ghost use Rattle.std.specs.Prelude.{◌↔◌, IsTrue};
ghost use Rattle.machine_desc.specs.Given.{IsGiven};

use crate::Items;
use crate::given::is_given;
use acpi_regs::{Actor, Event};
use field_units::{RegionKind, UpdateRule};
use handler_script::Op;

/// What a description says, with no rule tested.
#[derive(Debug, Drop)]
pub struct MachineParts {
    /// The version of the description, 1 or 2.
    pub version: u8,
    /// How many bytes the first GPE block has (ACPI 6.5, section 4.8.4.1).
    pub gpe0: u16,
    /// The number of the first event of the second GPE block.
    pub base1: u16,
    /// How many bytes the second GPE block has; 0 where there is none.
    pub gpe1: u16,
    /// How many threads of the OS run jobs.
    pub workers: u8,
    /// The regions.
    pub regions: Items<RegionPart>,
    /// The fields.
    pub fields: Items<FieldPart>,
    /// The events that have a handler.
    pub events: Items<EventPart>,
    /// The embedded controller, where there is one.
    pub controller: Option<ControllerPart>,
    /// The operations of each thread of the firmware.
    pub firmware: Items<Items<Op>>,
    /// The events that each device raises, in order.
    pub devices: Items<Items<Event>>,
    /// The actors that make the first steps, in order.
    pub schedule: Items<Actor>,
}

impl MachineParts {
    /// Whether the parts have the form that [`crate::Machine::new`] asks for: version 1 or 2, in version 1 a
    /// controller needs the Global Lock, no listed event is the Global Lock's, only GPEs are level-triggered, and no
    /// query code and no pushed code is 0.
    pub fn is_given(&self) -> bool
        ensures { IsTrue result ↔ IsGiven self.now }
    {
        is_given(self)
    }
}

/// A region (ACPI 6.5, section 5.5.2.4), of which the first bytes are given.
#[derive(Debug, Drop)]
pub struct RegionPart {
    /// What stands behind its cells.
    pub kind: RegionKind,
    /// How many cells it has.
    pub len: u16,
    /// The bytes that the first cells begin with. The others begin with 0.
    pub bytes: Items<u8>,
}

/// A field of a region (ACPI 6.5, section 19.6.48).
#[derive(Clone, Copy, Debug)]
pub struct FieldPart {
    /// The index of its region in the description.
    pub region: u8,
    /// Its first bit, counted from the region's start.
    pub bit: u32,
    /// How many bits it has.
    pub width: u8,
    /// Whether an access needs the Global Lock.
    pub lock: bool,
    /// What a write makes of the other bits of a byte.
    pub update: UpdateRule,
}

/// An event that has a handler (ACPI 6.5, section 5.6.4.1).
#[derive(Debug, Drop)]
pub struct EventPart {
    /// The event, which is not the Global Lock's.
    pub event: Event,
    /// Whether it is level-triggered, which only a GPE may be.
    pub level: bool,
    /// The count of references with which it starts.
    pub refs: u16,
    /// The operations of its handler.
    pub script: Items<Op>,
}

/// An embedded controller (ACPI 6.5, chapter 12).
#[derive(Debug, Drop)]
pub struct ControllerPart {
    /// The event that it raises.
    pub event: Event,
    /// Whether it raises the event for query codes alone.
    pub silent: bool,
    /// Whether it may leave burst mode of its own accord.
    pub fickle: bool,
    /// Whether requests to it need the Global Lock (`_GLK`, ACPI 6.5, section 6.5.7); always in version 1.
    pub glk: bool,
    /// The handlers of its query codes.
    pub queries: Items<QueryPart>,
}

/// The handler of a query code (ACPI 6.5, section 5.6.4.1).
#[derive(Debug, Drop)]
pub struct QueryPart {
    /// The code, from 1 to 255.
    pub code: u8,
    /// The operations of the handler.
    pub script: Items<Op>,
}
