use acpi_regs::Memory;

/// A rule of a machine that a description can break. The parts and the order of their rules are told at [`Part`].
#[derive(Clone, Copy, Debug, PartialEq, Eq)]
pub enum Rule {
    /// The lengths and the base of the GPE blocks fit not (ACPI 6.5, section 4.8.4.1).
    BadGeometry,
    /// A GPE block ends above event 127 in a description of version 1.
    TooManyEvents,
    /// There are not 1 to 4 workers.
    BadWorkers,
    /// A part has more items than it may have.
    TooMany,
    /// A region has no cell, or more than it may have, or fewer than bytes are given; the controller's has not 256,
    /// or there are two of it, or there is no controller.
    BadRegion,
    /// A field names no region.
    UnknownRegion,
    /// A field has no bit, or more than 64.
    BadWidth,
    /// A field goes past the end of its region.
    OutsideRegion,
    /// A GPE that is in no block, or an event that the machine does not know.
    UnknownEvent,
    /// An event that is listed before, or is the controller's.
    TakenEvent,
    /// An event begins with more than 255 references.
    BadRefs,
    /// A query code that has a handler before.
    TakenCode,
    /// A device has more than 4,096 pulses.
    LongList,
    /// An actor that the machine does not have.
    UnknownActor,
    /// A script has more than 4,096 operations.
    LongScript,
    /// A script's holds and frees do not match.
    Unbalanced,
    /// An operation names no field.
    UnknownField,
    /// A skip over no operation, over more than follow, or over a hold or a free.
    BadSkip,
    /// An operation that may not stand in a script of this side, or names an event that it may not name, or a push
    /// where there is no controller.
    NotAllowed,
}

/// A part of a description, in the order in which parts are tested. The items of a part are tested in order, first
/// that there are not too many, and the rules of an item in the order told here, its script last.
#[derive(Clone, Copy, Debug, PartialEq, Eq)]
pub enum Part {
    /// The GPE blocks: `BadGeometry`, `TooManyEvents`.
    Gpe,
    /// The number of workers: `BadWorkers`.
    Workers,
    /// At most 16 regions: `BadRegion`.
    Region,
    /// At most 256 fields: `UnknownRegion`, `BadWidth`, `OutsideRegion`.
    Field,
    /// At most 132 listed events in version 1, and 260 in version 2: `UnknownEvent`, `TakenEvent`, `BadRefs`, and the
    /// rules of a script of the OS.
    Event,
    /// The controller: `UnknownEvent`.
    Controller,
    /// At most 255 query handlers: `TakenCode`, and the rules of a script of the OS.
    Query,
    /// At most 8 scripts of the firmware: the rules of a script.
    Firmware,
    /// At most 8 devices: `LongList`, `UnknownEvent`.
    Device,
    /// At most 65,536 steps: `UnknownActor`.
    Schedule,
}

/// A place in a description.
#[derive(Clone, Copy, Debug, PartialEq, Eq)]
pub struct Place {
    /// The part.
    pub part: Part,
    /// The item of the part, counted from 0; 0 where the part has no items, or too many.
    pub index: u32,
    /// The operation of its script, or the pulse of its list, counted from 0; 0 where no such is concerned.
    pub op: u32,
}

/// The first rule that a description breaks, and where.
#[derive(Clone, Copy, Debug, PartialEq, Eq)]
pub struct BadMachine {
    /// The rule.
    pub rule: Rule,
    /// Where it is broken.
    pub place: Place,
}

/// A rule that an item breaks, and at which of its operations or pulses.
#[derive(Clone, Copy, Debug, PartialEq, Eq)]
pub struct Spot {
    /// The rule.
    pub rule: Rule,
    /// The operation or the pulse, counted from 0; 0 where none is concerned.
    pub op: u32,
}

/// Why no machine was made of a description's parts.
#[derive(Clone, Copy, Debug, PartialEq, Eq)]
pub enum MachineError {
    /// A rule is broken.
    BadMachine(BadMachine),
    /// Memory ran out.
    Memory,
}

impl From<Memory> for MachineError {
    ghost use Rattle.std.specs.Prelude.{◌≡◌};
    ghost use Rattle.machine_desc.specs.declared.fault.MachineError.TheVariants as error;

    ghost from_gives = { λ _ e. e ≡ error.Memory };

    fn from(_: Memory) -> Self {
        MachineError::Memory
    }
}
