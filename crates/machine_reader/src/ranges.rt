//! What the types of a machine say of its numbers, for the proofs of the laws. These functions do nothing else, and
//! only the laws call them.
ghost use Rattle.std.specs.Prelude.{All};
ghost use Rattle.std.specs.Option.{option_copied};
ghost use Rattle.machine_reader.specs.Ranges.{Fits, RegionFits, SomeControllerFits};

use acpi_regs::{Actor, Event};
use field_units::{FieldUnit, Region};
use handler_script::{Op, Script};
use machine_desc::{ControllerDesc, Items, ListedEvent, Machine, Query};

/// What has numbers.
trait Ranged {
    ghost InRange: { Self → Type 0 };

    fn law_range(&self)
        ensures { InRange self.now };
}

impl Ranged for u8 {
    ghost use Rattle.machine_reader.specs.Ranges.{IsByte};

    ghost InRange = { IsByte };

    fn law_range(&self) {
        let _number = *self;
    }
}

impl Ranged for u16 {
    ghost use Rattle.std.specs.Prelude.{◌≤◌};

    ghost InRange = { λ n. n ≤ 65535 };

    fn law_range(&self) {
        let _number = *self;
    }
}

impl Ranged for u64 {
    ghost use Rattle.std.specs.Prelude.{◌<◌, ◌^◌};

    ghost InRange = { λ n. n < 2 ^ 64 };

    fn law_range(&self) {
        let _number = *self;
    }
}

impl Ranged for Event {
    ghost use Rattle.machine_reader.specs.Ranges.{EventFits};

    ghost InRange = { EventFits };

    fn law_range(&self) {
        match *self {
            Event::Fixed(_) => {}
            Event::Gpe(number) => number.law_range(),
        }
    }
}

impl Ranged for Op {
    ghost use Rattle.machine_reader.specs.Ranges.{OpFits};

    ghost InRange = { OpFits };

    fn law_range(&self) {
        match *self {
            Op::Read(field) => field.law_range(),
            Op::Write(field, value) => {
                field.law_range();
                value.law_range();
            }
            Op::Add(field, value) => {
                field.law_range();
                value.law_range();
            }
            Op::Skip(value, count) => {
                value.law_range();
                count.law_range();
            }
            Op::Hold => {}
            Op::Free => {}
            Op::Notify(device, value) => {
                device.law_range();
                value.law_range();
            }
            Op::Drop(event) => event.law_range(),
            Op::Up(event) => event.law_range(),
            Op::Down(event) => event.law_range(),
            Op::Raise(event) => event.law_range(),
            Op::Assert(event) => event.law_range(),
            Op::Push(code) => code.law_range(),
        }
    }
}

impl Ranged for Actor {
    ghost use Rattle.machine_reader.specs.Ranges.{ActorFits};

    ghost InRange = { ActorFits };

    fn law_range(&self) {
        match *self {
            Actor::Int => {}
            Actor::Poll => {}
            Actor::Ec => {}
            Actor::Worker(number) => number.law_range(),
            Actor::Device(number) => number.law_range(),
            Actor::Firmware(number) => number.law_range(),
        }
    }
}

fn law_ranges<T: Ranged>(parts: &[T])
    ensures { All T.InRange parts.now }
{
    for part in parts {
        part.law_range();
    }
}

impl<T: Ranged> Ranged for Items<T> {
    ghost use Rattle.std.specs.Prelude.{All};

    ghost InRange = { All T.InRange };

    fn law_range(&self) {
        law_ranges(self.as_slice());
    }
}

impl Ranged for Script {
    ghost use Rattle.machine_reader.specs.Ranges.{ScriptFits};

    ghost InRange = { ScriptFits };

    fn law_range(&self) {
        law_ranges(self.ops());
    }
}

impl Ranged for Region {
    ghost use Rattle.machine_reader.specs.Ranges.{RegionFits};

    ghost InRange = { RegionFits };

    fn law_range(&self) {
        law_ranges(self.cells());
    }
}

impl Ranged for FieldUnit {
    ghost use Rattle.machine_reader.specs.Ranges.{FieldFits};

    ghost InRange = { FieldFits };

    fn law_range(&self) {
        let _region = self.region();
        let _bit = self.bit();
        let _width = self.width();
    }
}

impl Ranged for ListedEvent {
    ghost use Rattle.machine_reader.specs.Ranges.{ListedFits};

    ghost InRange = { ListedFits };

    fn law_range(&self) {
        self.listed.event.law_range();
        self.script.law_range();
    }
}

impl Ranged for Query {
    ghost use Rattle.machine_reader.specs.Ranges.{QueryFits};

    ghost InRange = { QueryFits };

    fn law_range(&self) {
        let _code = self.code;
        self.script.law_range();
    }
}

impl Ranged for ControllerDesc {
    ghost use Rattle.machine_reader.specs.Ranges.{ControllerFits};

    ghost InRange = { ControllerFits };

    fn law_range(&self) {
        self.event.law_range();
        self.queries.law_range();
    }
}

fn law_controller_range(controller: Option<&ControllerDesc>)
    ensures { SomeControllerFits (option_copied controller.entry) }
{
    match controller {
        Some(controller) => controller.law_range(),
        None => {}
    }
}

/// The numbers of a machine are those of their types.
pub fn law_machine_ranges(machine: &Machine)
    ensures { Fits machine.now }
{
    let _gpe0 = machine.gpe0();
    let _base1 = machine.base1();
    let _gpe1 = machine.gpe1();
    law_ranges(machine.regions());
    law_ranges(machine.fields());
    law_ranges(machine.events());
    law_controller_range(machine.controller());
    law_ranges(machine.firmware());
    law_ranges(machine.devices());
    law_ranges(machine.schedule());
}
