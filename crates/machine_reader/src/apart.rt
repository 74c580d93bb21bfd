//! A machine taken apart: the parts of the description that its canonical text has.
ghost use Rattle.std.specs.Prelude.{◌≡◌, IfOk, None, map, option_map};
ghost use Rattle.std.specs.Option.{option_copied};
ghost use Rattle.field_units.specs.Field.{is_lock};
ghost use Rattle.machine_desc.specs.Given.{IsGiven};
ghost use Rattle.machine_desc.specs.Machine.{described};
ghost use Rattle.machine_desc.specs.Rules.{first_fault};
ghost use Rattle.machine_reader.specs.Parts.{controller_part, parts_of};

use crate::members::without_zeros;
use acpi_regs::{Event, Memory};
use field_units::{FieldUnit, LockRule, Region};
use handler_script::{Op, Script};
use machine_desc::{
    ControllerDesc, ControllerPart, EventPart, FieldPart, Items, ListedEvent, Machine,
    MachineParts, Query, QueryPart, RegionPart,
};
use std::alloc::Global;

/// What a description has a part for.
trait HasPart {
    ghost use Rattle.std.specs.Prelude.{◌≡◌, IfOk};

    type Part: Drop;

    ghost part: { Self → Self.Part };

    fn part(&self, alloc: Global) -> Result<Self::Part, Memory>
        ensures { IfOk result (λ p. p ≡ part self.now) };
}

/// The part of each, in order.
fn parts<T: HasPart>(alloc: Global, all: &[T]) -> Result<Items<T::Part>, Memory>
    ensures { IfOk result (λ parts. parts ≡ map T.part all.now) }
{
    let mut parts = Vec::with_capacity(alloc, all.len())?;
    for one in all {
        parts.push(one.part(alloc)?)?;
    }
    Ok(Items::new(parts))
}

impl HasPart for Region {
    ghost use Rattle.machine_reader.specs.Parts.{region_part};

    type Part = RegionPart;

    ghost part = { region_part };

    fn part(&self, alloc: Global) -> Result<RegionPart, Memory> {
        let bytes = Vec::from_slice(alloc, without_zeros(self.cells()))?;
        Ok(RegionPart {
            kind: self.kind(),
            len: self.len(),
            bytes: Items::new(bytes),
        })
    }
}

/// Whether a field's own rule is Lock.
fn is_lock(lock: LockRule) -> bool
    ensures { result ≡ is_lock lock }
{
    match lock {
        LockRule::Lock => true,
        LockRule::NoLock => false,
    }
}

impl HasPart for FieldUnit {
    ghost use Rattle.machine_reader.specs.Parts.{field_part};

    type Part = FieldPart;

    ghost part = { field_part };

    fn part(&self, _alloc: Global) -> Result<FieldPart, Memory> {
        Ok(FieldPart {
            region: self.region(),
            bit: self.bit(),
            width: self.width(),
            lock: is_lock(self.lock()),
            update: self.update(),
        })
    }
}

impl HasPart for Script {
    ghost use Rattle.std.specs.Prelude.{List};
    ghost use Rattle.handler_script.specs.declared.op.Op.{Op};

    type Part = Items<Op>;

    ghost part = { λ ops. ops };

    fn part(&self, alloc: Global) -> Result<Items<Op>, Memory> {
        Ok(Items::new(Vec::from_slice(alloc, self.ops())?))
    }
}

impl HasPart for ListedEvent {
    ghost use Rattle.machine_reader.specs.Parts.{event_part};

    type Part = EventPart;

    ghost part = { event_part };

    fn part(&self, alloc: Global) -> Result<EventPart, Memory> {
        Ok(EventPart {
            event: self.listed.event,
            level: self.listed.level,
            refs: u16::from(self.listed.refs),
            script: self.script.part(alloc)?,
        })
    }
}

impl HasPart for Query {
    ghost use Rattle.machine_reader.specs.Parts.{query_part};

    type Part = QueryPart;

    ghost part = { query_part };

    fn part(&self, alloc: Global) -> Result<QueryPart, Memory> {
        Ok(QueryPart {
            code: self.code,
            script: self.script.part(alloc)?,
        })
    }
}

impl HasPart for Items<Event> {
    type Part = Items<Event>;

    ghost part = { λ pulses. pulses };

    fn part(&self, alloc: Global) -> Result<Items<Event>, Memory> {
        Ok(Items::new(Vec::from_slice(alloc, self.as_slice())?))
    }
}

/// The part of the controller, if there is one.
fn controller(
    alloc: Global,
    controller: Option<&ControllerDesc>,
) -> Result<Option<ControllerPart>, Memory>
    ensures { IfOk result (λ part. part ≡ option_map controller_part (option_copied controller.entry)) }
{
    let Some(controller) = controller else {
        return Ok(None);
    };
    Ok(Some(ControllerPart {
        event: controller.event,
        silent: controller.silent,
        fickle: controller.fickle,
        glk: controller.glk,
        queries: parts(alloc, controller.queries.as_slice())?,
    }))
}

fn parts_of(alloc: Global, machine: &Machine) -> Result<MachineParts, Memory>
    ensures { IfOk result (λ parts. parts ≡ parts_of machine.now) }
{
    let schedule = Vec::from_slice(alloc, machine.schedule())?;
    Ok(MachineParts {
        version: machine.version(),
        gpe0: machine.gpe0(),
        base1: machine.base1(),
        gpe1: machine.gpe1(),
        workers: machine.workers(),
        regions: parts(alloc, machine.regions())?,
        fields: parts(alloc, machine.fields())?,
        events: parts(alloc, machine.events())?,
        controller: controller(alloc, machine.controller())?,
        firmware: parts(alloc, machine.firmware())?,
        devices: parts(alloc, machine.devices())?,
        schedule: Items::new(schedule),
    })
}

/// The parts of a machine, as its canonical text has them. They break no rule, and [`Machine::new`] makes an equal
/// machine of them. No region's bytes end with a zero.
///
/// # Errors
/// `Memory` if the allocator had no room for the parts.
#[tactic(auto, using(crate::proofs::Given::parts_given, crate::proofs::Trimmed::told))]
pub fn machine_parts(alloc: Global, machine: &Machine) -> Result<MachineParts, Memory>
    ensures same { IfOk result (λ p. p ≡ parts_of machine.now) }
    ensures given { IfOk result IsGiven }
    ensures kept { IfOk result (λ p. first_fault p ≡ None) }
    ensures back { IfOk result (λ p. described p ≡ machine.now) }
{
    machine.law_rules();
    machine.law_described();
    parts_of(alloc, machine)
}
