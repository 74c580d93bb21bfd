//! A machine that is equal to another.
ghost use Rattle.std.specs.Prelude.{◌≡◌, All, IfOk};
ghost use Rattle.handler_script.specs.Accepts.{Accepted};

use crate::{ControllerDesc, Items, ListedEvent, Machine, Query};
use acpi_regs::{Event, Memory};
use field_units::{FieldUnit, Region};
use handler_script::Script;
use std::alloc::Global;

fn region_copied(alloc: Global, region: &Region) -> Result<Region, Memory>
    ensures { IfOk result (λ copy. copy ≡ region.now) }
{
    let _len = region.len();
    let cells = Vec::from_slice(alloc, region.cells())?;
    Ok(Region::new(region.kind(), cells))
}

/// The same regions.
pub fn regions_copied(alloc: Global, regions: &[Region]) -> Result<Items<Region>, Memory>
    ensures { IfOk result (λ copies. copies ≡ regions.now) }
{
    let mut copies = Vec::with_capacity(alloc, regions.len())?;
    for region in regions {
        copies.push(region_copied(alloc, region)?)?;
    }
    Ok(Items::new(copies))
}

fn script_copied(alloc: Global, fields: &[FieldUnit], script: &Script) -> Result<Script, Memory>
    requires { Accepted fields.now script.now }
    ensures { IfOk result (λ copy. copy ≡ script.now) }
{
    let ops = Vec::from_slice(alloc, script.ops())?;
    Ok(Script::of_tested(ops))
}

/// The same events, with their handlers.
pub fn events_copied(alloc: Global, machine: &Machine) -> Result<Items<ListedEvent>, Memory>
    ensures { IfOk result (λ copies. copies ≡ machine.now.events) }
{
    machine.law_rules();
    let fields = machine.act_fields();
    let mut copies = Vec::with_capacity(alloc, machine.events().len())?;
    for event in machine.events() {
        copies.push(ListedEvent {
            listed: event.listed,
            script: script_copied(alloc, fields, &event.script)?,
        })?;
    }
    Ok(Items::new(copies))
}

/// The same scripts of the firmware.
pub fn firmware_copied(alloc: Global, machine: &Machine) -> Result<Items<Script>, Memory>
    ensures { IfOk result (λ copies. copies ≡ machine.now.firmware) }
{
    machine.law_rules();
    let fields = machine.act_fields();
    let mut copies = Vec::with_capacity(alloc, machine.firmware().len())?;
    for script in machine.firmware() {
        copies.push(script_copied(alloc, fields, script)?)?;
    }
    Ok(Items::new(copies))
}

/// The same handlers of queries.
fn queries_copied(
    alloc: Global,
    fields: &[FieldUnit],
    queries: &[Query],
) -> Result<Items<Query>, Memory>
    requires { All (λ query. Accepted fields.now query.script) queries.now }
    ensures { IfOk result (λ copies. copies ≡ queries.now) }
{
    let mut copies = Vec::with_capacity(alloc, queries.len())?;
    for query in queries {
        copies.push(Query {
            code: query.code,
            script: script_copied(alloc, fields, &query.script)?,
        })?;
    }
    Ok(Items::new(copies))
}

/// The same controller.
pub fn controller_copied(alloc: Global, machine: &Machine) -> Result<Option<ControllerDesc>, Memory>
    ensures { IfOk result (λ copy. copy ≡ machine.now.controller) }
{
    machine.law_rules();
    let Some(controller) = machine.controller() else {
        return Ok(None);
    };
    let queries = controller.queries.as_slice();
    Ok(Some(ControllerDesc {
        event: controller.event,
        silent: controller.silent,
        fickle: controller.fickle,
        glk: controller.glk,
        queries: queries_copied(alloc, machine.act_fields(), queries)?,
    }))
}

/// The same lists of pulses.
pub fn devices_copied(
    alloc: Global,
    devices: &[Items<Event>],
) -> Result<Items<Items<Event>>, Memory>
    ensures { IfOk result (λ copies. copies ≡ devices.now) }
{
    let mut copies = Vec::with_capacity(alloc, devices.len())?;
    for pulses in devices {
        let pulses = Vec::from_slice(alloc, pulses.as_slice())?;
        copies.push(Items::new(pulses))?;
    }
    Ok(Items::new(copies))
}
