//! The rules of a description, part by part.
ghost use Rattle.std.specs.Prelude.{◌≡◌};
ghost use Rattle.acpi_regs.specs.GeometryParts.{blocks_of};
ghost use Rattle.machine_desc.specs.Groups.{actors_fault, handlers_fault, space_fault};
ghost use Rattle.machine_desc.specs.Rules.{event_of, first_fault, queries_of};

use crate::known::KnownEvents;
use crate::lists::{Counts, devices_fault, schedule_fault};
use crate::scripted::{controller_fault, events_fault, firmware_fault, queries_fault};
use crate::space::{fields_fault, geometry_of, regions_fault, workers_fault};
use crate::{BadMachine, ControllerPart, MachineParts, QueryPart};
use acpi_regs::{Event, GpeGeometry};

/// The controller's event.
fn event_of(controller: &Option<ControllerPart>) -> Option<Event>
    ensures { result ≡ event_of controller.now }
{
    match controller {
        Some(controller) => Some(controller.event),
        None => None,
    }
}

/// The handlers of the controller's queries.
fn queries_of(controller: &Option<ControllerPart>) -> &[QueryPart]
    ensures { result.now ≡ queries_of controller.now }
{
    match controller {
        Some(controller) => controller.queries.as_slice(),
        None => &[],
    }
}

/// The first rule that workers, regions and fields break.
fn space_fault(parts: &MachineParts) -> Option<BadMachine>
    ensures { result ≡ space_fault parts.now }
{
    let regions = parts.regions.as_slice();
    let fault = workers_fault(parts.workers);
    if fault.is_some() {
        return fault;
    }
    let fault = regions_fault(parts.controller.is_some(), regions);
    if fault.is_some() {
        return fault;
    }
    fields_fault(regions, parts.fields.as_slice())
}

/// The first rule that the handlers of the OS break.
fn handlers_fault(parts: &MachineParts, geometry: GpeGeometry) -> Option<BadMachine>
    ensures { result ≡ handlers_fault (blocks_of geometry) parts.now }
{
    let own = event_of(&parts.controller);
    let events = parts.events.as_slice();
    let fields = parts.fields.as_slice().len();
    let fault = events_fault(parts.version, geometry, own, fields, events);
    if fault.is_some() {
        return fault;
    }
    let fault = controller_fault(&geometry, own);
    if fault.is_some() {
        return fault;
    }
    let known = KnownEvents { events, own };
    queries_fault(&known, fields, queries_of(&parts.controller))
}

/// The first rule that the firmware, the devices and the schedule break.
fn actors_fault(parts: &MachineParts) -> Option<BadMachine>
    ensures { result ≡ actors_fault parts.now }
{
    let firmware = parts.firmware.as_slice();
    let devices = parts.devices.as_slice();
    let known = KnownEvents {
        events: parts.events.as_slice(),
        own: event_of(&parts.controller),
    };
    let fault = firmware_fault(&known, parts.fields.as_slice().len(), firmware);
    if fault.is_some() {
        return fault;
    }
    let fault = devices_fault(&known, devices);
    if fault.is_some() {
        return fault;
    }
    let counts = Counts {
        workers: usize::from(parts.workers),
        controller: parts.controller.is_some(),
        devices: devices.len(),
        firmware: firmware.len(),
    };
    schedule_fault(&counts, parts.schedule.as_slice())
}

/// The first rule that the parts break.
#[tactic(auto, using(crate::proofs::Groups::in_groups))]
pub fn first_fault(parts: &MachineParts) -> Option<BadMachine>
    ensures { result ≡ first_fault parts.now }
{
    let geometry = match geometry_of(parts.version, parts.gpe0, parts.base1, parts.gpe1) {
        Ok(geometry) => geometry,
        Err(bad) => return Some(bad),
    };
    let fault = space_fault(parts);
    if fault.is_some() {
        return fault;
    }
    let fault = handlers_fault(parts, geometry);
    if fault.is_some() {
        return fault;
    }
    actors_fault(parts)
}
