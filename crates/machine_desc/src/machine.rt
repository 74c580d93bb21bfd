ghost use Rattle.std.specs.Prelude.{◌≡◌, ◌<◌, ◌≤◌, ◌^◌, None, Some, IfOk, length, slice_get};
ghost use Rattle.std.specs.Option.{option_copied, option_map};
ghost use Rattle.machine_desc.specs.Actors.{actors_of};
ghost use Rattle.machine_desc.specs.Answers.{Answers};
ghost use Rattle.machine_desc.specs.Given.{IsDescribed, IsGiven};
ghost use Rattle.machine_desc.specs.Kept.{IsMachine};
ghost use Rattle.machine_desc.specs.Machine.{act_fields, act_fields_of, acting, controller_of, described, glk, glk_in};
ghost use Rattle.machine_desc.specs.Rules.{first_fault};
ghost use Rattle.machine_desc.specs.Sound.{AreSound, AreSoundQueries};
ghost use Rattle.machine_desc.specs.Upgrade.{up, up_controller};
ghost use Rattle.machine_desc.specs.Weight.{weight_of};

use crate::build::{acting_of, events_of, fields_of, queries_of, regions_of, scripts_of};
use crate::copy::{
    controller_copied, devices_copied, events_copied, firmware_copied, regions_copied,
};
use crate::rules::first_fault;
use crate::weight::weight_of;
use crate::{ControllerPart, Items, MachineError, MachineParts, served};
use acpi_regs::{Actor, Event, Listed, Memory};
use field_units::{FieldUnit, Region};
use handler_script::Script;
use std::alloc::Global;
use std::marker::Model;

/// An event that has a handler.
#[derive(Debug, Drop)]
pub struct ListedEvent {
    /// The event, its kind, and the count of references with which it starts.
    pub listed: Listed,
    /// Its handler.
    pub script: Script,
}

/// The handler of a query code (ACPI 6.5, section 5.6.4.1).
#[derive(Debug, Drop)]
pub struct Query {
    /// The code, from 1 to 255.
    pub code: u8,
    /// Its handler.
    pub script: Script,
}

/// An embedded controller (ACPI 6.5, chapter 12).
#[derive(Debug, Drop)]
pub struct ControllerDesc {
    /// The event that it raises, a GPE.
    pub event: Event,
    /// Whether it raises the event for query codes alone.
    pub silent: bool,
    /// Whether it may leave burst mode of its own accord.
    pub fickle: bool,
    /// Whether requests to it need the Global Lock (`_GLK`, ACPI 6.5, section 6.5.7); always in version 1.
    pub glk: bool,
    /// The handlers of its query codes.
    pub queries: Items<Query>,
}

/// A machine that keeps every rule of a description. Contracts see it as plain data.
#[derive(Debug, Drop)]
pub struct Machine {
    version: u8,
    gpe0: u16,
    base1: u16,
    gpe1: u16,
    workers: u8,
    regions: Items<Region>,
    fields: Items<FieldUnit>,
    /// The fields once more, with the lock rules that acts go by.
    acting: Items<FieldUnit>,
    events: Items<ListedEvent>,
    controller: Option<ControllerDesc>,
    firmware: Items<Script>,
    devices: Items<Items<Event>>,
    schedule: Items<Actor>,
}

impl Model for Machine {
    ghost use Rattle.machine_desc.specs.Machine.{MachineData};

    ghost Value = { MachineData };

    ghost use Rattle.machine_desc.specs.Given.{IsKept};

    ghost view = { λ m. record {
      version = m.version;
      gpe0 = m.gpe0;
      base1 = m.base1;
      gpe1 = m.gpe1;
      workers = m.workers;
      regions = m.regions;
      fields = m.fields;
      events = m.events;
      controller = m.controller;
      firmware = m.firmware;
      devices = m.devices;
      schedule = m.schedule;
    } };

    ghost invariant = { λ m. IsKept m.acting (record {
      version = m.version;
      gpe0 = m.gpe0;
      base1 = m.base1;
      gpe1 = m.gpe1;
      workers = m.workers;
      regions = m.regions;
      fields = m.fields;
      events = m.events;
      controller = m.controller;
      firmware = m.firmware;
      devices = m.devices;
      schedule = m.schedule;
    }) };
}

impl Machine {
    /// The machine that these parts describe.
    ///
    /// # Errors `BadMachine` exactly where the parts break a rule, with the first, in the order told at
    /// [`crate::Part`]. `Memory` where they break none and room for the machine was wanting.
    pub fn new(alloc: Global, parts: MachineParts) -> Result<Machine, MachineError>
        requires { IsGiven parts }
        ensures { Answers parts result }
    {
        match first_fault(&parts) {
            Some(bad) => Err(MachineError::BadMachine(bad)),
            None => Ok(machine_of(alloc, parts)?),
        }
    }

    /// The version of the description, 1 or 2.
    pub fn version(&self) -> u8
        ensures { result ≡ self.now.version }
    {
        self.version
    }

    /// How many bytes the first GPE block has (ACPI 6.5, section 4.8.4.1).
    pub fn gpe0(&self) -> u16
        ensures { result ≡ self.now.gpe0 }
    {
        self.gpe0
    }

    /// The number of the first event of the second GPE block.
    pub fn base1(&self) -> u16
        ensures { result ≡ self.now.base1 }
    {
        self.base1
    }

    /// How many bytes the second GPE block has; 0 where there is none.
    pub fn gpe1(&self) -> u16
        ensures { result ≡ self.now.gpe1 }
    {
        self.gpe1
    }

    /// How many threads of the OS run jobs, from 1 to 4.
    pub fn workers(&self) -> u8
        ensures { result ≡ self.now.workers }
    {
        self.workers
    }

    /// The regions, in the description's order.
    pub fn regions(&self) -> &[Region]
        ensures { result.now ≡ self.now.regions }
    {
        self.regions.as_slice()
    }

    /// The fields, in the description's order, with its lock rules.
    pub fn fields(&self) -> &[FieldUnit]
        ensures { result.now ≡ self.now.fields }
    {
        self.fields.as_slice()
    }

    /// The fields, in the description's order, with the lock rules that acts go by: Lock also where the region is the
    /// controller's and the controller needs the lock.
    pub fn act_fields(&self) -> &[FieldUnit]
        ensures { result.now ≡ act_fields self.now }
    {
        self.acting.as_slice()
    }

    /// The events that have a handler, in the description's order.
    pub fn events(&self) -> &[ListedEvent]
        ensures { result.now ≡ self.now.events }
    {
        self.events.as_slice()
    }

    /// The embedded controller, where there is one.
    pub fn controller(&self) -> Option<&ControllerDesc>
        ensures { option_copied result ≡ self.now.controller }
    {
        self.controller.as_ref()
    }

    /// Whether there is a controller whose requests need the Global Lock (`_GLK`, ACPI 6.5, section 6.5.7).
    pub fn glk(&self) -> bool
        ensures { result ≡ glk self.now }
    {
        glk(self.version, &self.controller)
    }

    /// The firmware's scripts, in the description's order.
    pub fn firmware(&self) -> &[Script]
        ensures { result.now ≡ self.now.firmware }
    {
        self.firmware.as_slice()
    }

    /// The events that each device raises, in order.
    pub fn devices(&self) -> &[Items<Event>]
        ensures { result.now ≡ self.now.devices }
    {
        self.devices.as_slice()
    }

    /// The actors that make the first steps, in order.
    pub fn schedule(&self) -> &[Actor]
        ensures { result.now ≡ self.now.schedule }
    {
        self.schedule.as_slice()
    }

    /// At most how many entries a history of this machine can have.
    pub fn weight(&self) -> u64
        ensures value { result ≡ weight_of self.now }
        ensures small { result < 2 ^ 54 }
    {
        weight_of(self)
    }

    /// How many actors the machine has, at most 23.
    pub fn actors(&self) -> u8
        ensures value { result ≡ length (actors_of self.now) }
        ensures small { result ≤ 23 }
    {
        served::count(self)
    }

    /// The actor at place `k` of the order in which actors are served, for `k` below their number.
    pub fn actor(&self, k: u8) -> Actor
        requires { k < length (actors_of self.now) }
        ensures { slice_get (actors_of self.now) k ≡ Some result }
    {
        served::actor(self, k)
    }

    /// An equal machine. Fails only if memory runs out.
    pub fn copied(&self, alloc: Global) -> Result<Machine, Memory>
        ensures { IfOk result (λ machine. machine ≡ self.now) }
    {
        let fields = Items::new(Vec::from_slice(alloc, self.fields())?);
        let acting = Items::new(Vec::from_slice(alloc, self.act_fields())?);
        let schedule = Items::new(Vec::from_slice(alloc, self.schedule())?);
        Ok(Machine {
            version: self.version,
            gpe0: self.gpe0,
            base1: self.base1,
            gpe1: self.gpe1,
            workers: self.workers,
            regions: regions_copied(alloc, self.regions())?,
            fields,
            acting,
            events: events_copied(alloc, self)?,
            controller: controller_copied(alloc, self)?,
            firmware: firmware_copied(alloc, self)?,
            devices: devices_copied(alloc, self.devices())?,
            schedule,
        })
    }

    /// The same machine in version 2, where its controller says by itself whether it needs the Global Lock. A machine
    /// of version 2 is its own upgrade. Fails only if memory runs out.
    pub fn upgraded(&self, alloc: Global) -> Result<Machine, Memory>
        ensures { IfOk result (λ machine. machine ≡ up self.now) }
    {
        let copy = self.copied(alloc)?;
        let controller = upgraded_controller(copy.version, copy.controller);
        Ok(Machine {
            version: 2,
            controller,
            ..copy
        })
    }

    /// Some parts describe the machine and break no rule. The call costs nothing: it says so to a caller's proof.
    pub fn law_described(&self)
        ensures { IsDescribed self.now }
    {
        let _version = self.version;
    }

    /// A machine keeps every rule. The call costs nothing: it says so to a caller's proof.
    pub fn law_rules(&self)
        ensures { IsMachine self.now }
    {
        let _version = self.version;
    }
}

/// The controller that a part describes.
fn controller_of(
    alloc: Global,
    part: Option<ControllerPart>,
) -> Result<Option<ControllerDesc>, Memory>
    requires { AreSoundQueries part }
    ensures { IfOk result (λ controller. controller ≡ option_map controller_of part) }
{
    let Some(part) = part else {
        return Ok(None);
    };
    Ok(Some(ControllerDesc {
        event: part.event,
        silent: part.silent,
        fickle: part.fickle,
        glk: part.glk,
        queries: queries_of(alloc, part.queries.into_vec())?,
    }))
}

/// The controller of a description of this version, as one of version 2 has it.
fn upgraded_controller(version: u8, controller: Option<ControllerDesc>) -> Option<ControllerDesc>
    ensures { result ≡ option_map (up_controller version) controller }
{
    let mut upgraded = controller?;
    upgraded.glk = version == 1 || upgraded.glk;
    Some(upgraded)
}

/// Whether the controller needs the Global Lock, in a description of this version.
fn glk(version: u8, controller: &Option<ControllerDesc>) -> bool
    ensures { result ≡ glk_in version controller.now }
{
    match controller {
        Some(controller) => version == 1 || controller.glk,
        None => false,
    }
}

/// The machine that parts describe which break no rule.
fn machine_of(alloc: Global, parts: MachineParts) -> Result<Machine, Memory>
    requires given { IsGiven parts }
    requires kept { first_fault parts ≡ None }
    requires sound { AreSound parts }
    ensures { IfOk result (λ machine. machine ≡ described parts) }
{
    let fields = fields_of(alloc, parts.regions.as_slice(), parts.fields.as_slice())?;
    let controller = controller_of(alloc, parts.controller)?;
    let acting = acting_of(alloc, glk(parts.version, &controller), fields.as_slice())?;
    Ok(Machine {
        version: parts.version,
        gpe0: parts.gpe0,
        base1: parts.base1,
        gpe1: parts.gpe1,
        workers: parts.workers,
        regions: regions_of(alloc, parts.regions.into_vec())?,
        fields,
        acting,
        events: events_of(alloc, parts.events.into_vec())?,
        controller,
        firmware: scripts_of(alloc, parts.firmware.into_vec())?,
        devices: parts.devices,
        schedule: parts.schedule,
    })
}
