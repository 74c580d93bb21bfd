//! The parts of a description in a JSON value: one function for each definition of `specs/Shape.antt`.
ghost use Rattle.std.specs.Prelude.{◌≡◌, All, IfOk, codes, true};
ghost use Rattle.serde_json.specs.View.{view};
ghost use Rattle.machine_desc.specs.Given.{IsEventPart, IsGiven, IsQueryPart};
ghost use Rattle.machine_reader.specs.Reading.{Reads, member_in};
ghost use Rattle.machine_reader.specs.Shape as shape;
ghost use Rattle.machine_reader.specs.Shape.{IsController};

use crate::names::{ListedName, QueryCode};
use crate::path::ShapeFault;
use crate::walk::{Shaped, has_names, member};
use machine_desc::{ControllerPart, EventPart, FieldPart, MachineParts, QueryPart, RegionPart};
use serde_json::Value;
use std::alloc::Global;
use std::marker::Model;

/// The GPE blocks of a description.
#[derive(Clone, Copy, Debug, PartialEq, Eq)]
pub struct Blocks {
    /// How many bytes the first block has.
    pub gpe0: u16,
    /// The number of the first event of the second block.
    pub base1: u16,
    /// How many bytes the second block has.
    pub gpe1: u16,
}

/// The version of a description.
#[derive(Clone, Copy, Debug, PartialEq, Eq)]
pub struct Version {
    /// Its number, 1 or 2.
    pub number: u8,
}

fn blocks_members(alloc: Global, value: &Value) -> Result<Blocks, ShapeFault>
    ensures { Reads (λ x. x) (shape.blocks_members (view value.now)) result }
{
    let gpe0 = member(alloc, "gpe0", value)?;
    let base1 = member(alloc, "base1", value)?;
    let gpe1 = member(alloc, "gpe1", value)?;
    Ok(Blocks { gpe0, base1, gpe1 })
}

impl Shaped for Blocks {
    ghost use Rattle.machine_reader.specs.Shape.{blocks_shape};

    ghost shape = { blocks_shape };

    ghost Given = { λ _. Unit {0} };

    fn read(alloc: Global, value: &Value) -> Result<Self, ShapeFault> {
        if !has_names(&["gpe0", "base1", "gpe1"], value) {
            return Err(ShapeFault::here(alloc));
        }
        blocks_members(alloc, value)
    }
}

fn region_members(alloc: Global, value: &Value) -> Result<RegionPart, ShapeFault>
    ensures { Reads (λ x. x) (shape.region_members (view value.now)) result }
{
    let kind = member(alloc, "kind", value)?;
    let len = member(alloc, "len", value)?;
    let bytes = member(alloc, "bytes", value)?;
    Ok(RegionPart { kind, len, bytes })
}

impl Shaped for RegionPart {
    ghost use Rattle.machine_reader.specs.Shape.{region_shape};

    ghost shape = { region_shape };

    ghost Given = { λ _. Unit {0} };

    fn read(alloc: Global, value: &Value) -> Result<Self, ShapeFault> {
        if !has_names(&["kind", "len", "bytes"], value) {
            return Err(ShapeFault::here(alloc));
        }
        region_members(alloc, value)
    }
}

fn field_members(alloc: Global, value: &Value) -> Result<FieldPart, ShapeFault>
    ensures { Reads (λ x. x) (shape.field_members (view value.now)) result }
{
    let region = member(alloc, "region", value)?;
    let bit = member(alloc, "bit", value)?;
    let width = member(alloc, "width", value)?;
    let lock = member(alloc, "lock", value)?;
    let update = member(alloc, "update", value)?;
    Ok(FieldPart {
        region,
        bit,
        width,
        lock,
        update,
    })
}

impl Shaped for FieldPart {
    ghost use Rattle.machine_reader.specs.Shape.{field_shape};

    ghost shape = { field_shape };

    ghost Given = { λ _. Unit {0} };

    fn read(alloc: Global, value: &Value) -> Result<Self, ShapeFault> {
        if !has_names(&["region", "bit", "width", "lock", "update"], value) {
            return Err(ShapeFault::here(alloc));
        }
        field_members(alloc, value)
    }
}

fn event_members(alloc: Global, value: &Value) -> Result<EventPart, ShapeFault>
    ensures reads { Reads (λ x. x) (shape.event_members (view value.now)) result }
    ensures given { IfOk result IsEventPart }
{
    let name: ListedName = member(alloc, "name", value)?;
    let refs = member(alloc, "refs", value)?;
    let script = member(alloc, "script", value)?;
    Ok(EventPart {
        event: name.event,
        level: name.level,
        refs,
        script,
    })
}

impl Shaped for EventPart {
    ghost use Rattle.machine_desc.specs.Given.{IsEventPart};
    ghost use Rattle.machine_reader.specs.Shape.{listed_event_shape};

    ghost shape = { listed_event_shape };

    ghost Given = { IsEventPart };

    fn read(alloc: Global, value: &Value) -> Result<Self, ShapeFault> {
        if !has_names(&["name", "refs", "script"], value) {
            return Err(ShapeFault::here(alloc));
        }
        event_members(alloc, value)
    }
}

fn query_members(alloc: Global, value: &Value) -> Result<QueryPart, ShapeFault>
    ensures reads { Reads (λ x. x) (shape.query_members (view value.now)) result }
    ensures given { IfOk result IsQueryPart }
{
    let name: QueryCode = member(alloc, "name", value)?;
    let script = member(alloc, "script", value)?;
    Ok(QueryPart {
        code: name.code,
        script,
    })
}

impl Shaped for QueryPart {
    ghost use Rattle.machine_desc.specs.Given.{IsQueryPart};
    ghost use Rattle.machine_reader.specs.Shape.{query_shape};

    ghost shape = { query_shape };

    ghost Given = { IsQueryPart };

    fn read(alloc: Global, value: &Value) -> Result<Self, ShapeFault> {
        if !has_names(&["name", "script"], value) {
            return Err(ShapeFault::here(alloc));
        }
        query_members(alloc, value)
    }
}

/// The controller of a description of version 1, or none. Contracts see it as such.
#[derive(Debug, Drop)]
struct ControllerOne {
    controller: Option<ControllerPart>,
}

impl Model for ControllerOne {
    ghost use Rattle.std.specs.Prelude.{Option};
    ghost use Rattle.machine_desc.specs.declared.parts.ControllerPart.{ControllerPart};

    ghost Value = { Option ControllerPart };

    ghost view = { λ c. c.controller };
}

fn controller_one_members(alloc: Global, value: &Value) -> Result<ControllerPart, ShapeFault>
    ensures reads { Reads (λ x. x) (shape.controller_one_members (view value.now)) result }
    ensures queries { IfOk result (λ c. All IsQueryPart c.queries) }
    ensures glk { IfOk result (λ c. c.glk ≡ true) }
{
    let event = member(alloc, "event", value)?;
    let silent = member(alloc, "silent", value)?;
    let fickle = member(alloc, "fickle", value)?;
    let queries = member(alloc, "queries", value)?;
    Ok(ControllerPart {
        event,
        silent,
        fickle,
        glk: true,
        queries,
    })
}

fn controller_one(alloc: Global, value: &Value) -> Result<ControllerPart, ShapeFault>
    ensures reads { Reads (λ x. x) (shape.controller_one (view value.now)) result }
    ensures queries { IfOk result (λ c. All IsQueryPart c.queries) }
    ensures glk { IfOk result (λ c. c.glk ≡ true) }
{
    if !has_names(&["event", "silent", "fickle", "queries"], value) {
        return Err(ShapeFault::here(alloc));
    }
    controller_one_members(alloc, value)
}

impl Shaped for ControllerOne {
    ghost use Rattle.machine_reader.specs.Shape.{IsController, controller_one, or_null};

    ghost shape = { or_null controller_one };

    ghost Given = { IsController 1 };

    fn read(alloc: Global, value: &Value) -> Result<Self, ShapeFault> {
        if value.is_null() {
            return Ok(ControllerOne { controller: None });
        }
        let controller = Some(controller_one(alloc, value)?);
        Ok(ControllerOne { controller })
    }
}

/// The controller of a description of version 2, or none. Contracts see it as such.
#[derive(Debug, Drop)]
struct ControllerTwo {
    controller: Option<ControllerPart>,
}

impl Model for ControllerTwo {
    ghost use Rattle.std.specs.Prelude.{Option};
    ghost use Rattle.machine_desc.specs.declared.parts.ControllerPart.{ControllerPart};

    ghost Value = { Option ControllerPart };

    ghost view = { λ c. c.controller };
}

fn controller_two_members(alloc: Global, value: &Value) -> Result<ControllerPart, ShapeFault>
    ensures reads { Reads (λ x. x) (shape.controller_two_members (view value.now)) result }
    ensures queries { IfOk result (λ c. All IsQueryPart c.queries) }
{
    let event = member(alloc, "event", value)?;
    let silent = member(alloc, "silent", value)?;
    let fickle = member(alloc, "fickle", value)?;
    let glk = member(alloc, "glk", value)?;
    let queries = member(alloc, "queries", value)?;
    Ok(ControllerPart {
        event,
        silent,
        fickle,
        glk,
        queries,
    })
}

fn controller_two(alloc: Global, value: &Value) -> Result<ControllerPart, ShapeFault>
    ensures reads { Reads (λ x. x) (shape.controller_two (view value.now)) result }
    ensures queries { IfOk result (λ c. All IsQueryPart c.queries) }
{
    if !has_names(&["event", "silent", "fickle", "glk", "queries"], value) {
        return Err(ShapeFault::here(alloc));
    }
    controller_two_members(alloc, value)
}

impl Shaped for ControllerTwo {
    ghost use Rattle.machine_desc.specs.Given.{HasQueries};
    ghost use Rattle.machine_reader.specs.Shape.{controller_two, or_null};

    ghost shape = { or_null controller_two };

    ghost Given = { HasQueries };

    fn read(alloc: Global, value: &Value) -> Result<Self, ShapeFault> {
        if value.is_null() {
            return Ok(ControllerTwo { controller: None });
        }
        let controller = Some(controller_two(alloc, value)?);
        Ok(ControllerTwo { controller })
    }
}

/// The controller or none, of a description of this version.
fn controller_in(
    alloc: Global,
    version: u8,
    value: &Value,
) -> Result<Option<ControllerPart>, ShapeFault>
    ensures reads { Reads (λ x. x)
        (member_in (codes "controller") (shape.controller_shape version) (view value.now)) result }
    ensures given { IfOk result (IsController version) }
{
    if version == 1 {
        return match member::<ControllerOne>(alloc, "controller", value) {
            Ok(one) => Ok(one.controller),
            Err(fault) => Err(fault),
        };
    }
    match member::<ControllerTwo>(alloc, "controller", value) {
        Ok(two) => Ok(two.controller),
        Err(fault) => Err(fault),
    }
}

fn description_members(alloc: Global, value: &Value) -> Result<MachineParts, ShapeFault>
    ensures reads { Reads (λ x. x) (shape.description_members (view value.now)) result }
    ensures given { IfOk result IsGiven }
{
    let version: Version = member(alloc, "version", value)?;
    let gpe: Blocks = member(alloc, "gpe", value)?;
    let workers = member(alloc, "workers", value)?;
    let regions = member(alloc, "regions", value)?;
    let fields = member(alloc, "fields", value)?;
    let events = member(alloc, "events", value)?;
    let controller = controller_in(alloc, version.number, value)?;
    let firmware = member(alloc, "firmware", value)?;
    let devices = member(alloc, "devices", value)?;
    let schedule = member(alloc, "schedule", value)?;
    Ok(MachineParts {
        version: version.number,
        gpe0: gpe.gpe0,
        base1: gpe.base1,
        gpe1: gpe.gpe1,
        workers,
        regions,
        fields,
        events,
        controller,
        firmware,
        devices,
        schedule,
    })
}

/// The names of a description.
const NAMES: [&str; 10] = [
    "version",
    "gpe",
    "workers",
    "regions",
    "fields",
    "events",
    "controller",
    "firmware",
    "devices",
    "schedule",
];

impl Shaped for MachineParts {
    ghost use Rattle.machine_desc.specs.Given.{IsGiven};
    ghost use Rattle.machine_reader.specs.Shape.{shape};

    ghost shape = { shape };

    ghost Given = { IsGiven };

    fn read(alloc: Global, value: &Value) -> Result<Self, ShapeFault> {
        if !has_names(&NAMES, value) {
            return Err(ShapeFault::here(alloc));
        }
        description_members(alloc, value)
    }
}
