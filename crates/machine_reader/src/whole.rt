//! The values of a description that are tested as a whole: one function for each definition of `specs/Shape.antt`.
ghost use Rattle.std.specs.Prelude.{◌≡◌, IfSome};
ghost use Rattle.serde_json.specs.View.{view};
ghost use Rattle.machine_reader.specs.Shape as shape;
ghost use Rattle.machine_reader.specs.Shape.{IsKnown, IsListedName, IsQueryCode};

use crate::names::{ListedName, QueryCode, actor_named, listed_named, query_named};
use crate::ops::{byte, event, half, number_up_to, op_in};
use crate::parts::Version;
use crate::path::ShapeFault;
use crate::walk::{Shaped, whole};
use acpi_regs::{Actor, Event};
use field_units::{RegionKind, UpdateRule};
use handler_script::Op;
use serde_json::Value;
use std::alloc::Global;

/// A number up to 4,294,967,295.
fn word(value: &Value) -> Option<u32>
    ensures { result ≡ shape.word (view value.now) }
{
    Some(number_up_to(4294967295, value)? as u32)
}

fn actor(value: &Value) -> Option<Actor>
    ensures { result ≡ shape.actor (view value.now) }
{
    actor_named(value.as_str()?)
}

fn listed(value: &Value) -> Option<ListedName>
    ensures value { result ≡ shape.listed (view value.now) }
    ensures given { IfSome result IsListedName }
{
    listed_named(value.as_str()?)
}

fn query_code(value: &Value) -> Option<QueryCode>
    ensures value { result ≡ shape.query_code (view value.now) }
    ensures given { IfSome result IsQueryCode }
{
    query_named(value.as_str()?)
}

fn kind_named(text: &str) -> Option<RegionKind>
    ensures { result ≡ shape.kind_named text.now }
{
    if text == "memory" {
        Some(RegionKind::Memory)
    } else if text == "controller" {
        Some(RegionKind::Controller)
    } else {
        None
    }
}

fn kind_in(value: &Value) -> Option<RegionKind>
    ensures { result ≡ shape.kind_in (view value.now) }
{
    kind_named(value.as_str()?)
}

fn update_named(text: &str) -> Option<UpdateRule>
    ensures { result ≡ shape.update_named text.now }
{
    if text == "preserve" {
        Some(UpdateRule::Preserve)
    } else if text == "ones" {
        Some(UpdateRule::WriteAsOnes)
    } else if text == "zeros" {
        Some(UpdateRule::WriteAsZeros)
    } else {
        None
    }
}

fn update_in(value: &Value) -> Option<UpdateRule>
    ensures { result ≡ shape.update_in (view value.now) }
{
    update_named(value.as_str()?)
}

fn version(value: &Value) -> Option<Version>
    ensures value { result ≡ shape.version (view value.now) }
    ensures given { IfSome result IsKnown }
{
    match byte(value)? {
        1 => Some(Version { number: 1 }),
        2 => Some(Version { number: 2 }),
        _ => None,
    }
}

impl Shaped for u8 {
    ghost use Rattle.machine_reader.specs.Shape.{byte_shape};

    ghost shape = { byte_shape };

    ghost Given = { λ _. Unit {0} };

    fn read(alloc: Global, value: &Value) -> Result<Self, ShapeFault> {
        whole(alloc, byte(value))
    }
}

impl Shaped for u16 {
    ghost use Rattle.machine_reader.specs.Shape.{half_shape};

    ghost shape = { half_shape };

    ghost Given = { λ _. Unit {0} };

    fn read(alloc: Global, value: &Value) -> Result<Self, ShapeFault> {
        whole(alloc, half(value))
    }
}

impl Shaped for u32 {
    ghost use Rattle.machine_reader.specs.Shape.{word_shape};

    ghost shape = { word_shape };

    ghost Given = { λ _. Unit {0} };

    fn read(alloc: Global, value: &Value) -> Result<Self, ShapeFault> {
        whole(alloc, word(value))
    }
}

impl Shaped for bool {
    ghost use Rattle.machine_reader.specs.Shape.{truth_shape};

    ghost shape = { truth_shape };

    ghost Given = { λ _. Unit {0} };

    fn read(alloc: Global, value: &Value) -> Result<Self, ShapeFault> {
        whole(alloc, value.as_bool())
    }
}

impl Shaped for Event {
    ghost use Rattle.machine_reader.specs.Shape.{event_shape};

    ghost shape = { event_shape };

    ghost Given = { λ _. Unit {0} };

    fn read(alloc: Global, value: &Value) -> Result<Self, ShapeFault> {
        whole(alloc, event(value))
    }
}

impl Shaped for Actor {
    ghost use Rattle.machine_reader.specs.Shape.{actor_shape};

    ghost shape = { actor_shape };

    ghost Given = { λ _. Unit {0} };

    fn read(alloc: Global, value: &Value) -> Result<Self, ShapeFault> {
        whole(alloc, actor(value))
    }
}

impl Shaped for RegionKind {
    ghost use Rattle.machine_reader.specs.Shape.{kind_shape};

    ghost shape = { kind_shape };

    ghost Given = { λ _. Unit {0} };

    fn read(alloc: Global, value: &Value) -> Result<Self, ShapeFault> {
        whole(alloc, kind_in(value))
    }
}

impl Shaped for UpdateRule {
    ghost use Rattle.machine_reader.specs.Shape.{update_shape};

    ghost shape = { update_shape };

    ghost Given = { λ _. Unit {0} };

    fn read(alloc: Global, value: &Value) -> Result<Self, ShapeFault> {
        whole(alloc, update_in(value))
    }
}

impl Shaped for Version {
    ghost use Rattle.machine_reader.specs.Shape.{IsKnown, version_shape};

    ghost shape = { version_shape };

    ghost Given = { IsKnown };

    fn read(alloc: Global, value: &Value) -> Result<Self, ShapeFault> {
        whole(alloc, version(value))
    }
}

impl Shaped for ListedName {
    ghost use Rattle.machine_reader.specs.Shape.{IsListedName, listed_shape};

    ghost shape = { listed_shape };

    ghost Given = { IsListedName };

    fn read(alloc: Global, value: &Value) -> Result<Self, ShapeFault> {
        whole(alloc, listed(value))
    }
}

impl Shaped for QueryCode {
    ghost use Rattle.machine_reader.specs.Shape.{IsQueryCode, query_code_shape};

    ghost shape = { query_code_shape };

    ghost Given = { IsQueryCode };

    fn read(alloc: Global, value: &Value) -> Result<Self, ShapeFault> {
        whole(alloc, query_code(value))
    }
}

impl Shaped for Op {
    ghost use Rattle.machine_desc.specs.Given.{HasCode};
    ghost use Rattle.machine_reader.specs.Shape.{op_shape};

    ghost shape = { op_shape };

    ghost Given = { HasCode };

    fn read(alloc: Global, value: &Value) -> Result<Self, ShapeFault> {
        whole(alloc, op_in(value))
    }
}
