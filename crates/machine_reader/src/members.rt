//! The parts of a machine, written as JSON: each piece by piece, and that the pieces are its text.
ghost use Rattle.std.specs.Prelude.{◌≡◌, ◌++◌, OnOk, map};
ghost use Rattle.std.specs.Option.{option_copied};
ghost use Rattle.field_units.specs.Field.{is_lock};
ghost use Rattle.machine_reader.specs.Canonical.{blocks_json, canonical, controller_json, without_zeros};
ghost use Rattle.machine_reader.specs.Texts as texts;
ghost use Rattle.machine_reader.specs.Texts.{json_text};

use crate::bytes::{put, put_number};
use crate::list::{Written, put_list};
use crate::written::{put_listed, put_query_name};
use acpi_regs::{Actor, Event};
use field_units::{FieldUnit, LockRule, Region, RegionKind, UpdateRule};
use handler_script::Script;
use machine_desc::{ControllerDesc, Items, ListedEvent, Machine, Query};
use std::alloc::AllocError;

/// The bytes without the zeros at their end.
pub fn without_zeros(cells: &[u8]) -> &[u8]
    ensures { result.now ≡ without_zeros cells.now }
{
    let mut bytes = cells;
    while let Some((last, front)) = bytes.split_last() {
        if *last != 0 {
            return bytes;
        }
        bytes = front;
    }
    bytes
}

fn kind_text(kind: RegionKind) -> &'static [u8]
    ensures { result.now ≡ texts.kind_text kind }
{
    match kind {
        RegionKind::Memory => b",\"kind\":\"memory\",\"len\":",
        RegionKind::Controller => b",\"kind\":\"controller\",\"len\":",
    }
}

fn put_region(out: &mut Vec<u8>, region: &Region) -> Result<(), AllocError>
    ensures { OnOk result (out.new.items ≡ out.old.items ++ texts.region_text region.now) }
{
    put(out, b"{\"bytes\":")?;
    put_list(out, without_zeros(region.cells()))?;
    put(out, kind_text(region.kind()))?;
    put_number(out, u64::from(region.len()))?;
    put(out, b"}")
}

impl Written for Region {
    ghost use Rattle.machine_reader.specs.Canonical.{region_json};

    ghost json = { region_json };

    #[tactic(auto, using(crate::proofs::Pieces::region_pieces))]
    fn put(&self, out: &mut Vec<u8>) -> Result<(), AllocError> {
        put_region(out, self)
    }
}

fn lock_text(lock: LockRule) -> &'static [u8]
    ensures { result.now ≡ texts.lock_text (is_lock lock) }
{
    match lock {
        LockRule::Lock => b",\"lock\":true,\"region\":",
        LockRule::NoLock => b",\"lock\":false,\"region\":",
    }
}

fn update_text(update: UpdateRule) -> &'static [u8]
    ensures { result.now ≡ texts.update_text update }
{
    match update {
        UpdateRule::Preserve => b",\"update\":\"preserve\",\"width\":",
        UpdateRule::WriteAsOnes => b",\"update\":\"ones\",\"width\":",
        UpdateRule::WriteAsZeros => b",\"update\":\"zeros\",\"width\":",
    }
}

fn put_field(out: &mut Vec<u8>, field: &FieldUnit) -> Result<(), AllocError>
    ensures { OnOk result (out.new.items ≡ out.old.items ++ texts.field_text field.now) }
{
    put(out, b"{\"bit\":")?;
    put_number(out, u64::from(field.bit()))?;
    put(out, lock_text(field.lock()))?;
    put_number(out, u64::from(field.region()))?;
    put(out, update_text(field.update()))?;
    put_number(out, u64::from(field.width()))?;
    put(out, b"}")
}

impl Written for FieldUnit {
    ghost use Rattle.machine_reader.specs.Canonical.{field_json};

    ghost json = { field_json };

    #[tactic(auto, using(crate::proofs::Pieces::field_pieces))]
    fn put(&self, out: &mut Vec<u8>) -> Result<(), AllocError> {
        put_field(out, self)
    }
}

fn put_event(out: &mut Vec<u8>, event: &ListedEvent) -> Result<(), AllocError>
    ensures { OnOk result (out.new.items ≡ out.old.items ++ texts.listed_text event.now) }
{
    put(out, b"{\"name\":")?;
    put_listed(out, event.listed.event, event.listed.level)?;
    put(out, b",\"refs\":")?;
    put_number(out, u64::from(event.listed.refs))?;
    put(out, b",\"script\":")?;
    event.script.put(out)?;
    put(out, b"}")
}

impl Written for ListedEvent {
    ghost use Rattle.machine_reader.specs.Canonical.{listed_json};

    ghost json = { listed_json };

    #[tactic(auto, using(crate::proofs::Pieces::listed_pieces))]
    fn put(&self, out: &mut Vec<u8>) -> Result<(), AllocError> {
        put_event(out, self)
    }
}

fn put_query(out: &mut Vec<u8>, query: &Query) -> Result<(), AllocError>
    ensures { OnOk result (out.new.items ≡ out.old.items ++ texts.query_text query.now) }
{
    put(out, b"{\"name\":")?;
    put_query_name(out, query.code)?;
    put(out, b",\"script\":")?;
    query.script.put(out)?;
    put(out, b"}")
}

impl Written for Query {
    ghost use Rattle.machine_reader.specs.Canonical.{query_json};

    ghost json = { query_json };

    #[tactic(auto, using(crate::proofs::Pieces::query_pieces))]
    fn put(&self, out: &mut Vec<u8>) -> Result<(), AllocError> {
        put_query(out, self)
    }
}

fn fickle_text(fickle: bool) -> &'static [u8]
    ensures { result.now ≡ texts.fickle_text fickle }
{
    if fickle {
        b",\"fickle\":true"
    } else {
        b",\"fickle\":false"
    }
}

/// `glk` in a description of this version, and the name of the queries.
fn glk_text(version: u8, glk: bool) -> &'static [u8]
    ensures { result.now ≡ texts.glk_text version glk }
{
    if version == 1 {
        b",\"queries\":"
    } else if glk {
        b",\"glk\":true,\"queries\":"
    } else {
        b",\"glk\":false,\"queries\":"
    }
}

fn silent_text(silent: bool) -> &'static [u8]
    ensures { result.now ≡ texts.silent_text silent }
{
    if silent {
        b",\"silent\":true}"
    } else {
        b",\"silent\":false}"
    }
}

fn put_present_controller(
    out: &mut Vec<u8>,
    version: u8,
    controller: &ControllerDesc,
) -> Result<(), AllocError>
    ensures { OnOk result (out.new.items ≡ out.old.items ++ texts.controller_text version controller.now) }
{
    put(out, b"{\"event\":")?;
    controller.event.put(out)?;
    put(out, fickle_text(controller.fickle))?;
    put(out, glk_text(version, controller.glk))?;
    put_list(out, controller.queries.as_slice())?;
    put(out, silent_text(controller.silent))
}

/// The controller or null, in a description of this version.
#[tactic(auto, using(crate::proofs::Pieces::controller_texts))]
fn put_controller(
    out: &mut Vec<u8>,
    version: u8,
    controller: Option<&ControllerDesc>,
) -> Result<(), AllocError>
    ensures { OnOk result (out.new.items
        ≡ out.old.items ++ json_text (controller_json version (option_copied controller.entry))) }
{
    match controller {
        Some(controller) => put_present_controller(out, version, controller),
        None => put(out, b"null"),
    }
}

fn put_each_block(out: &mut Vec<u8>, gpe0: u16, base1: u16, gpe1: u16) -> Result<(), AllocError>
    ensures { OnOk result (out.new.items ≡ out.old.items ++ texts.blocks_text gpe0 base1 gpe1) }
{
    put(out, b"{\"base1\":")?;
    put_number(out, u64::from(base1))?;
    put(out, b",\"gpe0\":")?;
    put_number(out, u64::from(gpe0))?;
    put(out, b",\"gpe1\":")?;
    put_number(out, u64::from(gpe1))?;
    put(out, b"}")
}

/// The GPE blocks.
#[tactic(auto, using(crate::proofs::Pieces::blocks_pieces))]
fn put_blocks(out: &mut Vec<u8>, gpe0: u16, base1: u16, gpe1: u16) -> Result<(), AllocError>
    ensures { OnOk result (out.new.items ≡ out.old.items ++ json_text (blocks_json gpe0 base1 gpe1)) }
{
    put_each_block(out, gpe0, base1, gpe1)
}

/// The members up to the fields.
fn put_first_members(
    out: &mut Vec<u8>,
    version: u8,
    controller: Option<&ControllerDesc>,
    devices: &[Items<Event>],
    events: &[ListedEvent],
    fields: &[FieldUnit],
) -> Result<(), AllocError>
    ensures { OnOk result (out.new.items ≡ out.old.items
        ++ texts.first_text version (option_copied controller.entry) devices.now events.now fields.now) }
{
    put(out, b"{\"controller\":")?;
    put_controller(out, version, controller)?;
    put(out, b",\"devices\":")?;
    put_list(out, devices)?;
    put(out, b",\"events\":")?;
    put_list(out, events)?;
    put(out, b",\"fields\":")?;
    put_list(out, fields)
}

/// The members from the firmware to the regions.
fn put_next_members(
    out: &mut Vec<u8>,
    firmware: &[Script],
    gpe: (u16, u16, u16),
    regions: &[Region],
) -> Result<(), AllocError>
    ensures { OnOk result (out.new.items ≡ out.old.items
        ++ texts.next_text firmware.now gpe.0 gpe.1 gpe.2 regions.now) }
{
    put(out, b",\"firmware\":")?;
    put_list(out, firmware)?;
    put(out, b",\"gpe\":")?;
    put_blocks(out, gpe.0, gpe.1, gpe.2)?;
    put(out, b",\"regions\":")?;
    put_list(out, regions)
}

/// The last members.
fn put_last_members(
    out: &mut Vec<u8>,
    schedule: &[Actor],
    version: u8,
    workers: u8,
) -> Result<(), AllocError>
    ensures { OnOk result (out.new.items ≡ out.old.items ++ texts.last_text schedule.now version workers) }
{
    put(out, b",\"schedule\":")?;
    put_list(out, schedule)?;
    put(out, b",\"version\":")?;
    put_number(out, u64::from(version))?;
    put(out, b",\"workers\":")?;
    put_number(out, u64::from(workers))?;
    put(out, b"}")
}

/// The description of a machine, piece by piece.
pub fn put_description(out: &mut Vec<u8>, machine: &Machine) -> Result<(), AllocError>
    ensures { OnOk result (out.new.items ≡ out.old.items ++ canonical machine.now) }
{
    put_first_members(
        out,
        machine.version(),
        machine.controller(),
        machine.devices(),
        machine.events(),
        machine.fields(),
    )?;
    let gpe = (machine.gpe0(), machine.base1(), machine.gpe1());
    put_next_members(out, machine.firmware(), gpe, machine.regions())?;
    put_last_members(
        out,
        machine.schedule(),
        machine.version(),
        machine.workers(),
    )
}
