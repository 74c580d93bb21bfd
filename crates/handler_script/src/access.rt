//! The acts on the bytes of a field.
ghost use Rattle.std.specs.Prelude.{◌≡◌, ◌<◌, ◌%◌, ◌^◌, true};
ghost use Rattle.field_units.specs.Bits.{byte_count};
ghost use Rattle.field_units.specs.Field.{is_controller};
ghost use Rattle.handler_script.specs.Left.{written};
ghost use Rattle.handler_script.specs.Parts.{bursts, cell_of, read_act, reads_first, takes_lock, write_act};

use crate::{Act, Op};
use acpi_regs::{Cell, Request};
use field_units::{FieldUnit, RegionKind, UpdateRule};

fn is_controllers(field: &FieldUnit) -> bool
    ensures { result ≡ is_controller field.now.kind }
{
    matches!(field.kind(), RegionKind::Controller)
}

pub(crate) fn takes_lock(field: &FieldUnit, held: bool) -> bool
    ensures { result ≡ takes_lock field.now held }
{
    field.needs_lock() && !held
}

pub(crate) fn bursts(field: &FieldUnit) -> bool
    ensures { result ≡ bursts field.now }
{
    is_controllers(field) && field.bytes_of().count > 1
}

pub(crate) fn reads_first(field: &FieldUnit, k: u8) -> bool
    requires { k < byte_count field.now }
    ensures { result ≡ reads_first field.now k }
{
    field.partial(k) && matches!(field.update(), UpdateRule::Preserve)
}

fn cell_of(field: &FieldUnit, k: u8) -> Cell
    requires { k < byte_count field.now }
    ensures { result ≡ cell_of field.now k }
{
    field.law_fits();
    Cell {
        region: field.region(),
        offset: field.bytes_of().first + u16::from(k),
    }
}

/// The address of a byte in the controller's space, which has 256 cells.
fn address_of(field: &FieldUnit, k: u8) -> u8
    requires within { k < byte_count field.now }
    requires asked { is_controller field.now.kind ≡ true }
    ensures { result ≡ (cell_of field.now k).offset }
{
    field.law_fits();
    cell_of(field, k).offset as u8
}

pub(crate) fn read_act(field: &FieldUnit, k: u8) -> Act
    requires { k < byte_count field.now }
    ensures { result ≡ read_act field.now k }
{
    match field.kind() {
        RegionKind::Memory => Act::Read(cell_of(field, k)),
        RegionKind::Controller => Act::Ask(Request::Rd(address_of(field, k))),
    }
}

pub(crate) fn write_act(field: &FieldUnit, k: u8, byte: u8) -> Act
    requires { k < byte_count field.now }
    ensures { result ≡ write_act field.now k byte }
{
    match field.kind() {
        RegionKind::Memory => Act::Write(cell_of(field, k), byte),
        RegionKind::Controller => Act::Ask(Request::Wr(address_of(field, k), byte)),
    }
}

/// The value modulo 2 to the field's width.
fn cut(field: &FieldUnit, value: u64) -> u64
    ensures { result ≡ value % 2 ^ field.now.width }
{
    field.law_fits();
    if field.width() < 64 {
        value % (1 << field.width())
    } else {
        value
    }
}

/// The value that an operation writes to its field, where `last` was read last.
pub(crate) fn written(op: Op, field: &FieldUnit, last: u64) -> u64
    ensures { result ≡ written op field.now last }
{
    field.law_fits();
    match op {
        Op::Write(_, value) => cut(field, value),
        Op::Add(_, value) => cut(field, last.wrapping_add(value)),
        _ => 0,
    }
}
