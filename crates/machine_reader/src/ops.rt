//! Operations of scripts in a JSON value: one function for each definition of `specs/Shape.antt`.
ghost use Rattle.std.specs.Prelude.{◌≡◌, ◌≤◌, ◌<◌, IfSome};
ghost use Rattle.serde_json.specs.View.{view, items_view};
ghost use Rattle.machine_desc.specs.Given.{HasCode};
ghost use Rattle.machine_reader.specs.Shape as shape;

use crate::names::event_named;
use acpi_regs::Event;
use handler_script::Op;
use serde_json::Value;

/// A number up to `max`.
pub fn number_up_to(max: u64, value: &Value) -> Option<u64>
    ensures found { result ≡ shape.number_up_to max (view value.now) }
    ensures bound { IfSome result (λ n. n ≤ max) }
{
    value.as_u64().filter(|n| *n <= max)
}

/// A number up to 255.
pub fn byte(value: &Value) -> Option<u8>
    ensures { result ≡ shape.byte (view value.now) }
{
    Some(number_up_to(255, value)? as u8)
}

/// A number up to 65,535.
pub fn half(value: &Value) -> Option<u16>
    ensures { result ≡ shape.half (view value.now) }
{
    Some(number_up_to(65535, value)? as u16)
}

/// An event by its name.
pub fn event(value: &Value) -> Option<Event>
    ensures { result ≡ shape.event (view value.now) }
{
    event_named(value.as_str()?)
}

/// A code from 1 to 255.
fn code(value: &Value) -> Option<u8>
    ensures value { result ≡ shape.code (view value.now) }
    ensures some { IfSome result (λ q. 0 < q) }
{
    match byte(value)? {
        0 => None,
        code => Some(code),
    }
}

fn op_alone(name: &str) -> Option<Op>
    ensures value { result ≡ shape.op_alone name.now }
    ensures given { IfSome result HasCode }
{
    if name == "hold" {
        Some(Op::Hold)
    } else if name == "free" {
        Some(Op::Free)
    } else {
        None
    }
}

fn op_with_one(name: &str, x: &Value) -> Option<Op>
    ensures value { result ≡ shape.op_with_one name.now (view x.now) }
    ensures given { IfSome result HasCode }
{
    if name == "read" {
        Some(Op::Read(half(x)?))
    } else if name == "drop" {
        Some(Op::Drop(event(x)?))
    } else if name == "up" {
        Some(Op::Up(event(x)?))
    } else if name == "down" {
        Some(Op::Down(event(x)?))
    } else if name == "raise" {
        Some(Op::Raise(event(x)?))
    } else if name == "assert" {
        Some(Op::Assert(event(x)?))
    } else if name == "push" {
        Some(Op::Push(code(x)?))
    } else {
        None
    }
}

fn op_with_two(name: &str, x: &Value, y: &Value) -> Option<Op>
    ensures value { result ≡ shape.op_with_two name.now (view x.now) (view y.now) }
    ensures given { IfSome result HasCode }
{
    if name == "write" {
        Some(Op::Write(half(x)?, y.as_u64()?))
    } else if name == "add" {
        Some(Op::Add(half(x)?, y.as_u64()?))
    } else if name == "skip" {
        Some(Op::Skip(x.as_u64()?, half(y)?))
    } else if name == "notify" {
        Some(Op::Notify(byte(x)?, byte(y)?))
    } else {
        None
    }
}

/// The operation of a name with these operands.
#[tactic(auto, using(crate::proofs::Elements::op_named_more))]
fn op_named(name: &str, operands: &[Value]) -> Option<Op>
    ensures value { result ≡ shape.op_named name.now (items_view operands.now) }
    ensures given { IfSome result HasCode }
{
    match operands {
        [] => op_alone(name),
        [x] => op_with_one(name, x),
        [x, y] => op_with_two(name, x, y),
        _ => None,
    }
}

fn op_of(items: &[Value]) -> Option<Op>
    ensures value { result ≡ shape.op_of (items_view items.now) }
    ensures given { IfSome result HasCode }
{
    let [name, operands @ ..] = items else {
        return None;
    };
    op_named(name.as_str()?, operands)
}

/// An operation: an array of its name and its operands.
pub fn op_in(value: &Value) -> Option<Op>
    ensures value { result ≡ shape.op_in (view value.now) }
    ensures given { IfSome result HasCode }
{
    op_of(value.as_array()?)
}
