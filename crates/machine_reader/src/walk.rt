//! The walk of a description, depth first: objects, their members, arrays, and values that are tested as a whole. There
//! is one function for each definition of `specs/Reading.antt`.
//!
//! It is public for readers of other objects, which may hold a machine as a member. Give each part of such an object a
//! type that is [`Shaped`]. Define its `shape` in the words of `specs/Reading.antt`, and let its `read` make the same
//! calls. Then [`crate::read_shaped`] reads the object from its bytes.
ghost use Rattle.std.specs.Prelude.{◌≡◌, ◌==◌, All, IfOk, IfSome, false, is_some, map, decimal};
ghost use Rattle.std.specs.List.{list_all};
ghost use Rattle.std.specs.Option.{option_map_or};
ghost use Rattle.serde_json.specs.Events.{members_len};
ghost use Rattle.serde_json.specs.Find.{as_object, get};
ghost use Rattle.serde_json.specs.View.{view, items_view};
ghost use Rattle.machine_reader.specs.Reading as reading;
ghost use Rattle.machine_reader.specs.Reading.{Outwards, Reads};

pub use crate::ops::{byte, event, half, number_up_to};
pub use crate::path::ShapeFault;
use itoa::Buffer;
use machine_desc::Items;
use serde_json::Value;
use std::alloc::Global;

/// What a description is made of. `shape` is the form that a JSON value must have, and what is read of a value of that
/// form. `Given` holds for whatever was read.
pub trait Shaped: Sized + Drop {
    ghost use Rattle.std.specs.Prelude.{ℕ, List, Result, IfOk};
    ghost use Rattle.serde_json.specs.Data.{Data};
    ghost use Rattle.serde_json.specs.View.{view};
    ghost use Rattle.machine_reader.specs.Reading.{Reads};

    ghost shape: { Data → Result Self (List ℕ) };

    ghost Given: { Self → Type 0 };

    /// Reads a value of this form.
    ///
    /// # Errors
    /// `BadShape` exactly if the value has not this form, with the path of the first value that fails: of this value,
    /// or of one inside it. `Memory` if the allocator had no room for what was read, or for the path.
    fn read(alloc: Global, value: &Value) -> Result<Self, ShapeFault>
        ensures reads { Reads (λ x. x) (shape (view value.now)) result }
        ensures given { IfOk result Given };
}

/// What was found in a value that is tested as a whole.
///
/// # Errors
/// `BadShape` with the empty path if nothing was found: the value itself fails.
pub fn whole<T: Drop>(alloc: Global, found: Option<T>) -> Result<T, ShapeFault>
    ensures { Reads (λ x. x) (reading.whole found) result }
{
    match found {
        Some(value) => Ok(value),
        None => Err(ShapeFault::here(alloc)),
    }
}

/// A fault, seen from one step further out.
pub(crate) fn outwards(alloc: Global, step: &[u8], fault: ShapeFault) -> ShapeFault
    ensures { Outwards step.now fault result }
{
    match fault {
        ShapeFault::BadShape(path) => match path.below(alloc, step) {
            Ok(longer) => ShapeFault::BadShape(longer),
            Err(_) => ShapeFault::Memory,
        },
        ShapeFault::Memory => ShapeFault::Memory,
    }
}

/// A fault in the element of a number, seen from its array.
fn at_number(alloc: Global, number: usize, fault: ShapeFault) -> ShapeFault
    ensures { Outwards (decimal number) fault result }
{
    let mut digits = Buffer::new();
    outwards(alloc, digits.format(number).as_bytes(), fault)
}

/// Whether the value is an object with this many members.
#[tactic(auto, using(crate::proofs::Elements::len_of_members))]
fn has_len(len: usize, value: &Value) -> bool
    ensures { result ≡ option_map_or (λ members. members_len members == len)
        (as_object (view value.now)) false }
{
    match value.as_object() {
        Some(members) => members.len() == len,
        None => false,
    }
}

/// Whether the value has a member of this name.
fn has_name(name: &str, value: &Value) -> bool
    ensures { result ≡ is_some (get name.now (view value.now)) }
{
    value.get(name).is_some()
}

/// Whether the value has a member of each of these names.
fn has_each_name(names: &[&str], value: &Value) -> bool
    ensures { result ≡ list_all (λ name. is_some (get name.now (view value.now))) names.now }
{
    names.iter().all(|name| has_name(name, value))
}

/// Whether the value is an object with exactly these names, which differ.
#[tactic(auto, using(crate::proofs::Elements::has_names_of_refs))]
pub fn has_names(names: &[&str], value: &Value) -> bool
    ensures { result ≡ reading.has_names (map (λ name. name.now) names.now) (view value.now) }
{
    has_len(names.len(), value) && has_each_name(names, value)
}

/// The member of a name.
///
/// # Errors
/// `BadShape` with the path of the first value that fails. The path is empty if there is no such member, and begins
/// with the name otherwise. `Memory` if there was no room for what was read, or for the path.
pub fn member<T: Shaped>(alloc: Global, name: &str, value: &Value) -> Result<T, ShapeFault>
    ensures reads { Reads (λ x. x) (reading.member_in name.now T.shape (view value.now)) result }
    ensures given { IfOk result T.Given }
{
    match value.get(name) {
        Some(part) => match T::read(alloc, part) {
            Ok(x) => Ok(x),
            Err(fault) => Err(outwards(alloc, name.as_bytes(), fault)),
        },
        None => Err(ShapeFault::here(alloc)),
    }
}

/// The elements, in order.
fn each<T: Shaped>(alloc: Global, items: &[Value]) -> Result<Vec<T>, ShapeFault>
    ensures reads { Reads (λ parts. parts.items) (reading.each_from 0 T.shape (items_view items.now)) result }
    ensures given { IfOk result (λ parts. All T.Given parts.items) }
{
    let mut parts = Vec::new(alloc);
    for number in 0..items.len() {
        match T::read(alloc, &items[number]) {
            Ok(part) => parts.push(part)?,
            Err(fault) => return Err(at_number(alloc, number, fault)),
        }
    }
    Ok(parts)
}

/// The elements of an array, in order.
///
/// # Errors
/// `BadShape` with the empty path if the value is no array, else with the path of the first value that fails, which
/// begins with its element's number. `Memory` if there was no room for what was read, or for the path.
pub fn list_of<T: Shaped>(alloc: Global, value: &Value) -> Result<Items<T>, ShapeFault>
    ensures reads { Reads (λ x. x) (reading.list_of T.shape (view value.now)) result }
    ensures given { IfOk result (All T.Given) }
{
    match value.as_array() {
        Some(items) => Ok(Items::new(each(alloc, items)?)),
        None => Err(ShapeFault::here(alloc)),
    }
}

impl<T: Shaped> Shaped for Items<T> {
    ghost use Rattle.std.specs.Prelude.{All};
    ghost use Rattle.machine_reader.specs.Reading.{list_of};

    ghost shape = { list_of T.shape };

    ghost Given = { All T.Given };

    fn read(alloc: Global, value: &Value) -> Result<Self, ShapeFault> {
        list_of(alloc, value)
    }
}
