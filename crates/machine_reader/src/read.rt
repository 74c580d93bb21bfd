ghost use Rattle.std.specs.Prelude.{◌≡◌, IfOk};
ghost use Rattle.serde_json.specs.View.{view};
ghost use Rattle.machine_desc.specs.Given.{IsGiven};
ghost use Rattle.machine_desc.specs.Rules.{first_fault};
ghost use Rattle.machine_reader.specs.Description.{Describes, Finds, ReadsAs, found_at, kept_of, unless_broken, unless_long};

use crate::ReaderFault;
use crate::walk::{Shaped, outwards};
use machine_desc::{Machine, MachineParts};
use serde_json::{Category, Value};
use std::alloc::Global;

/// The greatest weight of a machine that is read.
const LIMIT: u64 = 1048576;

/// The machine, unless its history may be too long.
fn unless_long(machine: Machine) -> Result<Machine, ReaderFault>
    ensures { result ≡ unless_long machine }
{
    let weight = machine.weight();
    if weight > LIMIT {
        return Err(ReaderFault::TooLong(weight));
    }
    Ok(machine)
}

/// The machine of these parts.
fn machine_of(alloc: Global, parts: MachineParts) -> Result<Machine, ReaderFault>
    requires { IsGiven parts }
    ensures { Finds (unless_broken parts (first_fault parts)) result }
{
    match Machine::new(alloc, parts) {
        Ok(machine) => unless_long(machine),
        Err(fault) => Err(ReaderFault::from(fault)),
    }
}

/// The machine of these parts, of any weight.
fn kept_of(alloc: Global, parts: MachineParts) -> Result<Machine, ReaderFault>
    requires { IsGiven parts }
    ensures { Finds (kept_of parts (first_fault parts)) result }
{
    match Machine::new(alloc, parts) {
        Ok(machine) => Ok(machine),
        Err(fault) => Err(ReaderFault::from(fault)),
    }
}

/// The machine that a value describes, if the value is at this path of a larger one. Its weight is not tested.
///
/// # Errors
/// `BadShape` exactly if a value has not the form that a description has there, with the path of the first: the given
/// path, a dot, and the path inside the value, or the given path alone if the value itself fails. Else `BadMachine`
/// exactly if a rule of machines is broken, with the first. `Memory` if the allocator had no room.
#[tactic(auto, unfolding(crate::specs::Description::found_at))]
pub fn machine_at(alloc: Global, value: &Value, path: &[u8]) -> Result<Machine, ReaderFault>
    ensures { Finds (found_at path.now (view value.now)) result }
{
    match MachineParts::read(alloc, value) {
        Ok(parts) => kept_of(alloc, parts),
        Err(fault) => Err(ReaderFault::from(outwards(alloc, path, fault))),
    }
}

/// What the bytes hold, read by the form of its type.
///
/// # Errors
/// `NotJson` exactly if the bytes are no JSON text. Else `BadShape` exactly if a value has not its form, with the path
/// of the first. `Memory` if the allocator had no room. If an object has a name twice, the last value counts. Names are
/// compared after JSON's escapes.
pub fn read_shaped<T: Shaped>(alloc: Global, bytes: &[u8]) -> Result<T, ReaderFault>
    ensures reads { ReadsAs T.shape bytes.now result }
    ensures given { IfOk result T.Given }
{
    match Value::from_slice(alloc, bytes) {
        Ok(value) => match T::read(alloc, &value) {
            Ok(shaped) => Ok(shaped),
            Err(fault) => Err(ReaderFault::from(fault)),
        },
        Err(refused) => Err(match refused.classify() {
            Category::Memory => ReaderFault::Memory,
            _ => ReaderFault::NotJson,
        }),
    }
}

/// The machine that the bytes describe, in version 1 or 2.
///
/// # Errors
/// `NotJson` exactly if the bytes are no JSON text. Else `BadShape` exactly if a value has not the form that a
/// description has there, with the path of the first; else `BadMachine` exactly if a rule of machines is broken, with
/// the first; else `TooLong` exactly if the machine's weight is above 1,048,576. `Memory` if the allocator had no room.
/// If an object has a name twice, the last value counts. Names are compared after JSON's escapes.
#[tactic(auto, unfolding(crate::specs::Description::machine_in))]
pub fn read_machine(alloc: Global, bytes: &[u8]) -> Result<Machine, ReaderFault>
    ensures { Describes bytes.now result }
{
    match read_shaped::<MachineParts>(alloc, bytes) {
        Ok(parts) => machine_of(alloc, parts),
        Err(fault) => Err(fault),
    }
}
