//! The machine of a number and a size.
ghost use Rattle.std.specs.Prelude.{◌≡◌, ◌≤◌, IfOk};
ghost use Rattle.machine_desc.specs.Weight.{weight_of};
ghost use Rattle.machine_maker.specs.Maker.{made};

use crate::laws::law_made;
use crate::parts::machine_parts;
use acpi_regs::Memory;
use machine_desc::{Machine, MachineError};
use std::alloc::Global;

/// The machine of a number and of a size from 1 to 64, in version 1 of the description. It has 16 fields of a byte
/// each, which need the Global Lock, and 8 edge events. Its controller has handlers for the codes 1 to 8, each of which
/// adds 1 to a field and notifies. Four scripts of the firmware have 16 operations for each step of the size: each adds
/// 1 to a field or pushes a code, as the number draws. Two devices pulse the events in turn, 4 times for each step of
/// the size. The machine's weight is at most 1,048,576.
///
/// # Errors
/// `Memory` if the allocator had no room, and nothing else: such a machine breaks no rule ([`law_made`]).
pub fn make(alloc: Global, number: u32, size: u8) -> Result<Machine, Memory>
    requires some { 1 ≤ size }
    requires few { size ≤ 64 }
    ensures exact { IfOk result (λ machine. machine ≡ made number size) }
    ensures weight { IfOk result (λ machine. weight_of machine ≤ 1048576) }
{
    law_made();
    match Machine::new(alloc, machine_parts(alloc, number, size)?) {
        Ok(machine) => Ok(machine),
        Err(MachineError::Memory) => Err(Memory),
        Err(MachineError::BadMachine(_)) => unreachable!(),
    }
}
