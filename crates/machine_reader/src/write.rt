ghost use Rattle.std.specs.Prelude.{◌≡◌, IfOk};
ghost use Rattle.machine_reader.specs.Canonical.{canonical};

use crate::members::put_description;
use acpi_regs::Memory;
use machine_desc::Machine;
use std::alloc::Global;

/// The canonical text of a machine: its description as JSON, in the machine's version, with the names in byte order, no
/// space, and no zeros at the end of a region's bytes.
///
/// # Errors
/// `Memory` if the allocator had no room for the text.
pub fn write_machine(alloc: Global, machine: &Machine) -> Result<Vec<u8>, Memory>
    ensures { IfOk result (λ text. text.items ≡ canonical machine.now) }
{
    let mut text = Vec::new(alloc);
    put_description(&mut text, machine)?;
    Ok(text)
}
