//! The bytes of the cells in memory, region by region.
ghost use Rattle.std.specs.Prelude.{◌≡◌, ◌<◌, IfOk, None, slice_index, slice_set};
ghost use Rattle.acpi_regs.specs.declared.entry.Cell.{Cell};
ghost use Rattle.machine_desc.specs.Machine.{MachineData};
ghost use Rattle.machine_history.specs.Values.{deed_access, value_after};
ghost use Rattle.machine_core.specs.Cells.{IsIn, byte_in, first_bytes, kept_bytes, written};

use acpi_regs::{Cell, Deed, Entry, Memory};
use field_units::{Region, RegionKind};
use machine_desc::Machine;
use machine_history::Access;
use std::alloc::{AllocError, Global};
use std::marker::Model;

/// The access to memory that an entry makes.
pub fn access_of(entry: Entry) -> Option<Access>
    ensures { (m : MachineData) → result ≡ deed_access m None entry.actor entry.deed }
{
    let (cell, byte, writes) = match entry.deed {
        Deed::Read(cell, byte) => (cell, byte, false),
        Deed::Write(cell, byte) => (cell, byte, true),
        _ => return None,
    };
    Some(Access {
        by: entry.actor,
        cell,
        byte,
        writes,
    })
}

/// The bytes with which the cells of a region begin; none where the controller keeps them.
fn bytes_of(alloc: Global, region: &Region) -> Result<Vec<u8>, AllocError>
    ensures { IfOk result (λ bytes. bytes.items ≡ kept_bytes region.now) }
{
    match region.kind() {
        RegionKind::Memory => region.cells().to_vec(alloc),
        RegionKind::Controller => Ok(Vec::new(alloc)),
    }
}

/// The bytes of a region's cells.
#[derive(Debug, Drop)]
struct Bytes {
    bytes: Vec<u8>,
}

impl Model for Bytes {
    ghost use Rattle.std.specs.Prelude.{List, ℕ};

    ghost Value = { List ℕ };

    ghost view = { λ b. b.bytes.items };
}

impl Bytes {
    /// The byte at an offset, or 0 past the end.
    fn byte(&self, offset: usize) -> u8
        ensures { result ≡ slice_index self.now offset }
    {
        self.bytes.get(offset).copied().unwrap_or(0)
    }

    /// Writes a byte, or nothing past the end.
    fn write(&mut self, offset: usize, byte: u8)
        ensures { self.new ≡ slice_set self.old offset byte }
    {
        if offset < self.bytes.len() {
            self.bytes[offset] = byte;
        }
    }
}

/// The bytes of all cells in memory, region by region.
#[derive(Debug, Drop)]
pub struct Cells {
    regions: Vec<Bytes>,
}

impl Model for Cells {
    ghost use Rattle.std.specs.Prelude.{List, ℕ};

    ghost Value = { List (List ℕ) };

    ghost view = { λ c. c.regions.items };
}

impl Cells {
    /// The bytes with which the cells of a machine begin.
    pub fn new(alloc: Global, machine: &Machine) -> Result<Cells, Memory>
        ensures { IfOk result (λ cells. cells ≡ first_bytes machine.now) }
    {
        let mut regions = Vec::with_capacity(alloc, machine.regions().len())?;
        for region in machine.regions() {
            let bytes = bytes_of(alloc, region)?;
            regions.push(Bytes { bytes })?;
        }
        Ok(Cells { regions })
    }

    /// The byte of a cell, or 0 where there is none.
    pub fn byte(&self, cell: Cell) -> u8
        ensures { result ≡ byte_in self.now cell }
    {
        match self.regions.get(usize::from(cell.region)) {
            Some(region) => region.byte(usize::from(cell.offset)),
            None => 0,
        }
    }

    /// Makes an access.
    pub fn make(&mut self, access: Option<Access>)
        ensures values { (c : Cell) → IsIn self.old c
            → byte_in self.new c ≡ value_after c access (byte_in self.old c) }
        ensures kept { (c : Cell) → IsIn self.old c → IsIn self.new c }
    {
        if let Some(access) = access {
            if access.writes {
                self.write(access.cell, access.byte);
            }
        }
    }

    /// Writes a byte to a cell, or nothing where there is none.
    fn write(&mut self, cell: Cell, byte: u8)
        ensures { self.new ≡ written self.old cell byte }
    {
        let number = usize::from(cell.region);
        if number < self.regions.len() {
            self.regions[number].write(usize::from(cell.offset), byte);
        }
    }
}
