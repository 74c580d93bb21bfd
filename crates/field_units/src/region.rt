ghost use Rattle.std.specs.Prelude.{◌≡◌, ◌≤◌, length};

use crate::RegionKind;
use std::marker::Model;

/// A region (ACPI 6.5, section 5.5.2.4), with the byte that each cell begins with.
#[derive(Debug, Drop)]
pub struct Region {
    kind: RegionKind,
    cells: Vec<u8>,
}

impl Model for Region {
    ghost use Rattle.std.specs.Prelude.{◌≤◌, length};
    ghost use Rattle.field_units.specs.Field.{RegionData};

    ghost Value = { RegionData };

    ghost view = { λ r. record { kind = r.kind; cells = r.cells.items } };

    ghost invariant = { λ r. (1 ≤ length r.cells.items) × (length r.cells.items ≤ 4096) };
}

impl Region {
    /// The region of these cells, of which there are 1 to 4,096.
    pub fn new(kind: RegionKind, cells: Vec<u8>) -> Region
        requires some { 1 ≤ length cells.items }
        requires few { length cells.items ≤ 4096 }
        ensures { result ≡ record { kind = kind; cells = cells.items } }
    {
        Region { kind, cells }
    }

    /// What stands behind the cells.
    pub fn kind(&self) -> RegionKind
        ensures { result ≡ self.now.kind }
    {
        self.kind
    }

    /// How many cells the region has, from 1 to 4,096.
    pub fn len(&self) -> u16
        ensures exact { result ≡ length self.now.cells }
        ensures some { 1 ≤ result }
        ensures few { result ≤ 4096 }
    {
        self.cells.len() as u16
    }

    /// The cells in order.
    pub fn cells(&self) -> &[u8]
        ensures { result.now ≡ self.now.cells }
    {
        &self.cells
    }
}
