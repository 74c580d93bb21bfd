//! A board as the journal that a table of shared words keeps.
ghost use Rattle.std.specs.Prelude.{◌≡◌, length};

use crate::Board;
use acpi_regs::Recorded;
use machine_desc::Machine;

impl Recorded for Board {
    type Base = Machine;

    ghost base = { λ b. b.machine };

    ghost entries = { λ b. b.entries };

    fn len(&self) -> u32
        ensures { result ≡ length self.now.entries }
    {
        self.len()
    }
}
