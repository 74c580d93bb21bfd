ghost use Rattle.std.specs.Prelude.{◌≡◌};

use crate::rule::Rule;
use crate::view::View;
use acpi_regs::Recorded;
use atomic_table::Table;
use std::alloc::Global;

/// A board with the turn that one seat at a time has, the word of the Global Lock (ACPI 6.5, section 5.2.10.1), and
/// the pins of all events in five words.
///
/// Every call but `new` takes no memory, and none waits.
#[derive(Drop)]
pub struct LockTable<B: Recorded> {
    pub(crate) table: Table<Option<B>, View, B, Rule, Global>,
    ghost sized: { (table.shared.table_id.words ≡ 7) × (table.shared.table_id.slots ≡ 1) },
}
