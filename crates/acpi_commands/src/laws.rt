//! Laws of the comparisons: `==` is true exactly where the two values are the same.
ghost use Rattle.std.specs.Prelude.{◌≡◌, ◌↔◌, IsTrue};

use crate::Status;
use acpi_regs::laws::law_equality as law_actors;
use machine_desc::laws::law_equality;

/// Statuses are equal exactly where they are the same.
pub fn law_statuses_equal(one: &Status, other: &Status) -> bool
    ensures { IsTrue result ↔ (one.now ≡ other.now) }
{
    law_equality();
    law_actors();
    one == other
}
