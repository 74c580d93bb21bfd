//! Laws of the comparisons: `==` is true exactly where the two values are the same.
ghost use Rattle.std.specs.Prelude.{◌≡◌, ◌↔◌, IsTrue};

use crate::{ReadAllFault, ReadOutcome, WriteFault, WriteOutcome};

/// Outcomes of reads are equal exactly where they are the same.
pub fn law_read_outcomes_equal(one: &ReadOutcome, other: &ReadOutcome) -> bool
    ensures { IsTrue result ↔ (one.now ≡ other.now) }
{
    one == other
}

/// Outcomes of writes are equal exactly where they are the same.
pub fn law_write_outcomes_equal(one: &WriteOutcome, other: &WriteOutcome) -> bool
    ensures { IsTrue result ↔ (one.now ≡ other.now) }
{
    one == other
}

/// Faults of a reading to the end are equal exactly where they are the same.
pub fn law_read_all_faults_equal(one: &ReadAllFault, other: &ReadAllFault) -> bool
    ensures { IsTrue result ↔ (one.now ≡ other.now) }
{
    one == other
}

/// There is one fault of a write, and it equals itself.
pub fn law_write_faults_equal(one: &WriteFault, other: &WriteFault) -> bool
    ensures { IsTrue result }
{
    one == other
}
