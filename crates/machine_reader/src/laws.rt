//! Laws of the descriptions, for the proofs of the crates above. They walk their machines and do nothing else.
ghost use Rattle.std.specs.Prelude.{◌≡◌, ◌↔◌, IsTrue};
ghost use Rattle.machine_reader.specs.Canonical.{canonical, description_json};
ghost use Rattle.machine_reader.specs.Description.{IsJson, machine_in, unless_long};
ghost use Rattle.machine_reader.specs.Laws.{ReadsBack};

use crate::ranges::law_machine_ranges;
use crate::{PathText, ReaderFault};
use machine_desc::Machine;
use machine_desc::laws::law_equality;

/// What [`crate::write_machine`] gives for a machine is read as an equal machine if its weight is at most 1,048,576:
/// [`crate::read_machine`] gives no other answer, unless memory runs out. Above that weight it answers `TooLong`.
/// The law is for both versions of a description.
pub fn law_read_back(machine: &Machine)
    ensures json { IsJson (canonical machine.now) (description_json machine.now) }
    ensures machine { machine_in (description_json machine.now) ≡ unless_long machine.now }
    ensures read { ReadsBack machine.now }
{
    law_machine_ranges(machine);
    machine.law_rules();
    machine.law_described();
}

/// No two machines have one canonical text.
pub fn law_one_text(one: &Machine, other: &Machine)
    ensures { canonical one.now ≡ canonical other.now → one.now ≡ other.now }
{
    law_machine_ranges(one);
    one.law_rules();
    one.law_described();
    law_machine_ranges(other);
    other.law_rules();
    other.law_described();
}

/// Two paths are `==` exactly if they are the same.
pub fn law_paths_equal(one: &PathText, other: &PathText) -> bool
    ensures { IsTrue result ↔ (one.now ≡ other.now) }
{
    one == other
}

/// Two faults are `==` exactly if they are the same.
pub fn law_faults_equal(one: &ReaderFault, other: &ReaderFault) -> bool
    ensures { IsTrue result ↔ (one.now ≡ other.now) }
{
    law_equality();
    one == other
}
