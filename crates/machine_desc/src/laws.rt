//! Laws of machines and of the comparisons: facts for the proofs of the crates above, which cost nothing to call.
ghost use Rattle.acpi_regs.specs.Comparisons.{IsExact};
ghost use Rattle.machine_desc.specs.Scripts.{ServesAll};
ghost use Rattle.machine_desc.specs.contracts.fault.BadMachinePartialEq.TheImpl as bad_machine_eq;
ghost use Rattle.machine_desc.specs.contracts.fault.MachineErrorPartialEq.TheImpl as machine_error_eq;
ghost use Rattle.machine_desc.specs.contracts.fault.PartPartialEq.TheImpl as part_eq;
ghost use Rattle.machine_desc.specs.contracts.fault.PlacePartialEq.TheImpl as place_eq;
ghost use Rattle.machine_desc.specs.contracts.fault.RulePartialEq.TheImpl as rule_eq;
ghost use Rattle.machine_desc.specs.contracts.fault.SpotPartialEq.TheImpl as spot_eq;

use crate::{BadMachine, MachineError, Part, Place, Rule, Spot};

/// A machine that keeps the rules has a worker, lists neither the event of the Global Lock nor that of its
/// controller, and in each of its scripts the lock is taken and given back in turn, held where an act needs it, and
/// each act is one that the script's side may make. Nothing else is asked of a machine for that.
pub fn law_scripts()
    ensures { ServesAll }
{}

/// Two values are `==` exactly where they are the same.
pub fn law_equality()
    ensures rule { IsExact Rule (rule_eq.ghosts).eq }
    ensures part { IsExact Part (part_eq.ghosts).eq }
    ensures place { IsExact Place (place_eq.ghosts).eq }
    ensures bad_machine { IsExact BadMachine (bad_machine_eq.ghosts).eq }
    ensures spot { IsExact Spot (spot_eq.ghosts).eq }
    ensures machine_error { IsExact MachineError (machine_error_eq.ghosts).eq }
{}
