//! What the actors of a machine stand for at their start: a fact for the proofs of the crates above, which costs
//! nothing to call.
ghost use Rattle.std.specs.Prelude.{◌≡◌, [], List};
ghost use Rattle.acpi_regs.specs.Core.{first_core, no_event};
ghost use Rattle.acpi_regs.specs.Phases.{first_phase};
ghost use Rattle.machine_desc.specs.Machine.{MachineData};
ghost use Rattle.sci_threads.specs.declared.any.AnyActor.{AnyActor};
ghost use Rattle.sci_threads.specs.Actors.{IsSound, core_in, phases_of};
ghost use Rattle.world.specs.Serial.{Serial, pins_of};

use core_laws::laws::{law_gives, law_sound};

/// A world with an empty journal, a free lock and no pin, with actors at their start, stands for the first core,
/// which is sound.
pub fn law_start()
    ensures first { (w : Serial) (actors : List AnyActor) → w.board.entries ≡ [] → w.words.facs ≡ 0
        → pins_of w ≡ no_event
        → phases_of actors ≡ first_phase → core_in w actors ≡ first_core }
    ensures sound { (m : MachineData) → IsSound m first_core }
{
    law_sound();
    law_gives();
}
