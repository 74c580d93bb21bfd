ghost use Rattle.std.specs.Prelude.{◌≡◌, map};
ghost use Rattle.acpi_regs.specs.Core.{first_core};
ghost use Rattle.machine_desc.specs.Actors.{actors_of};
ghost use Rattle.machine_reader.specs.Canonical.{canonical};
ghost use Rattle.sci_threads.specs.Actors.{core_in, who};

use machine_desc::Machine;
use sci_threads::AnyActor;
use world::SerialWorld;

/// A machine that is ready to be replayed on one thread: the world with its board, its actors at their start, all
/// room taken, and its canonical text.
#[derive(Drop)]
pub struct Staged {
    pub machine: Machine,
    pub world: SerialWorld,
    pub actors: Vec<AnyActor>,
    pub text: Vec<u8>,
    ghost same: { world.board.machine ≡ machine },
    ghost whole: { map who actors.items ≡ actors_of machine },
    ghost first: { core_in world actors.items ≡ first_core },
    ghost canonical_text: { text.items ≡ canonical machine },
}
