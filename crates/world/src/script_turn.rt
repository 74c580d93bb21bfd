ghost use Rattle.std.specs.Prelude.{◌≡◌, false, None};
ghost use Rattle.machine_history.specs.Legal.{is_host};

use crate::may::add;
use crate::script::{has_ended, script_entry};
use crate::{Acted, Duty};
use acpi_regs::{Actor, Deed, LockPhase};
use lock_table::Bits;
use machine_core::Board;

/// The turn of a worker or a firmware: it adds the one entry of its phase, where the board allows it. Afterwards it
/// tells which, and whether its script had ended.
#[derive(Drop)]
pub struct ScriptTurn {
    pub actor: Actor,
    pub phase: LockPhase,
    pub made: Option<Deed>,
    pub ended: bool,
    ghost runs: { is_host actor ≡ false },
}

impl ScriptTurn {
    /// The turn of this worker or firmware in a phase, before anything was added.
    pub fn new(actor: Actor, phase: LockPhase) -> ScriptTurn
        requires { is_host actor ≡ false }
        ensures actor { result.actor ≡ actor }
        ensures phase { result.phase ≡ phase }
    {
        ScriptTurn {
            actor,
            phase,
            made: None,
            ended: false,
        }
    }
}

impl Duty for ScriptTurn {
    ghost use Rattle.acpi_regs.specs.Phases.{lock_deed};
    ghost use Rattle.world.specs.Stepping.{ScriptDone};

    ghost actor_of = { λ d. d.actor };

    ghost lock = { λ d. lock_deed d.phase };

    ghost does = { λ m d d' before after events answer. ScriptDone m d.actor d.phase d'.made d'.ended before after
        answer };

    fn actor(&self) -> Actor {
        self.actor
    }

    fn act(&mut self, board: &mut Board, bits: Bits) -> Acted {
        let _ = bits;
        self.ended = has_ended(board, self.actor, self.phase);
        self.made = script_entry(board, self.actor, self.phase);
        add(board, self.actor, self.made)
    }
}
