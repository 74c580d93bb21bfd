ghost use Rattle.std.specs.Prelude.{◌≡◌, true};
ghost use Rattle.machine_history.specs.Legal.{is_host};

use crate::host::host_entry;
use crate::latches::latch_all;
use acpi_regs::Actor;
use lock_table::Bits;
use machine_core::Board;
use world::{Acted, Duty, add};

/// The turn of int or poll: a latch of each event that was collected, and where there was none, one entry.
#[derive(Drop)]
pub struct HostTurn {
    pub actor: Actor,
    ghost host: { is_host actor ≡ true },
}

impl HostTurn {
    /// The turn of this actor, int or poll.
    pub fn new(actor: Actor) -> HostTurn
        requires { is_host actor ≡ true }
        ensures { result.actor ≡ actor }
    {
        HostTurn { actor }
    }
}

impl Duty for HostTurn {
    ghost use Rattle.std.specs.Prelude.{◌≡◌, ◌++◌, None, reverse};
    ghost use Rattle.os_actors.specs.Hosts.{host_adds};
    ghost use Rattle.world.specs.Duties.{did};

    ghost actor_of = { λ d. d.actor };

    ghost lock = { λ d. None };

    ghost does = { λ m d d' before after events answer.
        (after ≡ before ++ host_adds m d.actor (reverse before) events)
        × (answer ≡ did (host_adds m d.actor (reverse before) events)) };

    fn actor(&self) -> Actor {
        self.actor
    }

    fn act(&mut self, board: &mut Board, bits: Bits) -> Acted {
        if latch_all(board, self.actor, bits) {
            return Acted::Did;
        }
        let made = host_entry(board, self.actor);
        add(board, self.actor, made)
    }
}
