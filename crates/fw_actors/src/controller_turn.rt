ghost use Rattle.std.specs.Prelude.{◌≡◌, reverse};
ghost use Rattle.std.specs.Option.{option_map};
ghost use Rattle.machine_history.specs.Steps.{ctl_entry};

use acpi_regs::{Actor, Deed, Effect};
use lock_table::Bits;
use machine_core::Board;
use world::{Acted, Duty, add, otherwise, where_may};

/// The controller's turn: its next move, else it leaves burst mode where it may.
#[derive(Drop)]
pub struct ControllerTurn {}

impl Duty for ControllerTurn {
    ghost use Rattle.std.specs.Prelude.{◌≡◌, ◌++◌, None, reverse};
    ghost use Rattle.acpi_regs.specs.declared.actor.Actor.TheVariants as actor;
    ghost use Rattle.fw_actors.specs.Hardware.{ctl_adds};
    ghost use Rattle.world.specs.Duties.{did};

    ghost actor_of = { λ d. actor.Ec };

    ghost lock = { λ d. None };

    ghost does = { λ m d d' before after events answer. (after ≡ before ++ ctl_adds m (reverse before) events)
        × (answer ≡ did (ctl_adds m (reverse before) events)) };

    fn actor(&self) -> Actor {
        Actor::Ec
    }

    fn act(&mut self, board: &mut Board, bits: Bits) -> Acted {
        let _ = bits;
        let made = ctl_entry(board, Actor::Ec);
        add(board, Actor::Ec, made)
    }
}

fn ctl_entry(board: &Board, actor: Actor) -> Option<Deed>
    ensures { result ≡ ctl_entry board.now.machine (reverse board.now.entries) actor }
{
    otherwise(
        where_may(board, actor, ctl(board.ctl_move())),
        where_may(board, actor, Some(Deed::Ctl(Effect::Calm))),
    )
}

fn ctl(made: Option<Effect>) -> Option<Deed>
    ensures { result ≡ option_map Deed.Ctl made }
{
    match made {
        Some(made) => Some(Deed::Ctl(made)),
        None => None,
    }
}
