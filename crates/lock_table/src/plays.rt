//! What each step on the turn word tells its seat.
ghost use Rattle.lock_table.specs.Plays.{Given, Lifted, Looked, PutIn, Taken};
ghost use Rattle.lock_table.specs.Views.{rejoined, seated, spent_view, without};
ghost use Rattle.acpi_regs.specs.declared.actor.Actor.{Actor};
ghost use Rattle.acpi_regs.specs.declared.actor.Actor.TheVariants as actor;

use crate::view::View;
use acpi_regs::Recorded;
use atomic_table::{Join, Play, Split};
use std::marker::{Brand, PhantomData};

/// Which boards may be in the slot. Each call picks it.
pub(crate) trait Based<B> {
    ghost is: { B → Type 0 };
}

impl<B> Based<B> for Brand {
    ghost is = { λ _. Unit {0} };
}

/// The turn is taken, or found out.
pub(crate) struct Take<W> {
    marker: PhantomData<W>,
}

impl<B: Recorded, W: Based<B>> Play<Option<B>, View> for Take<W> {
    ghost then = { Taken B.entries W.is };
}

/// The empty slot goes back, the board being with the caller.
pub(crate) struct Empty;

impl<B> Play<Option<B>, View> for Empty {
    ghost then = { PutIn };
}

/// The empty slot comes out.
pub(crate) struct Lift;

impl<B> Play<Option<B>, View> for Lift {
    ghost then = { Lifted };
}

/// The slot goes back with the board, and the turn is home.
pub(crate) struct Give;

impl<B: Recorded> Play<Option<B>, View> for Give {
    ghost then = { Given B.entries };
}

/// The root looks at what it was told.
pub(crate) struct Look;

impl<B> Play<Option<B>, View> for Look {
    ghost then = { Looked };
}

/// An actor. Each call picks it.
pub(crate) trait Named {
    ghost actor: { Actor };
}

impl Named for Brand {
    ghost actor = { actor.Int };
}

/// An actor leaves the root for a seat of its own.
pub(crate) struct Cut<W> {
    marker: PhantomData<W>,
}

impl<W: Named> Split<View> for Cut<W> {
    ghost left = { without W.actor };

    ghost right = { seated W.actor };
}

/// The actor of a seat comes back into the root.
pub(crate) struct Glue;

impl Join<View> for Glue {
    ghost both = { rejoined };

    ghost spent = { spent_view };
}
