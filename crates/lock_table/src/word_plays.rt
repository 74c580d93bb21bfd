//! What each step on the Global Lock's word and on a pin word tells its seat.
ghost use Rattle.std.specs.Prelude.{List, []};
ghost use Rattle.acpi_regs.specs.declared.event.Event.{Event};
ghost use Rattle.acpi_regs.specs.declared.event.Event.TheVariants as event;
ghost use Rattle.lock_table.specs.WordPlays.{Exchanged, Loaded, Raised, Released, Swept};

use crate::view::View;
use atomic_table::Play;
use std::marker::{Brand, PhantomData};

/// The lock's word is loaded.
pub(crate) struct Load;

impl<B> Play<Option<B>, View> for Load {
    ghost then = { Loaded };
}

/// The lock's word is exchanged against the word that was loaded.
pub(crate) struct Exchange;

impl<B> Play<Option<B>, View> for Exchange {
    ghost then = { Exchanged };
}

/// The lock's word is released.
pub(crate) struct Release;

impl<B> Play<Option<B>, View> for Release {
    ghost then = { Released };
}

/// An event. Each call picks it.
pub(crate) trait Raises {
    ghost event: { Event };
}

impl Raises for Brand {
    ghost event = { event.Gpe 0 };
}

/// The pin of the event is set.
pub(crate) struct Raise<W> {
    marker: PhantomData<W>,
}

impl<B, W: Raises> Play<Option<B>, View> for Raise<W> {
    ghost then = { Raised W.event };
}

/// The devices' pulse lists. Each call picks them.
pub(crate) trait Limits {
    ghost lists: { List (List Event) };
}

impl Limits for Brand {
    ghost lists = { [] };
}

/// A pin word is taken.
pub(crate) struct Sweep<W> {
    marker: PhantomData<W>,
}

impl<B, W: Limits> Play<Option<B>, View> for Sweep<W> {
    ghost then = { Swept W.lists };
}
