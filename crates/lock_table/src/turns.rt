//! Taking the turn and giving it back.
ghost use Rattle.std.specs.Prelude.{◌≡◌, [], ◌∷◌};
ghost use Rattle.lock_table.specs.Calls.{Enters, SameSeat, view_in};
ghost use Rattle.lock_table.specs.Views.{MayAdd, gave};
ghost use Rattle.lock_table.specs.declared.view.Stage.TheVariants as stage;

use crate::plays::{Based, Empty, Give, Lift, Take};
use crate::seat::{Entered, TableSeat, Turn};
use crate::table::LockTable;
use crate::view::View;
use acpi_regs::Recorded;
use atomic_table::{Badge, Seat};
use std::marker::Brand;
use std::mem;

/// A badge as the seat that it is.
pub(crate) fn risen<B>(badge: Badge<View>) -> Seat<Option<B>, View>
    requires { badge.views ≡ view_in badge.views ∷ [] }
    ensures { (result.table_id ≡ badge.table_id) × (result.id ≡ badge.id) × (result.me ≡ (view_in badge.views, [])) }
{
    badge.into_seat()
}

/// The seat of a badge that is taken out of its place.
pub(crate) fn taken<B>(badge: &mut Badge<View>) -> Seat<Option<B>, View>
    requires { badge.old.views ≡ view_in badge.old.views ∷ [] }
    ensures { (result.table_id ≡ badge.old.table_id) × (result.id ≡ badge.old.id)
        × (result.me ≡ (view_in badge.old.views, [])) }
{
    risen(mem::replace(badge, Badge::blank()))
}

impl<B: Recorded> LockTable<B> {
    fn enter_as<W: Based<B>>(&self, seat: &mut TableSeat) -> Entered<B>
        requires table { seat.old.table ≡ self.now.table.shared.table_id }
        requires away { seat.old.view.stage ≡ stage.Away }
        requires base { (b : B) → B.base b ≡ B.base self.now.table.shared.key → W.is b }
        ensures same { SameSeat seat.old seat.new }
        ensures entered { Enters B.entries W.is seat.old.view result seat.new.view }
    {
        let mut inner = taken(&mut seat.badge);
        let found = self
            .table
            .shared
            .compare_exchange::<Take<W>>(&mut inner, 0, 0, 1);
        if found != 0 {
            seat.badge = inner.into_badge();
            return Entered::Out;
        }
        let Some(board) = self.table.shared.exchange(&mut inner, 0, None) else {
            unreachable!()
        };
        self.table.shared.load::<Empty>(&mut inner, 0);
        seat.badge = inner.into_badge();
        Entered::Turn(Turn { board })
    }

    /// Takes the turn, or finds it out, by one compare-and-exchange. The board of the turn has the table's base, and
    /// its history begins with all that the seat had seen.
    pub fn enter(&self, seat: &mut TableSeat) -> Entered<B>
        requires table { seat.old.table ≡ self.now.table.shared.table_id }
        requires away { seat.old.view.stage ≡ stage.Away }
        ensures same { SameSeat seat.old seat.new }
        ensures entered { Enters B.entries (λ b. B.base b ≡ B.base self.now.table.shared.key) seat.old.view result
            seat.new.view }
    {
        self.enter_as::<Brand>(seat)
    }

    /// Gives the turn back. What its board has more than at `enter` are entries of the seat's actor: first a latch of
    /// each event that this turn collected, in event order, and no other; of the Global Lock's entries one at most,
    /// which the actor's phase allows; and a seek only where its side has no seeker. The root adds none.
    pub fn leave(&self, seat: &mut TableSeat, turn: Turn<B>)
        requires table { seat.old.table ≡ self.now.table.shared.table_id }
        requires inside { seat.old.view.stage ≡ stage.Inside }
        requires base { B.base turn.board ≡ B.base self.now.table.shared.key }
        requires adds { MayAdd seat.old.view.who seat.old.view.seen (B.entries turn.board) }
        ensures same { SameSeat seat.old seat.new }
        ensures gave { seat.new.view ≡ gave (B.entries turn.board) seat.old.view }
    {
        let mut inner = taken(&mut seat.badge);
        self.table.shared.load::<Lift>(&mut inner, 0);
        let Turn { board } = turn;
        let empty = self.table.shared.exchange(&mut inner, 0, Some(board));
        let None = empty else { unreachable!() };
        self.table.shared.store::<Give>(&mut inner, 0, 0);
        seat.badge = inner.into_badge();
    }
}
