//! Making a table, a seat for each actor, and closing the table.
ghost use Rattle.std.specs.Prelude.{◌≡◌, [], IfOk, Some};
ghost use Rattle.lock_table.specs.Calls.{IsOne, Leaves, SameSeat};
ghost use Rattle.lock_table.specs.Views.{HasAll, IsRoot, StartsWith, find, first_view, fresh, gave, learned, rejoined, root_parts, seated, without};
ghost use Rattle.lock_table.specs.declared.view.Stage.TheVariants as stage;

use crate::plays::{Cut, Glue, Look, Named};
use crate::seat::{TableSeat, Turn};
use crate::table::LockTable;
use crate::turns::{risen, taken};
use crate::words::{Bits, Words};
use acpi_regs::{Actor, Memory, Recorded};
use atomic_table::Table;
use facs_word::Facs;
use std::alloc::Global;
use std::marker::Brand;

impl<B: Recorded + Drop> LockTable<B> {
    /// A table with this board, which has no entries yet, and the root's seat. The lock is free, and no pin is set.
    pub fn new(alloc: Global, board: B) -> Result<(LockTable<B>, TableSeat), Memory>
        requires { B.entries board ≡ [] }
        ensures table { IfOk result (λ t. (t.1.table ≡ t.0.table.shared.table_id)
            × (B.base t.0.table.shared.key ≡ B.base board)) }
        ensures view { IfOk result (λ t. t.1.view ≡ gave [] first_view) }
    {
        let lock = u64::from(Facs::fresh().lock());
        let (table, inner) = Table::vacant(alloc, &[1, lock, 0, 0, 0, 0, 0], 1, &board)?;
        let table = LockTable { table };
        let mut seat = TableSeat {
            badge: inner.into_badge(),
            actor: None,
            signal: false,
        };
        table.leave(&mut seat, Turn { board });
        Ok((table, seat))
    }
}

impl<B: Recorded> LockTable<B> {
    fn split_as<W: Named>(&self, root: &mut TableSeat, actor: Actor) -> TableSeat
        requires named { W.actor ≡ actor }
        requires table { root.old.table ≡ self.now.table.shared.table_id }
        requires fresh { find W.actor (root_parts root.old.view.who) ≡ Some (fresh W.actor) }
        ensures same { SameSeat root.old root.new × (result.table ≡ root.old.table) }
        ensures views { (root.new.view ≡ without W.actor root.old.view) × (result.view ≡ seated W.actor root.old.view) }
    {
        let mut inner = taken(&mut root.badge);
        let other = self.table.shared.split_seat::<Cut<W>>(&mut inner);
        root.badge = inner.into_badge();
        TableSeat {
            badge: other.into_badge(),
            actor: Some(actor),
            signal: false,
        }
    }

    /// A seat for an actor that the root has, and did nothing yet.
    pub fn split(&self, root: &mut TableSeat, actor: Actor) -> TableSeat
        requires table { root.old.table ≡ self.now.table.shared.table_id }
        requires fresh { find actor (root_parts root.old.view.who) ≡ Some (fresh actor) }
        ensures same { SameSeat root.old root.new × (result.table ≡ root.old.table) }
        ensures views { (root.new.view ≡ without actor root.old.view) × (result.view ≡ seated actor root.old.view) }
    {
        self.split_as::<Brand>(root, actor)
    }

    /// Takes the seat of an actor back into the root, which then has the actor with phase and entries, and has seen
    /// what each of the two had seen.
    pub fn join(&self, root: &mut TableSeat, seat: TableSeat)
        requires tables { (root.old.table ≡ self.now.table.shared.table_id)
            × (seat.table ≡ self.now.table.shared.table_id) }
        requires root { IsRoot root.old.view.who }
        requires seat { IsOne seat.view.who × (seat.view.stage ≡ stage.Away) }
        ensures same { SameSeat root.old root.new }
        ensures view { root.new.view ≡ learned (rejoined root.old.view seat.view) }
        ensures seen { StartsWith root.new.view.seen root.old.view.seen × StartsWith root.new.view.seen seat.view.seen }
    {
        let TableSeat { badge, .. } = seat;
        let mut inner = taken(&mut root.badge);
        self.table
            .shared
            .join_seat::<Glue>(&mut inner, risen(badge));
        self.table.shared.load::<Look>(&mut inner, 0);
        root.badge = inner.into_badge();
    }

    /// Ends a table, once every actor is back in the root: the board and the words. With the root's view they stand
    /// for a sound core.
    pub fn close(self, root: TableSeat) -> (B, Words)
        requires table { root.table ≡ self.table.shared.table_id }
        requires root { IsRoot root.view.who × (root.view.stage ≡ stage.Away) }
        requires joined { HasAll root.view }
        ensures { Leaves B.Base.lists B.base B.entries self.table.shared.key root.view result.0 result.1 }
    {
        let TableSeat { badge, .. } = root;
        let LockTable { table } = self;
        let mut closed = table.close_with(risen(badge));
        let Some(board) = closed.take(0) else {
            unreachable!()
        };
        let facs = closed.word(1) as u32;
        let fixed = closed.word(2);
        let gpe = [
            closed.word(3),
            closed.word(4),
            closed.word(5),
            closed.word(6),
        ];
        closed.free();
        let pins = Bits { fixed, gpe };
        (board, Words { facs, pins })
    }
}
