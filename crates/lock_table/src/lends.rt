//! The board of a turn, lent to the caller.
//!
//! The clause names how a `Turn` lies in memory, which the file that declares it cannot import.
ghost use Rattle.std.specs.Prelude.{◌≡◌};
ghost use Rattle.std.specs.Borrow.{Lends, sem};
ghost use Rattle.lock_table.specs.contracts.seat.Turn.{the_row};

use crate::seat::Turn;

impl<B> Turn<B> {
    /// The board. When the borrow ends, the turn has what was written through it.
    pub fn board(&mut self) -> &mut B
        ensures* writes_back { sem 𝓛 (Lends (the_row B.row) B.row self.entry result
            (λ w. record self.old { board = w })) }
        ensures value { result.now ≡ self.old.board }
    {
        &mut self.board
    }
}
