//! What an actor does to the Global Lock's word and to the pins, without the turn or in it.
ghost use Rattle.std.specs.Prelude.{◌≡◌, ◌+◌, ◌<◌, ◌≤◌, ◌==◌, not, true};
ghost use Rattle.std.specs.Int.{bit_at};
ghost use Rattle.acpi_regs.specs.CoreSound.{is_word};
ghost use Rattle.acpi_regs.specs.Event.{bit_of, word_of};
ghost use Rattle.lock_table.specs.Bits.{IsEvent, words_of};
ghost use Rattle.lock_table.specs.Calls.{SameSeat, view_in};
ghost use Rattle.lock_table.specs.Views.{ForOne, HasCollected, IsFreeHost, IsNext, IsOwn, IsQuit, IsSeeking, collects, hand_of, holding, pulses, with_one};
ghost use Rattle.lock_table.specs.WordCalls.{Attempts, Releases};
ghost use Rattle.lock_table.specs.WordPlays.{AreFewer};
ghost use Rattle.lock_table.specs.declared.view.Stage.TheVariants as stage;

use crate::seat::{TableSeat, Turn};
use crate::table::LockTable;
use crate::turns::taken;
use crate::view::View;
use crate::word_plays::{Exchange, Limits, Load, Raise, Raises, Release, Sweep};
use crate::words::{Attempt, Bits};
use acpi_regs::{Event, Recorded};
use atomic_table::Seat;
use facs_word::{acquire_of, owned, pending, release_of};
use std::marker::Brand;

/// The place of the Global Lock's word.
const LOCK: usize = 1;
/// The place of the first pin word.
const PINS: usize = 2;

/// A word of the Global Lock, as the table keeps it.
fn lock_word(kept: u64) -> u32
    requires { is_word kept ≡ true }
    ensures same { result ≡ kept }
    ensures small { result ≤ 3 }
{
    kept as u32
}

/// The word and the bit of an event's pin.
fn pin_of(event: Event) -> (usize, u32)
    ensures word { result.0 ≡ word_of event + 2 }
    ensures bit { result.1 ≡ bit_of event }
    ensures small { (result.0 < 7) × (result.1 < 64) }
    ensures known { IsEvent event }
{
    match event {
        Event::Fixed(fixed) => (PINS, u32::from(fixed.bit())),
        Event::Gpe(number) => (PINS + 1 + usize::from(number / 64), u32::from(number % 64)),
    }
}

impl<B: Recorded> LockTable<B> {
    /// One attempt at the Global Lock (ACPI 6.5, section 5.2.10.1): one load of its word, and one
    /// compare-and-exchange against the value loaded. Won where the exchange succeeded on a word that was not owned,
    /// Marked where it succeeded on an owned word, which has Pending set then. Moved where it failed, and left the
    /// word as it was.
    pub fn attempt(&self, seat: &mut TableSeat) -> Attempt
        requires table { seat.old.table ≡ self.now.table.shared.table_id }
        requires seeks { ForOne IsSeeking seat.old.view.who }
        ensures same { SameSeat seat.old seat.new }
        ensures attempts { Attempts seat.old.view result seat.new.view }
    {
        let mut inner = taken(&mut seat.badge);
        let shared = &self.table.shared;
        let loaded = lock_word(shared.load::<Load>(&mut inner, LOCK));
        let found = lock_word(shared.compare_exchange::<Exchange>(
            &mut inner,
            LOCK,
            u64::from(loaded),
            u64::from(acquire_of(loaded)),
        ));
        seat.badge = inner.into_badge();
        if found != loaded {
            Attempt::Moved { loaded, found }
        } else if owned(found) {
            Attempt::Marked { found }
        } else {
            Attempt::Won
        }
    }

    /// Releases the Global Lock's word, by one exchange. Whether Pending was set, so that the other side has to be
    /// signalled.
    pub fn release(&self, seat: &mut TableSeat) -> bool
        requires table { seat.old.table ≡ self.now.table.shared.table_id }
        requires quits { ForOne IsQuit seat.old.view.who }
        ensures same { SameSeat seat.old seat.new }
        ensures releases { Releases seat.old.view result seat.new.view }
    {
        let mut inner = taken(&mut seat.badge);
        let found = lock_word(self.table.shared.swap::<Release>(&mut inner, LOCK, 0));
        seat.badge = inner.into_badge();
        seat.signal = pending(found);
        seat.signal
    }

    fn pulse_as<W: Raises>(&self, seat: &mut TableSeat, event: Event) -> bool
        requires named { W.event ≡ event }
        requires table { seat.old.table ≡ self.now.table.shared.table_id }
        requires next { ForOne (IsNext (B.Base.lists (B.base self.now.table.shared.key)) event) seat.old.view.who }
        ensures same { SameSeat seat.old seat.new }
        ensures pulses { seat.new.view ≡ pulses event result seat.old.view }
    {
        let (word, bit) = pin_of(event);
        let mut inner = taken(&mut seat.badge);
        let found = self
            .table
            .shared
            .fetch_or::<Raise<W>>(&mut inner, word, 1 << bit);
        seat.badge = inner.into_badge();
        let was_set = found >> bit & 1 == 1;
        !was_set
    }

    /// Sets the pin of an event, which is the next of the device's list, by one fetch-and-or. Whether the pin was
    /// clear.
    pub fn pulse(&self, seat: &mut TableSeat, event: Event) -> bool
        requires table { seat.old.table ≡ self.now.table.shared.table_id }
        requires next { ForOne (IsNext (B.Base.lists (B.base self.now.table.shared.key)) event) seat.old.view.who }
        ensures same { SameSeat seat.old seat.new }
        ensures pulses { seat.new.view ≡ pulses event result seat.old.view }
    {
        self.pulse_as::<Brand>(seat, event)
    }

    /// Takes the next pin word.
    fn sweep<W: Limits>(&self, inner: &mut Seat<Option<B>, View>, word: usize) -> u64
        requires lists { W.lists ≡ B.Base.lists (B.base self.now.table.shared.key) }
        requires table { inner.old.table_id ≡ self.now.table.shared.table_id }
        requires word { word < 5 }
        requires inside { inner.old.me.0.stage ≡ stage.Inside }
        requires may { ForOne (HasCollected word) inner.old.me.0.who }
        ensures same { (inner.new.table_id ≡ inner.old.table_id) × (inner.new.id ≡ inner.old.id) }
        ensures collects { inner.new.me ≡ (collects result inner.old.me.0, inner.old.me.1) }
        ensures fewer { ForOne (λ p. AreFewer W.lists inner.old.me.0.seen (hand_of p.phase)) inner.new.me.0.who }
        ensures own { IsOwn inner.new.me.0 }
    {
        self.table.shared.swap::<Sweep<W>>(inner, PINS + word, 0)
    }

    fn collect_as<W: Limits>(&self, seat: &mut TableSeat) -> Bits
        requires lists { W.lists ≡ B.Base.lists (B.base self.now.table.shared.key) }
        requires table { seat.old.table ≡ self.now.table.shared.table_id }
        requires inside { seat.old.view.stage ≡ stage.Inside }
        requires may { ForOne IsFreeHost seat.old.view.who }
        ensures same { SameSeat seat.old seat.new }
        ensures collects { seat.new.view ≡ with_one (holding (words_of result)) seat.old.view }
        ensures fewer { AreFewer W.lists seat.old.view.seen (words_of result) }
    {
        let mut inner = taken(&mut seat.badge);
        let fixed = self.sweep::<W>(&mut inner, 0);
        let first = self.sweep::<W>(&mut inner, 1);
        let second = self.sweep::<W>(&mut inner, 2);
        let third = self.sweep::<W>(&mut inner, 3);
        let fourth = self.sweep::<W>(&mut inner, 4);
        seat.badge = inner.into_badge();
        Bits {
            fixed,
            gpe: [first, second, third, fourth],
        }
    }

    /// Takes all pins, by one swap a pin word. Int or poll does so in its turn, once, before it adds entries. Each
    /// event that it takes has fewer latches among the board's entries than pulses in the lists of the board's
    /// devices.
    pub fn collect(&self, seat: &mut TableSeat, turn: &mut Turn<B>) -> Bits
        requires table { seat.old.table ≡ self.now.table.shared.table_id }
        requires inside { seat.old.view.stage ≡ stage.Inside }
        requires may { ForOne IsFreeHost seat.old.view.who }
        requires entered { B.entries turn.old.board ≡ seat.old.view.seen }
        ensures same { SameSeat seat.old seat.new }
        ensures turn { turn.new ≡ turn.old }
        ensures collects { seat.new.view ≡ with_one (holding (words_of result)) seat.old.view }
        ensures fewer { AreFewer (B.Base.lists (B.base self.now.table.shared.key)) (B.entries turn.new.board)
            (words_of result) }
    {
        let _ = turn;
        self.collect_as::<Brand>(seat)
    }
}
