//! Laws over the definitions of this crate. A law is a function with an empty body, whose contract states it.
ghost use Rattle.std.specs.Prelude.{◌≡◌, ◌≤◌, ◌↔◌, List, ℕ, IsTrue, Ok};
ghost use Rattle.facs_word.specs.Table.{ReadsBack, fresh_table, lock_of, reads};
ghost use Rattle.facs_word.specs.Word.{HasBits, KeepsReserved};

use crate::FacsFault;

/// For a word below 4, Owned and Pending are its two bits, and an attempt and a release change them as defined.
pub fn law_word_bits()
    ensures { (word : ℕ) → word ≤ 3 → HasBits word }
{}

/// An attempt and a release change the two bits of the lock, and keep every reserved bit.
pub fn law_keeps_reserved()
    ensures { (word : ℕ) → KeepsReserved word }
{}

/// A table that was read has the first 64 bytes that it was read from, and reads as itself.
pub fn law_reads_back()
    ensures { (bytes table : List ℕ) → ReadsBack bytes table }
{}

/// A fresh table reads as itself, and its lock is free.
pub fn law_fresh()
    ensures reads { reads fresh_table ≡ Ok fresh_table }
    ensures free { lock_of fresh_table ≡ 0 }
{}

/// `==` holds between two faults exactly if they are the same.
pub fn law_same_fault(one: FacsFault, other: FacsFault) -> bool
    ensures { IsTrue result ↔ one ≡ other }
{
    one == other
}
