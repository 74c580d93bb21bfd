//! The word of the Global Lock (ACPI 6.5, section 5.2.10.1): bit 0 is Pending, bit 1 is Owned, and bits 31:2 are
//! reserved.
ghost use Rattle.std.specs.Prelude.{◌≡◌};
ghost use Rattle.facs_word.specs.Word.{acquired, is_owned, is_pending, released};

/// The other side waits for the lock.
const PENDING: u32 = 1;
/// The lock is owned.
const OWNED: u32 = 2;

/// The word after an attempt to take the lock. If the lock was free it is taken, and the new word has Owned set and
/// Pending clear. If it was owned it is not taken, and the new word has both bits set. The reserved bits stay
/// (ACPI 6.5, section 5.2.10.1).
pub fn acquire_of(word: u32) -> u32
    ensures { result ≡ acquired word }
{
    (word & !(OWNED | PENDING)) + OWNED + ((word >> 1) & 1)
}

/// The word after a release. Owned and Pending are clear, and the reserved bits stay. The releaser signals the other
/// side if Pending was set in the old word (ACPI 6.5, section 5.2.10.1).
pub fn release_of(word: u32) -> u32
    ensures { result ≡ released word }
{
    word & !(OWNED | PENDING)
}

/// Whether the lock is owned: bit 1 of the word.
pub fn owned(word: u32) -> bool
    ensures { result ≡ is_owned word }
{
    (word >> 1) & 1 != 0
}

/// Whether the other side waits for the lock: bit 0 of the word.
pub fn pending(word: u32) -> bool
    ensures { result ≡ is_pending word }
{
    word & PENDING != 0
}
