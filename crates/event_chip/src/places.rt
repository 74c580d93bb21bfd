//! Bits by place in 17 words of 16 bits.
ghost use Rattle.std.specs.Prelude.{◌≡◌, ℕ, ◌<◌, ◌/◌, ◌==◌, true, false, if◌then◌else◌, slice_index};
ghost use Rattle.std.specs.Int.{bit_at};
ghost use Rattle.event_chip.specs.Places.{IsWithin, has, one};

/// A set of places below 272.
#[derive(Clone, Copy, Debug)]
pub struct Places {
    pub words: [u16; 17],
}

impl Places {
    /// The empty set.
    pub fn new() -> Places
        ensures { (k : ℕ) → slice_index result.words k ≡ 0 }
    {
        Places { words: [0; 17] }
    }

    /// Puts a place in, or takes it out.
    #[inline(always)]
    pub fn set(&mut self, place: usize, is_in: bool)
        requires { place < 272 }
        ensures others { (k : ℕ) → (k == place / 16) ≡ false
            → slice_index self.new.words k ≡ slice_index self.old.words k }
        ensures bits { (n : ℕ) → n < 272
            → has self.new.words n ≡ (if n == place then is_in else has self.old.words n) }
        ensures grows { is_in ≡ true
            → (k : ℕ) → IsWithin (slice_index self.old.words k) (slice_index self.new.words k) }
        ensures shrinks { is_in ≡ false
            → (k : ℕ) → IsWithin (slice_index self.new.words k) (slice_index self.old.words k) }
    {
        let word = self.words[place / 16];
        self.words[place / 16] = with_bit(word, place % 16, is_in);
    }
}

/// The word with one bit set or cleared.
#[inline(always)]
fn with_bit(word: u16, bit: usize, is_in: bool) -> u16
    requires { bit < 16 }
    ensures bits { (i : ℕ) → i < 16 → bit_at result i ≡ (if i == bit then one is_in else bit_at word i) }
    ensures grows { is_in ≡ true → IsWithin word result }
    ensures shrinks { is_in ≡ false → IsWithin result word }
{
    let mask = 1 << bit;
    if is_in { word | mask } else { word & !mask }
}
