//! The status and enable bits of all events, and which words share a bit.
ghost use Rattle.std.specs.Prelude.{◌≡◌, ℕ, ◌<◌, ◌==◌, ◌&&◌, not, true, false, if◌then◌else◌};
ghost use Rattle.std.specs.Int.{bit_at};
ghost use Rattle.event_chip.specs.Chip.{touched};
ghost use Rattle.event_chip.specs.Kept.{enables, is_set};
ghost use Rattle.event_chip.specs.Places.{IsFirstPlace, IsSummary, has, meets, one, shares};
ghost use Rattle.event_chip.specs.declared.state.Touch.TheVariants as touch;

use crate::places::Places;
use crate::{Slot, Touch};

/// The status and enable bits of all events by their places, with a summary: bit k says that word k has a bit set in
/// both. So two counts of trailing zeros find the first event that is pending.
#[derive(Clone, Copy, Debug)]
pub struct Words {
    pub status: Places,
    pub enable: Places,
    pub summary: u32,
}

impl Words {
    /// Writes in the summary whether the words k share a bit.
    #[inline(always)]
    fn sum_up(&mut self, k: usize)
        requires { k < 17 }
        ensures status { self.new.status.words ≡ self.old.status.words }
        ensures enable { self.new.enable.words ≡ self.old.enable.words }
        ensures marks { (j : ℕ) → j < 32
            → bit_at self.new.summary j
            ≡ (if j == k then one (shares self.old.status.words self.old.enable.words k)
            else bit_at self.old.summary j) }
    {
        let shared = self.status.words[k] & self.enable.words[k];
        self.summary = marked(self.summary, k, shared != 0);
    }

    /// Sets the summary bit of the words k, if they share a bit.
    #[inline(always)]
    fn add_mark(&mut self, k: usize)
        requires { k < 17 }
        ensures status { self.new.status.words ≡ self.old.status.words }
        ensures enable { self.new.enable.words ≡ self.old.enable.words }
        ensures marks { (j : ℕ) → j < 32
            → bit_at self.new.summary j
            ≡ (if (j == k) && shares self.old.status.words self.old.enable.words k then 1
            else bit_at self.old.summary j) }
    {
        if self.status.words[k] & self.enable.words[k] != 0 {
            self.summary = marked(self.summary, k, true);
        }
    }

    /// Clears the summary bit of the words k, if they share none.
    #[inline(always)]
    fn drop_mark(&mut self, k: usize)
        requires { k < 17 }
        ensures status { self.new.status.words ≡ self.old.status.words }
        ensures enable { self.new.enable.words ≡ self.old.enable.words }
        ensures marks { (j : ℕ) → j < 32
            → bit_at self.new.summary j
            ≡ (if (j == k) && not (shares self.old.status.words self.old.enable.words k) then 0
            else bit_at self.old.summary j) }
    {
        if self.status.words[k] & self.enable.words[k] == 0 {
            self.summary = marked(self.summary, k, false);
        }
    }

    /// Writes the two bits of a place.
    #[inline(always)]
    fn put(&mut self, place: usize, status: bool, enable: bool)
        requires { place < 272 }
        ensures status { (n : ℕ) → n < 272
            → has self.new.status.words n ≡ (if n == place then status else has self.old.status.words n) }
        ensures enable { (n : ℕ) → n < 272
            → has self.new.enable.words n ≡ (if n == place then enable else has self.old.enable.words n) }
        ensures summary { IsSummary self.old.status.words self.old.enable.words self.old.summary
            → IsSummary self.new.status.words self.new.enable.words self.new.summary }
    {
        self.status.set(place, status);
        self.enable.set(place, enable);
        self.sum_up(place / 16);
    }

    /// Clears the two bits of a place.
    #[inline(always)]
    fn clear(&mut self, place: usize)
        requires { place < 272 }
        ensures status { (n : ℕ) → n < 272
            → has self.new.status.words n ≡ (if n == place then false else has self.old.status.words n) }
        ensures enable { (n : ℕ) → n < 272
            → has self.new.enable.words n ≡ (if n == place then false else has self.old.enable.words n) }
        ensures summary { IsSummary self.old.status.words self.old.enable.words self.old.summary
            → IsSummary self.new.status.words self.new.enable.words self.new.summary }
    {
        self.status.set(place, false);
        self.enable.set(place, false);
        self.drop_mark(place / 16);
    }

    /// Sets the status bit of a place, unless it is set.
    #[inline(always)]
    fn set_status(&mut self, place: usize, is_set: bool)
        requires place { place < 272 }
        requires is_set { is_set ≡ true → has self.old.status.words place ≡ true }
        ensures status { (n : ℕ) → n < 272
            → has self.new.status.words n ≡ (if n == place then true else has self.old.status.words n) }
        ensures enable { self.new.enable.words ≡ self.old.enable.words }
        ensures summary { IsSummary self.old.status.words self.old.enable.words self.old.summary
            → IsSummary self.new.status.words self.new.enable.words self.new.summary }
    {
        if !is_set {
            self.status.set(place, true);
            self.add_mark(place / 16);
        }
    }

    /// Sets the enable bit of a place, if it is to be set. It was clear if it is to be clear.
    #[inline(always)]
    fn set_enable(&mut self, place: usize, is: bool)
        requires place { place < 272 }
        requires stays { is ≡ false → has self.old.enable.words place ≡ false }
        ensures status { self.new.status.words ≡ self.old.status.words }
        ensures enable { (n : ℕ) → n < 272
            → has self.new.enable.words n ≡ (if n == place then is else has self.old.enable.words n) }
        ensures summary { IsSummary self.old.status.words self.old.enable.words self.old.summary
            → IsSummary self.new.status.words self.new.enable.words self.new.summary }
    {
        if is {
            self.enable.set(place, true);
            self.add_mark(place / 16);
        }
    }

    /// Writes the enable bit of a place, if it changes.
    #[inline(always)]
    fn put_enable(&mut self, place: usize, changes: bool, is: bool)
        requires place { place < 272 }
        requires stays { changes ≡ false → has self.old.enable.words place ≡ is }
        ensures status { self.new.status.words ≡ self.old.status.words }
        ensures enable { (n : ℕ) → n < 272
            → has self.new.enable.words n ≡ (if n == place then is else has self.old.enable.words n) }
        ensures summary { IsSummary self.old.status.words self.old.enable.words self.old.summary
            → IsSummary self.new.status.words self.new.enable.words self.new.summary }
    {
        if changes {
            self.enable.set(place, is);
            self.sum_up(place / 16);
        }
    }

    /// Writes the bits that a claim changes. A listed event is held, so it is no longer enabled.
    #[inline(always)]
    fn claim(&mut self, place: usize, old: Slot, new: Slot)
        requires place { place < 272 }
        requires status { has self.old.status.words place ≡ is_set old }
        requires touched { new ≡ touched touch.Claim old }
        ensures status { (n : ℕ) → n < 272
            → has self.new.status.words n ≡ (if n == place then is_set new else has self.old.status.words n) }
        ensures enable { (n : ℕ) → n < 272
            → has self.new.enable.words n ≡ (if n == place then enables new else has self.old.enable.words n) }
        ensures summary { IsSummary self.old.status.words self.old.enable.words self.old.summary
            → IsSummary self.new.status.words self.new.enable.words self.new.summary }
    {
        if old.kind.is_level() {
            self.put_enable(place, true, false);
        } else if old.kind.is_listed() {
            self.clear(place);
        } else {
            self.put(place, false, new.is_enabled());
        }
    }

    /// Writes the bits that a finish changes. The status of an event that is not level stays.
    #[inline(always)]
    fn finish(&mut self, place: usize, old: Slot, new: Slot)
        requires place { place < 272 }
        requires status { has self.old.status.words place ≡ is_set old }
        requires enable { has self.old.enable.words place ≡ enables old }
        requires touched { new ≡ touched touch.Finish old }
        ensures status { (n : ℕ) → n < 272
            → has self.new.status.words n ≡ (if n == place then is_set new else has self.old.status.words n) }
        ensures enable { (n : ℕ) → n < 272
            → has self.new.enable.words n ≡ (if n == place then enables new else has self.old.enable.words n) }
        ensures summary { IsSummary self.old.status.words self.old.enable.words self.old.summary
            → IsSummary self.new.status.words self.new.enable.words self.new.summary }
    {
        if old.kind.is_level() {
            self.put(place, new.state.status, new.is_enabled());
        } else {
            self.set_enable(place, new.is_enabled());
        }
    }

    /// Writes the bits that a touch changes.
    #[inline(always)]
    pub fn follow(&mut self, touch: Touch, place: usize, old: Slot, new: Slot)
        requires place { place < 272 }
        requires status { has self.old.status.words place ≡ is_set old }
        requires enable { has self.old.enable.words place ≡ enables old }
        requires touched { new ≡ touched touch old }
        ensures status { (n : ℕ) → n < 272
            → has self.new.status.words n ≡ (if n == place then is_set new else has self.old.status.words n) }
        ensures enable { (n : ℕ) → n < 272
            → has self.new.enable.words n ≡ (if n == place then enables new else has self.old.enable.words n) }
        ensures summary { IsSummary self.old.status.words self.old.enable.words self.old.summary
            → IsSummary self.new.status.words self.new.enable.words self.new.summary }
    {
        match touch {
            Touch::Raise => self.set_status(place, old.state.status),
            Touch::Assert => {
                self.set_status(place, old.state.status);
                self.put_enable(place, old.is_parked(), new.is_enabled());
            }
            Touch::Drop => self.put_enable(place, old.is_parked(), new.is_enabled()),
            Touch::Claim => self.claim(place, old, new),
            Touch::Finish => self.finish(place, old, new),
            Touch::Up => self.put_enable(place, old.state.count == 0, new.is_enabled()),
            Touch::Down => self.put_enable(place, old.state.count == 1, new.is_enabled()),
        }
    }

    /// Whether the bit of a place is set in both.
    #[inline(always)]
    pub fn meets(&self, place: usize) -> bool
        requires { place < 272 }
        ensures { result ≡ meets self.now.status.words self.now.enable.words place }
    {
        let shared = self.status.words[place / 16] & self.enable.words[place / 16];
        (shared >> (place % 16)) & 1 == 1
    }

    /// The first place whose bit is set in both.
    #[inline(always)]
    pub fn first(&self) -> Option<usize>
        requires { IsSummary self.now.status.words self.now.enable.words self.now.summary }
        ensures { IsFirstPlace self.now.status.words self.now.enable.words result }
    {
        if self.summary == 0 {
            return None;
        }
        let word = lowest_mark(self.summary);
        let shared = self.status.words[word] & self.enable.words[word];
        Some(16 * word + lowest_bit(shared))
    }
}

/// The summary with one bit set or cleared.
#[inline(always)]
fn marked(summary: u32, bit: usize, is_in: bool) -> u32
    requires { bit < 32 }
    ensures { (i : ℕ) → i < 32 → bit_at result i ≡ (if i == bit then one is_in else bit_at summary i) }
{
    let mask = 1 << bit;
    if is_in {
        summary | mask
    } else {
        summary & !mask
    }
}

/// The place of the lowest bit that is set, from 0 to 31.
#[inline(always)]
fn lowest_mark(summary: u32) -> usize
    requires { 0 < summary }
    ensures within { result < 32 }
    ensures is_set { bit_at summary result ≡ 1 }
    ensures below { (i : ℕ) → i < result → bit_at summary i ≡ 0 }
{
    summary.trailing_zeros() as usize
}

/// The place of the lowest bit that is set, from 0 to 15.
#[inline(always)]
fn lowest_bit(word: u16) -> usize
    requires { 0 < word }
    ensures within { result < 16 }
    ensures is_set { bit_at word result ≡ 1 }
    ensures below { (i : ℕ) → i < result → bit_at word i ≡ 0 }
{
    word.trailing_zeros() as usize
}
