ghost use Rattle.std.specs.Prelude.{◌≡◌, ◌||◌, false};
ghost use Rattle.acpi_regs.specs.Event.{same_event};
ghost use Rattle.lock_table.specs.Bits.{IsEvent, is_set};

use acpi_regs::{Event, Fixed};

/// A set of events: fixed events at their bits of the PM1 registers (ACPI 6.5, section 4.8.3.1), GPEs by their
/// numbers, 64 a word.
#[derive(Clone, Copy, Debug)]
pub struct Bits {
    /// Fixed events.
    pub fixed: u64,
    /// GPEs 0 to 63, 64 to 127, 128 to 191 and 192 to 255.
    pub gpe: [u64; 4],
}

/// The words that actors share.
#[derive(Clone, Copy, Debug)]
pub struct Words {
    /// The Global Lock's word of the FACS: bit 0 is Pending, bit 1 Owned.
    pub facs: u32,
    /// The pins that devices have set.
    pub pins: Bits,
}

/// What one attempt at the Global Lock came to: a load of its word, and one exchange against the value loaded.
#[derive(Clone, Copy, Debug, PartialEq, Eq)]
pub enum Attempt {
    /// The lock was free, and is the caller's.
    Won,
    /// The lock is owned, and its Pending bit is set now. `found` is the word before.
    Marked { found: u32 },
    /// The word had changed between the load and the exchange, and this attempt left it unchanged.
    Moved { loaded: u32, found: u32 },
}

impl Bits {
    /// The empty set.
    pub fn new() -> Bits
        ensures { (n : Event) → IsEvent n → is_set result n ≡ false }
    {
        Bits {
            fixed: 0,
            gpe: [0; 4],
        }
    }

    /// Whether an event is in the set.
    pub fn has(&self, event: Event) -> bool
        ensures { result ≡ is_set self.now event }
    {
        match event {
            Event::Fixed(fixed) => self.fixed >> fixed.bit() & 1 == 1,
            Event::Gpe(number) => self.gpe[usize::from(number / 64)] >> (number % 64) & 1 == 1,
        }
    }

    /// Puts an event in.
    pub fn put(&mut self, event: Event)
        ensures { (n : Event) → IsEvent n → is_set self.new n ≡ (same_event event n || is_set self.old n) }
    {
        match event {
            Event::Fixed(fixed) => self.fixed |= 1 << fixed.bit(),
            Event::Gpe(number) => self.gpe[usize::from(number / 64)] |= 1 << (number % 64),
        }
    }
}
