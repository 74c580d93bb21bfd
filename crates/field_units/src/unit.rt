ghost use Rattle.std.specs.Prelude.{◌≡◌, ◌+◌, ◌-◌, ◌*◌, ◌<◌, ◌≤◌, min, None, Some, MatchResult, true};
ghost use Rattle.field_units.specs.Bits.{bit_of_byte, byte_count, first_byte, is_partial, joined, replaced};
ghost use Rattle.field_units.specs.Field.{field_fault, most_cells, is_controller, needs_lock};

use crate::bits::{join, merge, moved, outside, piece};
use crate::{FieldFault, LockRule, RegionKind, UpdateRule};
use std::marker::Model;

/// Bytes in a row of a region.
#[derive(Clone, Copy, Debug, PartialEq, Eq)]
pub struct Span {
    /// The offset of the first byte.
    pub first: u16,
    /// How many bytes there are.
    pub count: u8,
}

/// A field: 1 to 64 bits in a row of a region, and how they are accessed (ACPI 6.5, section 19.6.48).
#[derive(Clone, Copy, Debug, PartialEq, Eq)]
pub struct FieldUnit {
    region: u8,
    kind: RegionKind,
    len: u16,
    bit: u32,
    width: u8,
    lock: LockRule,
    update: UpdateRule,
}

impl Model for FieldUnit {
    ghost use Rattle.std.specs.Prelude.{◌≡◌, ◌≤◌, None};
    ghost use Rattle.field_units.specs.Field.{Field, field_fault, most_cells, is_controller, needs_lock};

    ghost Value = { Field };

    ghost view = { λ f. record {
      region = f.region;
      kind = f.kind;
      len = f.len;
      bit = f.bit;
      width = f.width;
      lock =
          f.lock;
      update = f.update;
    } };

    ghost inverse = { λ v. record {
      region = v.region;
      kind = v.kind;
      len = v.len;
      bit = v.bit;
      width = v.width;
      lock = v.lock;
      update =
          v.update;
    } };

    ghost invariant = { λ f. (f.len ≤ most_cells f.kind) × (field_fault f.len f.bit f.width ≡ None) };
}

impl FieldUnit {
    /// The field of `width` bits from bit `bit` on of the region at place `region`, which is of this kind and has
    /// `len` cells; at most 256 where it is the controller's.
    ///
    /// # Errors
    /// `BadWidth` where `width` is 0 or above 64; else `OutsideRegion` where the field would go past the last cell.
    pub fn new(
        region: u8,
        kind: RegionKind,
        len: u16,
        bit: u32,
        width: u8,
        lock: LockRule,
        update: UpdateRule,
    ) -> Result<FieldUnit, FieldFault>
        requires { len ≤ most_cells kind }
        ensures { MatchResult result
            (λ field. (field_fault len bit width ≡ None)
            × (field ≡ record {
              region = region;
              kind = kind;
              len = len;
              bit = bit;
              width = width;
              lock = lock;
              update = update;
            }))
            (λ fault. field_fault len bit width ≡ Some fault) }
    {
        if width < 1 || width > 64 {
            return Err(FieldFault::BadWidth);
        }
        if u64::from(bit) + u64::from(width) > 8 * u64::from(len) {
            return Err(FieldFault::OutsideRegion);
        }
        Ok(FieldUnit {
            region,
            kind,
            len,
            bit,
            width,
            lock,
            update,
        })
    }

    /// The place of the field's region in the description.
    pub fn region(&self) -> u8
        ensures { result ≡ self.now.region }
    {
        self.region
    }

    /// The address space of the field's region.
    pub fn kind(&self) -> RegionKind
        ensures { result ≡ self.now.kind }
    {
        self.kind
    }

    /// How many cells the region has.
    pub fn len(&self) -> u16
        ensures { result ≡ self.now.len }
    {
        self.len
    }

    /// The field's first bit, counted from the region's start.
    pub fn bit(&self) -> u32
        ensures { result ≡ self.now.bit }
    {
        self.bit
    }

    /// How many bits the field has, from 1 to 64.
    pub fn width(&self) -> u8
        ensures { result ≡ self.now.width }
    {
        self.width
    }

    /// Whether an access needs the Global Lock by the field's own rule.
    pub fn lock(&self) -> LockRule
        ensures { result ≡ self.now.lock }
    {
        self.lock
    }

    /// What a write makes of the other bits of a byte.
    pub fn update(&self) -> UpdateRule
        ensures { result ≡ self.now.update }
    {
        self.update
    }

    /// Whether an access needs the Global Lock, by the field's lock rule alone.
    pub fn needs_lock(&self) -> bool
        ensures { result ≡ needs_lock self.now }
    {
        matches!(self.lock, LockRule::Lock)
    }

    /// The same field under another lock rule.
    pub fn with_lock(&self, lock: LockRule) -> FieldUnit
        ensures { result ≡ record self.now { lock = lock } }
    {
        FieldUnit { lock, ..*self }
    }

    /// A field lies in its region, and so do its bytes. The call costs nothing: it says so to a caller's proof.
    pub fn law_fits(&self)
        ensures wide { 1 ≤ self.now.width }
        ensures narrow { self.now.width ≤ 64 }
        ensures inside { self.now.bit + self.now.width ≤ 8 * self.now.len }
        ensures bytes { first_byte self.now + byte_count self.now ≤ self.now.len }
        ensures few { byte_count self.now ≤ 9 }
        ensures short { self.now.len ≤ most_cells self.now.kind }
        ensures addresses { is_controller self.now.kind ≡ true → self.now.len ≤ 256 }
    {
        let _region = self.region;
    }

    /// The bytes that hold a bit of the field: 1 to 9 of them.
    pub fn bytes_of(&self) -> Span
        ensures first { result.first ≡ first_byte self.now }
        ensures count { result.count ≡ byte_count self.now }
    {
        let first = self.bit / 8;
        let last = (self.bit + u32::from(self.width) - 1) / 8;
        Span {
            first: first as u16,
            count: (last - first + 1) as u8,
        }
    }

    /// Whether byte `k` of the span has a bit outside the field.
    pub fn partial(&self, k: u8) -> bool
        requires { k < byte_count self.now }
        ensures { result ≡ is_partial self.now k }
    {
        let start = self.start(k);
        start < self.bit || self.bit + u32::from(self.width) < start + 8
    }

    /// The bits of the field in byte `k` of the span, joined to those of the bytes before it. Reading a field joins
    /// its bytes in order, beginning with 0.
    pub fn get_bits(&self, k: u8, byte: u8, so_far: u64) -> u64
        requires { k < byte_count self.now }
        ensures { result ≡ joined self.now k byte so_far }
    {
        let place = self.place(k);
        let found = piece(byte, place.low, place.high);
        join(so_far, place.before, found, place.high - place.low)
    }

    /// Byte `k` of the span with the field's bits of `value`, and its other bits by the update rule. `old` is the
    /// byte that stands there, and matters only where the rule is `Preserve` and the byte is partial.
    pub fn put_bits(&self, k: u8, old: u8, value: u64) -> u8
        requires { k < byte_count self.now }
        ensures { result ≡ replaced self.now k old value }
    {
        let place = self.place(k);
        let inside = moved(value, place.before, place.low);
        merge(outside(self.update, old), inside, place.low, place.high)
    }

    /// The first bit of the region in byte `k` of the span.
    fn start(&self, k: u8) -> u32
        requires { k < byte_count self.now }
        ensures at { result ≡ bit_of_byte self.now k }
        ensures fits { self.now.bit + self.now.width ≤ 8 * self.now.len }
    {
        8 * (self.bit / 8 + u32::from(k))
    }

    /// Where bits of the field stand in byte `k` of the span.
    fn place(&self, k: u8) -> Place
        requires { k < byte_count self.now }
        ensures low { result.low ≡ self.now.bit - bit_of_byte self.now k }
        ensures high { result.high ≡ min (self.now.bit + self.now.width - bit_of_byte self.now k) 8 }
        ensures before { result.before ≡ bit_of_byte self.now k - self.now.bit }
        ensures order { result.low < result.high }
        ensures all { result.before + (result.high - result.low) ≤ 64 }
    {
        let start = self.start(k);
        let end = self.bit + u32::from(self.width);
        Place {
            low: self.bit.saturating_sub(start),
            high: (end - start).min(8),
            before: start.saturating_sub(self.bit),
        }
    }
}

/// Bits `low` up to `high` of a byte, which are a field's bits from `before` on.
#[derive(Clone, Copy)]
struct Place {
    low: u32,
    high: u32,
    before: u32,
}
