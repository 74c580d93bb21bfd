//! Shifts and masks over one byte of a field.
ghost use Rattle.std.specs.Prelude.{◌≡◌, ℕ, ◌+◌, ◌-◌, ◌*◌, ◌/◌, ◌%◌, ◌^◌, ◌<◌, ◌≤◌};
ghost use Rattle.std.specs.Int.{bit_at};
ghost use Rattle.field_units.specs.Bits.{outside};

use crate::UpdateRule;

/// The byte whose bits stand outside the field after a write.
pub(crate) fn outside(update: UpdateRule, old: u8) -> u8
    ensures { (j : ℕ) → j < 8 → bit_at result j ≡ outside update (bit_at old j) }
{
    match update {
        UpdateRule::Preserve => old,
        UpdateRule::WriteAsOnes => 0xFF,
        UpdateRule::WriteAsZeros => 0,
    }
}

/// The bits of a byte from `low` up to `high`.
pub(crate) fn piece(byte: u8, low: u32, high: u32) -> u64
    requires order { low < high }
    requires within { high ≤ 8 }
    ensures { result ≡ byte / 2 ^ low % 2 ^ (high - low) }
{
    (u64::from(byte) >> low) & ((1u64 << (high - low)) - 1)
}

/// A piece of `count` bits behind the first `before` bits of a number.
pub(crate) fn join(so_far: u64, before: u32, piece: u64, count: u32) -> u64
    requires within { before + count ≤ 64 }
    requires some { 0 < count }
    requires small { piece < 2 ^ count }
    ensures { result ≡ piece * 2 ^ before + so_far % 2 ^ before }
{
    (piece << before) | (so_far & ((1u64 << before) - 1))
}

/// The eight bits of a value from bit `before` on, moved up by `low` places; what leaves the byte is lost.
pub(crate) fn moved(value: u64, before: u32, low: u32) -> u8
    requires within { before < 64 }
    requires small { low < 8 }
    ensures { result ≡ value / 2 ^ before % 2 ^ 8 * 2 ^ low % 2 ^ 8 }
{
    (((value >> before) & 0xFF) as u8) << low
}

/// The bits of `inside` from `low` up to `high`, and elsewhere those of `rest`.
pub(crate) fn merge(rest: u8, inside: u8, low: u32, high: u32) -> u8
    requires order { low < high }
    requires within { high ≤ 8 }
    ensures below { (j : ℕ) → j < low → bit_at result j ≡ bit_at rest j }
    ensures here { (j : ℕ) → low ≤ j → j < high → bit_at result j ≡ bit_at inside j }
    ensures above { (j : ℕ) → high ≤ j → j < 8 → bit_at result j ≡ bit_at rest j }
{
    let mask = ((1u16 << high) - (1u16 << low)) as u8;
    (rest & !mask) | (inside & mask)
}
