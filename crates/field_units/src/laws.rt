//! Laws over the definitions of this crate, each for every field and all bytes; and what `==` means. A law is a
//! function with nothing to do, whose contract says it.
ghost use Rattle.std.specs.Prelude.{◌≡◌, ◌≤◌, ◌↔◌, ℕ, IsTrue};
ghost use Rattle.field_units.specs.Field.{Field};
ghost use Rattle.field_units.specs.Laws.{HoldsBits, IsPartial, NineBytes, OldIsFree, ReadIsValue, ValueFits, WrittenBits, WrittenIsRead};

use crate::{FieldFault, FieldUnit, LockRule, RegionKind, Span, UpdateRule};

/// Reading the bytes of a field in order gives its value.
pub fn law_read_is_value()
    ensures { (field : Field) (cells : ℕ → ℕ) → ReadIsValue field cells }
{}

/// A field has the value that was written to it, modulo 2 to its width, whatever stood in its bytes before.
pub fn law_written_is_read()
    ensures { (field : Field) (cells : ℕ → ℕ) (value : ℕ) → WrittenIsRead field cells value }
{}

/// Each bit of the region after a write: the value's where the field has it, what the update rule makes of the old one
/// elsewhere in the field's bytes, and the old one in other bytes.
pub fn law_written_bits()
    ensures { (field : Field) (cells : ℕ → ℕ) (value p : ℕ) → WrittenBits field cells value p }
{}

/// The value of a field is below 2 to its width.
pub fn law_value_fits()
    ensures { (field : Field) (cells : ℕ → ℕ) → ValueFits field cells }
{}

/// What stood in a byte matters only where the byte is partial and the rule preserves its other bits: elsewhere it need
/// not be read before it is written.
pub fn law_old_is_free()
    ensures { (field : Field) (k old other value : ℕ) → OldIsFree field k old other value }
{}

/// The bytes of a field are those that hold a bit of it.
pub fn law_holds_bits()
    ensures { (field : Field) (b : ℕ) → HoldsBits field b }
{}

/// A byte is partial exactly where one of its bits is none of the field's.
pub fn law_is_partial()
    ensures { (field : Field) (k : ℕ) → IsPartial field k }
{}

/// A field of 64 bits that begins at bit 4 of a byte has 9 bytes, and no field has more.
pub fn law_nine_bytes()
    ensures { (field : Field) → NineBytes field }
{}

/// Two lock rules are equal exactly where `==` says so.
pub fn law_same_lock_rule(one: LockRule, other: LockRule) -> bool
    ensures { IsTrue result ↔ one ≡ other }
{
    one == other
}

/// Two update rules are equal exactly where `==` says so.
pub fn law_same_update_rule(one: UpdateRule, other: UpdateRule) -> bool
    ensures { IsTrue result ↔ one ≡ other }
{
    one == other
}

/// Two kinds of region are equal exactly where `==` says so.
pub fn law_same_region_kind(one: RegionKind, other: RegionKind) -> bool
    ensures { IsTrue result ↔ one ≡ other }
{
    one == other
}

/// Two faults are equal exactly where `==` says so.
pub fn law_same_fault(one: FieldFault, other: FieldFault) -> bool
    ensures { IsTrue result ↔ one ≡ other }
{
    one == other
}

/// Two spans are equal exactly where `==` says so.
pub fn law_same_span(one: Span, other: Span) -> bool
    ensures { IsTrue result ↔ one ≡ other }
{
    one == other
}

/// Two fields are equal exactly where `==` says so.
pub fn law_same_unit(one: FieldUnit, other: FieldUnit) -> bool
    ensures { IsTrue result ↔ one ≡ other }
{
    one == other
}
