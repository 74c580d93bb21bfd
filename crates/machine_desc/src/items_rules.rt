//! Going through the items of a part.
ghost use Rattle.std.specs.Prelude.{◌≡◌, ◌<◌, ◌^◌, List, Option, Some, length, nat_lt};
ghost use Rattle.machine_desc.specs.Faults.{at_item, breaks, breaks_at, in_items};
ghost use Rattle.machine_desc.specs.declared.fault.Rule.TheVariants as rule;
ghost use Rattle.machine_desc.specs.declared.fault.Spot.{Spot};

use crate::{BadMachine, Part, Place, Rule, Spot};

/// The rules of the items of a part.
pub trait ItemRules<T> {
    /// The first rule that an item breaks, behind the items before it.
    ghost fault: { Self → List T → T → Option Spot };

    /// The first rule that the item breaks.
    fn fault(&self, before: &[T], item: &T) -> Option<Spot>
        ensures { result ≡ fault self.now before.now item.now };
}

/// The rule is broken, and no operation is concerned.
pub fn broken(rule: Rule) -> Option<Spot>
    ensures { result ≡ Some (record { rule = rule; op = 0 }) }
{
    Some(Spot { rule, op: 0 })
}

/// A rule that an item of a part breaks.
pub fn at_item(part: Part, index: u32, spot: Spot) -> BadMachine
    ensures { result ≡ at_item part index spot }
{
    BadMachine {
        rule: spot.rule,
        place: Place {
            part,
            index,
            op: spot.op,
        },
    }
}

/// The first rule that a part of at most `limit` items breaks.
pub fn items_fault<T, R: ItemRules<T>>(
    part: Part,
    limit: usize,
    rules: &R,
    items: &[T],
) -> Option<BadMachine>
    requires { limit < 2 ^ 32 }
    ensures { result ≡ in_items part (breaks (nat_lt limit (length items.now)) rule.TooMany) (R.fault rules.now)
        items.now }
{
    if items.len() > limit {
        let spot = Spot {
            rule: Rule::TooMany,
            op: 0,
        };
        return Some(at_item(part, 0, spot));
    }
    for (i, item) in items.iter().enumerate() {
        let (before, _) = items.split_at(i);
        if let Some(spot) = rules.fault(before, item) {
            return Some(at_item(part, i as u32, spot));
        }
    }
    None
}
