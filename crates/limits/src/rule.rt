ghost use Rattle.std.specs.Prelude.{◌≡◌, true};
ghost use Rattle.limits.specs.Around.{not_above};
ghost use Rattle.limits.specs.Laws.{Graded, Largest};
ghost use Rattle.limits.specs.Meaning.{Meaning, Lawful, offset_at};

use crate::multiples::multiple_below;

/// A rule that sets limits around a reference price, level by level. Prices are hundredths of a point.
pub trait LimitRule: Copy {
    /// The rounding unit of a type whose rules have one. Generic code asks each rule by `rounding_unit`.
    const UNIT: u32;

    ghost means: { Self → Meaning };

    // Kept: a type may have rules of several units, and of several levels; tied to constants, the trait would ask more of
    // who writes a rule.
    fn rounding_unit(&self) -> u32
        ensures { result ≡ (means self.now).unit };

    fn levels(&self) -> u8
        ensures { result ≡ (means self.now).levels };

    /// How far the limits of a level lie from the price. None for a level below 1 or past the last, or a price not taken.
    fn offset(&self, level: u8, price: u32) -> Option<u32>
        ensures { result ≡ offset_at (means self.now) level price };

    ghost lawful: { (r : Self) → Lawful (means r) };
}

/// The price rounded down to the rule's unit.
pub fn rounded<R: LimitRule>(rule: &R, price: u32) -> u32
    ensures answer { result ≡ not_above (R.LimitRule.means rule.now).unit price }
    ensures largest { Largest (R.LimitRule.means rule.now).unit price result }
{
    multiple_below(rule.rounding_unit(), price)
}

/// Whether the rule takes the price. A price that it takes has an offset at every level.
pub fn takes<R: LimitRule>(rule: &R, price: u32) -> bool
    ensures answer { result ≡ (R.LimitRule.means rule.now).takes price }
    ensures graded { result ≡ true → Graded (R.LimitRule.means rule.now) price }
{
    rule.offset(1, price).is_some()
}
