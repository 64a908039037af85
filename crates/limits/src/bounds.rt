ghost use Rattle.std.specs.Prelude.{◌≡◌, ◌<◌, true};
ghost use Rattle.limits.specs.Around.{bounds, distance, within};
ghost use Rattle.limits.specs.Laws.{Widens, Edges};

use crate::multiples::{multiple_above, multiple_below};
use crate::rule::LimitRule;

/// The limits around a price. The edges are the multiples of a tick next to them, on the price's side.
#[derive(Clone, Copy, Debug, PartialEq, Eq)]
pub struct Bounds {
    pub lower: u32,
    pub upper: u32,
    pub lower_edge: u32,
    pub upper_edge: u32,
}

impl Bounds {
    /// The bounds at each side's level. A level without an offset lies at the price itself.
    // Kept: the two levels come from two bands; a struct of both would be made to be taken apart.
    pub fn around<R: LimitRule>(
        rule: &R,
        tick: u32,
        price: u32,
        lower_level: u8,
        upper_level: u8,
    ) -> Bounds
        ensures answer { result ≡ bounds (R.LimitRule.means rule.now) tick price lower_level upper_level }
        ensures edges { (R.LimitRule.means rule.now).takes price ≡ true → 0 < tick → Edges tick result }
        ensures widens { (R.LimitRule.means rule.now).takes price ≡ true → Widens (R.LimitRule.means rule.now) tick price }
    {
        let lower = price - distance_to(rule, lower_level, price);
        let upper = price + distance_to(rule, upper_level, price);
        let lower_edge = multiple_above(tick, lower);
        let upper_edge = multiple_below(tick, upper);
        Bounds {
            lower,
            upper,
            lower_edge,
            upper_edge,
        }
    }

    /// Whether a price is inside, on a limit too.
    pub fn inside(&self, price: u32) -> bool
        ensures { result ≡ within self.now price }
    {
        (self.lower..=self.upper).contains(&price)
    }
}

fn distance_to<R: LimitRule>(rule: &R, level: u8, price: u32) -> u32
    ensures { result ≡ distance (R.LimitRule.means rule.now) level price }
{
    rule.offset(level, price).unwrap_or(0)
}
