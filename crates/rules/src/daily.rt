ghost use Rattle.std.specs.Prelude.{◌≡◌, IfSome};
ghost use Rattle.limits.specs.Meaning.{offset_at};
ghost use Rattle.rules.specs.Exact.{PercentOf};
ghost use Rattle.rules.specs.Named.{daily, percent_at};
ghost use Rattle.std.proofs.Common.{rules};

use crate::offsets::{POINT, Share};
use limits::LimitRule;

/// Offsets are percentages of the price itself.
#[derive(Clone, Copy, Debug, PartialEq, Eq)]
pub struct Daily;

impl LimitRule for Daily {
    const UNIT: u32 = 10 * POINT;

    ghost means = { λ _. daily };

    ghost lawful = { Prim.search rules };

    fn rounding_unit(&self) -> u32 {
        Self::UNIT
    }

    fn levels(&self) -> u8 {
        LEVELS
    }

    fn offset(&self, level: u8, price: u32) -> Option<u32>
        ensures answer { result ≡ offset_at daily level price }
        ensures exact { IfSome result (λ x. PercentOf (percent_at level) price 1 x) }
    {
        let share = Share {
            amount: price,
            parts: 1,
        };
        share.offset(Self::UNIT, LEVELS, level, price)
    }
}

const LEVELS: u8 = 3;
