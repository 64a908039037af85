ghost use Rattle.std.specs.Prelude.{◌≡◌, ◌*◌, ◌≤◌, true, false, IfSome, sum, MatchResult};
ghost use Rattle.limits.specs.Meaning.{offset_at, points};
ghost use Rattle.rules.specs.Faults.{number};
ghost use Rattle.rules.specs.Figures.{close_sound, closes_sound};
ghost use Rattle.rules.specs.Exact.{PercentOf};
ghost use Rattle.rules.specs.Named.{quarterly, percent_at};
ghost use Rattle.std.proofs.Common.{rules, arith};

use crate::fault::RuleFault;
use crate::offsets::{HIGHEST, LOWEST, POINT, Share};
use limits::LimitRule;

/// Offsets are percentages of the average of twenty closes.
#[derive(Clone, Copy, Debug, PartialEq, Eq)]
pub struct Quarterly {
    /// The sum of the closes, from which the average is taken unrounded.
    total: u32,
    ghost low: { 20 * points 1000 ≤ total },
    ghost high: { total ≤ 20 * points 200000 },
}

impl Quarterly {
    // Kept: the name says what the numbers are, and `try_from` would not.
    /// The rule of twenty closes from 1,000 to 200,000 points.
    pub fn from_closes(closes: &[u32]) -> Result<Quarterly, RuleFault>
        ensures { MatchResult result (λ q. (closes_sound closes.now ≡ true) × (q.total ≡ sum closes.now)) (λ e. (closes_sound closes.now ≡ false) × (e ≡ RuleFault.Closes) × (number e ≡ 11)) }
    {
        if closes.len() != CLOSES {
            return Err(RuleFault::Closes);
        }
        let mut total = 0;
        for close in closes {
            if !close_sound(*close) {
                return Err(RuleFault::Closes);
            }
            total += *close;
        }
        Ok(Quarterly { total })
    }
}

impl LimitRule for Quarterly {
    const UNIT: u32 = POINT;

    ghost means = { λ q. quarterly q.total };

    ghost lawful = { first_of (Prim.search rules, Prim.grind (arith, Self.row.coded.inj)) };

    fn rounding_unit(&self) -> u32 {
        Self::UNIT
    }

    fn levels(&self) -> u8 {
        LEVELS
    }

    fn offset(&self, level: u8, price: u32) -> Option<u32>
        ensures answer { result ≡ offset_at (quarterly self.now.total) level price }
        ensures exact { IfSome result (λ x. PercentOf (percent_at level) self.now.total 20 x) }
    {
        let share = Share {
            amount: self.total,
            parts: CLOSES as u32,
        };
        share.offset(Self::UNIT, LEVELS, level, price)
    }
}

const LEVELS: u8 = 3;

const CLOSES: usize = 20;

fn close_sound(close: u32) -> bool
    ensures { result ≡ close_sound close }
{
    (LOWEST..=HIGHEST).contains(&close)
}
