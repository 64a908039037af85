ghost use Rattle.std.specs.Prelude.{◌≡◌, true, false, MatchResult};
ghost use Rattle.limits.specs.Meaning.{points};
ghost use Rattle.rules.specs.Faults.{number};
ghost use Rattle.rules.specs.Figures.{settlement_sound};
ghost use Rattle.rules.specs.Named.{monthly, bracket};
ghost use Rattle.std.proofs.Common.{rules};

use crate::fault::RuleFault;
use crate::offsets::{HIGHEST, POINT, price_suits};
use limits::LimitRule;

/// One offset, by the bracket of the lead month's settlement.
#[derive(Clone, Copy, Debug, PartialEq, Eq)]
pub struct Monthly {
    settlement: u32,
}

impl Monthly {
    // Kept: the name says what the number is, and `try_from` would not.
    /// The rule of a settlement that is a multiple of 5 points up to 200,000.
    pub fn from_settlement(settlement: u32) -> Result<Monthly, RuleFault>
        ensures { MatchResult result (λ m. (settlement_sound settlement ≡ true) × (m.settlement ≡ settlement)) (λ e. (settlement_sound settlement ≡ false) × (e ≡ RuleFault.Settlement) × (number e ≡ 11)) }
    {
        if !settlement.is_multiple_of(SETTLEMENT_STEP) || settlement > HIGHEST {
            return Err(RuleFault::Settlement);
        }
        Ok(Monthly { settlement })
    }
}

impl LimitRule for Monthly {
    const UNIT: u32 = 5 * POINT;

    ghost means = { λ m. monthly m.settlement };

    ghost lawful = { Prim.search rules };

    fn rounding_unit(&self) -> u32 {
        Self::UNIT
    }

    fn levels(&self) -> u8 {
        LEVELS
    }

    fn offset(&self, level: u8, price: u32) -> Option<u32> {
        let offset = bracket_of(self.settlement);
        (level == LEVELS && price_suits(Self::UNIT, offset, price)).then_some(offset)
    }
}

const LEVELS: u8 = 1;

const SETTLEMENT_STEP: u32 = 5 * POINT;

fn bracket_of(settlement: u32) -> u32
    ensures { result ≡ bracket settlement }
{
    if settlement <= 20_000 * POINT {
        1_000 * POINT
    } else if settlement <= 30_000 * POINT {
        1_500 * POINT
    } else {
        2_000 * POINT
    }
}
