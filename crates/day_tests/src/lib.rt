//! Tests of the day that a script cannot reach.
#![tactic(auto)]

ghost use Rattle.day_tests.specs.Closed.{closed};
ghost use Rattle.std.proofs.Common.{rules};

use limits::LimitRule;

/// A lawful rule that takes no price, and so opens no day.
#[derive(Clone, Copy)]
pub struct ClosedMarket;

impl LimitRule for ClosedMarket {
    const UNIT: u32 = 100;

    ghost means = { λ _. closed };

    ghost lawful = { Prim.search rules };

    fn rounding_unit(&self) -> u32 {
        Self::UNIT
    }

    fn levels(&self) -> u8 {
        1
    }

    fn offset(&self, _level: u8, _price: u32) -> Option<u32> {
        None
    }
}

#[cfg(test)]
mod tests {
    use super::{ClosedMarket, LimitRule};
    use day::Day;

    fn opening(price: u32) -> Result<(), u8> {
        Day::open(ClosedMarket, price)
            .map(|_| ())
            .map_err(|fault| fault.code())
    }

    #[test]
    fn a_rule_that_takes_no_price_opens_no_day(rt: HostRuntime) {
        for price in [0, 1, 100_000, 3_813_000, 20_000_000, u32::MAX] {
            assert_eq!(rt; opening(price), Err(10));
        }
    }
}
