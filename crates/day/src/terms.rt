ghost use Rattle.std.specs.Prelude.{◌≡◌};
ghost use Rattle.limits.specs.Around.{bounds};
ghost use Rattle.day.specs.Form.{futures_tick};

use limits::{Bounds, LimitRule};
use listings::futures::FuturesMonth;
use roster::listing::Listing;

/// What a day is opened with: its rule, and the price that the limits stand around, in hundredths of a point.
// Kept: that a call leaves the terms stands in the contract of each call, since no field of one day can say it of two.
#[derive(Clone, Copy, Debug, PartialEq, Eq)]
pub struct Terms<R> {
    pub(crate) rule: R,
    pub(crate) price: u32,
}

impl<R: LimitRule> Terms<R> {
    pub(crate) fn levels(&self) -> u8
        ensures { result ≡ (R.LimitRule.means self.now.rule).levels }
    {
        self.rule.levels()
    }

    // The limits and edges at each side's level.
    pub(crate) fn bounds(&self, lower_level: u8, upper_level: u8) -> Bounds
        ensures { result ≡ bounds (R.LimitRule.means self.now.rule) futures_tick self.now.price lower_level upper_level }
    {
        Bounds::around(
            &self.rule,
            FuturesMonth::TICK,
            self.price,
            lower_level,
            upper_level,
        )
    }
}
