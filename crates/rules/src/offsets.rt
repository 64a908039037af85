//! What the named rules share.
ghost use Rattle.std.specs.Prelude.{◌≡◌, ◌*◌, ◌<◌, ◌≤◌, IfSome};
ghost use Rattle.limits.specs.Meaning.{offset_at};
ghost use Rattle.rules.specs.Exact.{PercentOf};
ghost use Rattle.rules.specs.Named.{suits, taking, percent_at, share};

/// A point in hundredths.
pub(crate) const POINT: u32 = 100;

/// The lowest price, and the lowest close.
pub(crate) const LOWEST: u32 = 1_000 * POINT;

/// The highest price, close and settlement.
pub(crate) const HIGHEST: u32 = 200_000 * POINT;

/// Percentages are rounded down to a multiple of 10 points.
const STEP: u64 = 10 * POINT as u64;

/// Whether a rule of that unit and last offset takes the price.
pub(crate) fn price_suits(unit: u32, last: u32, price: u32) -> bool
    ensures { result ≡ suits unit last price }
{
    price.is_multiple_of(unit) && (LOWEST..=HIGHEST).contains(&price) && last < price
}

/// Percentages of amount / parts, which itself is never rounded.
#[derive(Clone, Copy)]
pub(crate) struct Share {
    pub(crate) amount: u32,
    pub(crate) parts: u32,
    ghost some: { 0 < parts },
}

impl Share {
    /// The offset of a level in a rule of that unit and number of levels.
    pub(crate) fn offset(self, unit: u32, levels: u8, level: u8, price: u32) -> Option<u32>
        ensures answer { result ≡ offset_at (taking unit levels (λ l p. share l self.amount self.parts)) level price }
        ensures exact { IfSome result (λ x. PercentOf (percent_at level) self.amount self.parts x) }
    {
        let taken = price_suits(unit, self.at(levels), price);
        (taken && (1..=levels).contains(&level)).then_some(self.at(level))
    }

    /// The level's percentage, rounded down.
    fn at(self, level: u8) -> u32
        ensures answer { result ≡ share level self.amount self.parts }
        ensures exact { PercentOf (percent_at level) self.amount self.parts result }
    {
        (percentage(level, self.amount) / (100 * u64::from(self.parts) * STEP) * STEP) as u32
    }
}

/// A hundred times the level's percentage of an amount.
fn percentage(level: u8, amount: u32) -> u64
    ensures exact { result ≡ percent_at level * amount }
    ensures bound { result ≤ 16 * amount }
{
    let percent = match level {
        1 => 8,
        2 => 12,
        _ => 16,
    };
    percent * u64::from(amount)
}
