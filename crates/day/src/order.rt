ghost use Rattle.std.specs.Prelude.{◌≡◌, ◌&&◌};
ghost use Rattle.day.specs.Form.{price_formed, future_formed, option_formed};

use listings::code::MonthCode;
use listings::futures::FuturesMonth;
use listings::series::{OptionContract, OptionSeries};
use roster::listing::Listing;

/// An order in a futures month: the price in hundredths of a point.
#[derive(Clone, Copy, Debug, PartialEq, Eq)]
pub struct FutureOrder {
    pub code: MonthCode,
    pub price: u32,
}

/// An order in an option series: the price in hundredths of a point.
// Kept: a struct of any key and a price, for futures too, would not say what is ordered.
#[derive(Clone, Copy, Debug, PartialEq, Eq)]
pub struct OptionOrder {
    pub contract: OptionContract,
    pub price: u32,
}

/// The highest price of an order, in hundredths of a point.
const HIGHEST: u32 = 40_000_000;

// Whether an order's listing is sound, and its price a positive multiple of the listing's tick.
fn order_formed<L: Listing>(listing: &L, price: u32) -> bool
    ensures { result ≡ (L.Listing.sound listing.now && price_formed L.Listing.TICK price) }
{
    listing.form().is_ok() && (1..=HIGHEST).contains(&price) && price.is_multiple_of(L::TICK)
}

impl FutureOrder {
    pub(crate) fn is_formed(self) -> bool
        ensures { result ≡ future_formed self.code self.price }
    {
        order_formed(&FuturesMonth::from(self.code), self.price)
    }
}

impl OptionOrder {
    pub(crate) fn is_formed(self) -> bool
        ensures { result ≡ option_formed self }
    {
        order_formed(&OptionSeries::from(self.contract), self.price)
    }
}
