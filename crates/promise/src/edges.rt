ghost use Rattle.std.specs.Prelude.{◌≡◌};
ghost use Rattle.limits.specs.Around.{bounds};
ghost use Rattle.rules.specs.Named.{daily};
ghost use Rattle.day.specs.Form.{futures_tick};
ghost use Rattle.promise.specs.EdgeCases.{price, by_level, EdgeCases};

use limits::Bounds;
use listings::futures::FuturesMonth;
use roster::listing::Listing;
use rules::Daily;

/// 38,130 points.
const PRICE: u32 = 3_813_000;

fn limits_at(level: u8) -> Bounds
    ensures { result ≡ bounds daily futures_tick price level level }
{
    Bounds::around(&Daily, FuturesMonth::TICK, PRICE, level, level)
}

/// The daily limits at 38,130 points by level. The contract also settles the other edge cases of the rules.
pub fn edge_cases() -> [Bounds; 3]
    ensures levels { result ≡ by_level }
    ensures cases { EdgeCases }
{
    [1, 2, 3].map(limits_at)
}
