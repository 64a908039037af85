ghost use Rattle.std.specs.Prelude.{◌≡◌, [], ◌∷◌};
ghost use Rattle.limits.specs.Meaning.{points};
ghost use Rattle.rules.specs.Worked.{Worked};

use crate::daily::Daily;
use crate::offsets::POINT;
use limits::LimitRule;

/// The daily offsets at 38,130 points. The contract also holds the examples worked out for all three rules.
pub fn worked_offsets() -> [u32; 3]
    ensures offsets { result ≡ points 3050 ∷ points 4570 ∷ points 6100 ∷ [] }
    ensures worked { Worked }
{
    let price = 38_130 * POINT;
    [1, 2, 3].map(|level| Daily.offset(level, price).unwrap_or(0))
}
