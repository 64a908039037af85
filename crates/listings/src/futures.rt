ghost use Rattle.std.specs.Prelude.{◌≡◌, false};
ghost use Rattle.listings.specs.Kinds.{same_month, sound_month};
ghost use Rattle.std.proofs.Common.{rules};

use super::code::MonthCode;
use roster::fault::RosterFault;
use roster::listing::Listing;

/// A futures month, and whether today is its last trading day.
#[derive(Clone, Copy, Debug, PartialEq, Eq)]
pub struct FuturesMonth {
    pub code: MonthCode,
    pub last_day: bool,
}

/// The month of a code, to be looked for by it: the flag is no part of what is sought.
impl From<MonthCode> for FuturesMonth {
    ghost from_gives = { λ c r. r ≡ record { code = c; last_day = false } };

    fn from(code: MonthCode) -> FuturesMonth {
        FuturesMonth {
            code,
            last_day: false,
        }
    }
}

impl Listing for FuturesMonth {
    /// 5 points.
    const TICK: u32 = 500;

    ghost TICK = { 500 };

    ghost same = { same_month };

    ghost sound = { sound_month };

    ghost positive = { Prim.search rules };

    ghost reflexive = { Prim.search rules };

    ghost symmetric = { Prim.search rules };

    ghost transitive = { Prim.search rules };

    fn is_same(&self, other: &FuturesMonth) -> bool {
        self.code == other.code
    }

    fn form(&self) -> Result<(), RosterFault> {
        self.code.form()
    }
}
