ghost use Rattle.std.specs.Prelude.{◌≡◌, false};
ghost use Rattle.listings.specs.Kinds.{same_series, sound_series};
ghost use Rattle.listings.specs.Months.{underlying_code};
ghost use Rattle.listings.specs.Sames.{series_trans};
ghost use Rattle.std.proofs.Common.{rules};

use super::code::{MonthCode, month_of};
use roster::fault::RosterFault;
use roster::listing::Listing;

/// What an option gives a right to: to buy (a call) or to sell (a put).
#[derive(Clone, Copy, Debug, PartialEq, Eq)]
pub enum Right {
    Call,
    Put,
}

/// What an option is known by: the code of its month, the strike in whole points, and what it gives a right to.
#[derive(Clone, Copy, Debug, PartialEq, Eq)]
pub struct OptionContract {
    pub code: MonthCode,
    pub strike: u32,
    pub right: Right,
}

/// An option series, and whether today is its last trading day.
// Kept: a struct of any key and the flag, for months too, would not say by what a listing is known.
#[derive(Clone, Copy, Debug, PartialEq, Eq)]
pub struct OptionSeries {
    pub contract: OptionContract,
    pub last_day: bool,
}

// In whole points.
const MOST_STRIKE: u32 = 400_000;

impl OptionContract {
    /// The futures month that the option is on: the first of the March cycle from its own month on, in the same
    /// year. A letter that is no month's stays as it is.
    pub fn underlying(&self) -> MonthCode
        ensures { result ≡ underlying_code self.now.code }
    {
        let letter = match month_of(self.code.letter) {
            Ok(0..=3) => 'H',
            Ok(4..=6) => 'M',
            Ok(7..=9) => 'U',
            Ok(_) => 'Z',
            Err(_) => self.code.letter,
        };
        MonthCode {
            letter,
            ..self.code
        }
    }
}

/// The series of a contract, to be looked for by it: the flag is no part of what is sought.
impl From<OptionContract> for OptionSeries {
    ghost from_gives = { λ c r. r ≡ record { contract = c; last_day = false } };

    fn from(contract: OptionContract) -> OptionSeries {
        OptionSeries {
            contract,
            last_day: false,
        }
    }
}

impl Listing for OptionSeries {
    /// 1 point.
    const TICK: u32 = 100;

    ghost TICK = { 100 };

    ghost same = { same_series };

    ghost sound = { sound_series };

    ghost positive = { Prim.search rules };

    ghost reflexive = { Prim.search rules };

    ghost symmetric = { Prim.search rules };

    ghost transitive = { series_trans };

    fn is_same(&self, other: &OptionSeries) -> bool {
        self.contract == other.contract
    }

    fn form(&self) -> Result<(), RosterFault> {
        self.contract.code.form()?;
        match self.contract.strike {
            1..=MOST_STRIKE => Ok(()),
            _ => Err(RosterFault::Malformed),
        }
    }
}
