// Prices, in hundredths of a point, as text in points.
ghost use Rattle.std.specs.Prelude.{◌≡◌, Some};
ghost use Rattle.std.specs.Option.{option_map};
ghost use Rattle.std.specs.Result.{result_ok};
ghost use Rattle.words.specs.Numeral.{number};
ghost use Rattle.words.specs.PriceText.{decimals, price_of, price_text, read_price};

use crate::read_number;
use std::fmt;
use std::str::FromStr;

// A number of hundredths. Displayed with two decimals, and read with none, one or two.
#[derive(Clone, Copy, Debug, PartialEq, Eq)]
pub struct Price(pub u32);

// The word writes no price, or one past 32 bits.
#[derive(Clone, Copy, Debug, PartialEq, Eq)]
pub struct NotPrice;

impl fmt::Display for Price {
    ghost output = { λ p. Some (price_text p.0) };

    #[tactic(auto, using(crate::proofs::PriceParts::two_decimals))]
    fn fmt<W: fmt::Write>(&self, f: &mut fmt::Formatter<W>) -> fmt::Result {
        let points = self.0 / 100;
        let hundredths = self.0 % 100;
        write!(f, "{points}.{hundredths:02}")
    }
}

impl FromStr for Price {
    type Err = NotPrice;

    ghost from_str_gives = { λ word r. option_map (λ p. p.0) (result_ok r) ≡ read_price word };

    fn from_str(word: &str) -> Result<Price, NotPrice> {
        read_price(word).map(Price).ok_or(NotPrice)
    }
}

fn read_price(word: &str) -> Option<u32>
    ensures { result ≡ read_price word.now }
{
    match word.split_once('.') {
        Some((points, decimals)) => price_of(points, read_decimals(decimals)?),
        None => price_of(word, 0),
    }
}

fn price_of(points: &str, hundredths: u32) -> Option<u32>
    ensures { result ≡ price_of (number points.now) (Some hundredths) }
{
    read_number(points)?
        .checked_mul(100)?
        .checked_add(hundredths)
}

// One or two decimals, in hundredths.
fn read_decimals(digits: &str) -> Option<u32>
    ensures { result ≡ decimals digits.now }
{
    let number = read_number(digits)?;
    match digits.len() {
        1 => Some(number * 10),
        2 => Some(number),
        _ => None,
    }
}
