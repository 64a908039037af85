// Refusals as text: `refused 12`, and with a place `refused 4 at 18`.
ghost use Rattle.std.specs.Prelude.{◌≡◌, Some};
ghost use Rattle.std.specs.Option.{option_map};
ghost use Rattle.std.specs.Result.{result_ok};
ghost use Rattle.words.specs.Numeral.{number_below};
ghost use Rattle.words.specs.RefusalText.{place_of, read_refusal, refusal_text};

use crate::numbers::read_numeral;
use std::fmt;
use std::str::FromStr;

#[derive(Clone, Copy, Debug, PartialEq, Eq)]
pub struct Refusal {
    pub code: u8,
    pub place: Option<usize>,
}

// The text writes no refusal.
#[derive(Clone, Copy, Debug, PartialEq, Eq)]
pub struct NotRefusal;

impl fmt::Display for Refusal {
    ghost output = { λ r. Some (refusal_text r.code r.place) };

    fn fmt<W: fmt::Write>(&self, f: &mut fmt::Formatter<W>) -> fmt::Result {
        let code = self.code;
        match self.place {
            None => write!(f, "refused {code}"),
            Some(place) => write!(f, "refused {code} at {place}"),
        }
    }
}

impl FromStr for Refusal {
    type Err = NotRefusal;

    ghost from_str_gives = { λ text r. option_map (λ x. (x.code, x.place)) (result_ok r) ≡ read_refusal text };

    fn from_str(text: &str) -> Result<Refusal, NotRefusal> {
        read_refusal(text).ok_or(NotRefusal)
    }
}

fn read_refusal(text: &str) -> Option<Refusal>
    ensures { option_map (λ x. (x.code, x.place)) result ≡ read_refusal text.now }
{
    let rest = text.strip_prefix("refused ")?;
    let (code, place) = match rest.split_once(' ') {
        Some((code, tail)) => (code, Some(read_place(tail)?)),
        None => (rest, None),
    };
    let code = read_code(code)?;
    Some(Refusal { code, place })
}

// Kept: one generic function of the size would need its bound as a law of a trait, and each body is this one line.
fn read_code(word: &str) -> Option<u8>
    ensures { result ≡ number_below 256 word.now }
{
    u8::try_from(read_numeral(word)?).ok()
}

fn read_place(tail: &str) -> Option<usize>
    ensures { option_map Some result ≡ place_of (Some tail.now) }
{
    let word = tail.strip_prefix("at ")?;
    usize::try_from(read_numeral(word)?).ok()
}
