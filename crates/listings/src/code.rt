ghost use Rattle.std.specs.Prelude.{◌≡◌};
ghost use Rattle.std.specs.Option.{ok_or};
ghost use Rattle.roster.specs.Codes.{numbered};
ghost use Rattle.roster.specs.Checks.{form_answer};
ghost use Rattle.listings.specs.Months.{month_of, read_code, sound_code};

use roster::fault::RosterFault;

/// A letter for the month and the last two digits of the year. Any letter and any number can be handed in, so what
/// takes a code checks its form; `try_from` gives well-formed ones only.
#[derive(Clone, Copy, Debug, PartialEq, Eq)]
pub struct MonthCode {
    pub letter: char,
    pub year: u8,
}

/// The month that a letter stands for, 1 to 12.
pub fn month_of(letter: char) -> Result<u8, RosterFault>
    ensures { numbered result ≡ ok_or (month_of letter) 21 }
{
    // Kept: the project prescribes letters as cases, and an enum of the months would be twelve cases more.
    match letter {
        'F' => Ok(1),
        'G' => Ok(2),
        'H' => Ok(3),
        'J' => Ok(4),
        'K' => Ok(5),
        'M' => Ok(6),
        'N' => Ok(7),
        'Q' => Ok(8),
        'U' => Ok(9),
        'V' => Ok(10),
        'X' => Ok(11),
        'Z' => Ok(12),
        _ => Err(RosterFault::Malformed),
    }
}

impl<'a> TryFrom<&'a [u8]> for MonthCode {
    type Error = RosterFault;

    ghost try_from_gives = { λ word r. numbered r ≡ read_code word.now };

    /// Reads a code from a word's bytes: a month's letter and two digits, and nothing else.
    fn try_from(word: &'a [u8]) -> Result<MonthCode, RosterFault> {
        let [letter, tens @ b'0'..=b'9', ones @ b'0'..=b'9'] = word else {
            return Err(RosterFault::Malformed);
        };
        let letter = char::from(*letter);
        month_of(letter)?;
        let year = 10 * (*tens - b'0') + (*ones - b'0');
        Ok(MonthCode { letter, year })
    }
}

impl MonthCode {
    pub(super) fn form(&self) -> Result<(), RosterFault>
        ensures { numbered result ≡ form_answer (sound_code self.now) }
    {
        month_of(self.letter)?;
        match self.year {
            0..=99 => Ok(()),
            _ => Err(RosterFault::Malformed),
        }
    }
}
