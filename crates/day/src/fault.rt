ghost use Rattle.std.specs.Prelude.{◌≡◌};
ghost use Rattle.day.specs.Codes.{open_number, number};

/// Why a day did not open.
#[derive(Clone, Copy, Debug, PartialEq, Eq)]
pub enum OpenFault {
    /// The rule does not take the rounded price.
    NotTaken = 10,
}

/// Why a call on a day was refused.
#[derive(Clone, Copy, Debug, PartialEq, Eq)]
pub enum Refusal {
    /// A time behind the clock, or past the day.
    Time = 20,
    /// A price, mark, code or strike that is malformed.
    Malformed = 21,
    NotListed = 22,
    Halted = 23,
    OutsideLimits = 24,
    /// An option that the standing mark stands against.
    OptionStopped = 25,
    /// A mark whose price is not its side's edge.
    OffEdge = 26,
    /// An option whose underlying month is not listed.
    UnderlyingNotListed = 29,
}

impl OpenFault {
    pub fn code(&self) -> u8
        ensures { result ≡ open_number self.now }
    {
        *self as u8
    }
}

impl Refusal {
    pub fn code(&self) -> u8
        ensures { result ≡ number self.now }
    {
        *self as u8 // by discriminant
    }
}
