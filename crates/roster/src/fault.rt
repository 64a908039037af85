ghost use Rattle.std.specs.Prelude.{◌≡◌};
ghost use Rattle.roster.specs.Codes.{number};

/// Why a listing was not entered or not taken out.
#[derive(Clone, Copy, Debug, PartialEq, Eq)]
pub enum RosterFault {
    Malformed = 21,
    NotListed = 22,
    /// No place is left.
    Full = 27,
    /// The same listing is entered already.
    Listed = 28,
}

impl RosterFault {
    pub fn code(&self) -> u8
        ensures { result ≡ number self.now }
    {
        *self as u8
    }
}
