ghost use Rattle.std.specs.Prelude.{◌≡◌};
ghost use Rattle.rules.specs.Faults.{number};

/// Why a rule cannot be made of the figures given.
#[derive(Clone, Copy, Debug, PartialEq, Eq)]
pub enum RuleFault {
    /// Not twenty closes, or one out of range.
    Closes,
    /// Not a multiple of 5 points, or too high.
    Settlement,
}

impl RuleFault {
    pub fn code(&self) -> u8
        ensures { result ≡ number self.now }
    {
        // Kept: both faults have one number, and no two variants can have one discriminant.
        match self {
            RuleFault::Closes | RuleFault::Settlement => 11,
        }
    }
}
