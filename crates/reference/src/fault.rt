ghost use Rattle.std.specs.Prelude.{◌≡◌};
ghost use Rattle.tape.specs.Codes.{code_of, place_of};
ghost use Rattle.reference.specs.Codes.{reference_refusal};
ghost use Rattle.reference.specs.declared.fault.ReferenceFault.TheVariants.{Tape};

use tape::fault::TapeFault;

/// Why there is no reference price, or no window.
#[derive(Clone, Copy, Debug, PartialEq, Eq)]
pub enum ReferenceFault {
    Tape(TapeFault),
    /// The request is out of range.
    Request,
    /// No window that was asked for has a mean.
    NoMean,
}

// Kept: a derived From has no contract, and contracts here name the variant.
impl From<TapeFault> for ReferenceFault {
    ghost from_gives = { λ e r. r ≡ Tape e };

    fn from(fault: TapeFault) -> ReferenceFault {
        ReferenceFault::Tape(fault)
    }
}

impl ReferenceFault {
    pub fn code(&self) -> u8
        ensures { result ≡ code_of (reference_refusal self.now) }
    {
        // Kept: a variant carries a fault, so no discriminant can be its number.
        match self {
            ReferenceFault::Tape(fault) => fault.code(),
            ReferenceFault::Request => 8,
            ReferenceFault::NoMean => 9,
        }
    }

    /// The place of the tape's fault.
    pub fn place(&self) -> Option<usize>
        ensures { result ≡ place_of (reference_refusal self.now) }
    {
        match self {
            ReferenceFault::Tape(fault) => fault.place(),
            ReferenceFault::Request | ReferenceFault::NoMean => None,
        }
    }
}
