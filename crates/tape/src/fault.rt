ghost use Rattle.std.specs.Prelude.{◌≡◌};
ghost use Rattle.tape.specs.Codes.{flaw_number, code_of, place_of, tape_refusal, write_refusal};
ghost use Rattle.tape.specs.declared.fault.TapeFault.TheVariants.{Broken};
ghost use Rattle.tape.specs.declared.fault.WriteFault.TheVariants.{Unfit};

/// What is wrong with one record.
#[derive(Clone, Copy, Debug, PartialEq, Eq)]
pub enum Flaw {
    /// Its length or its body is cut short.
    Short = 2,
    Kind = 3,
    /// Its body's length, or its symbol's, is out of range.
    Length = 4,
    Field = 5,
    /// It is earlier than the record before it.
    Backward = 6,
}

/// A flawed record: where its length begins, or would begin.
#[derive(Clone, Copy, Debug, PartialEq, Eq)]
pub struct RecordFault {
    pub place: usize,
    pub flaw: Flaw,
}

/// Why a tape is not sound.
#[derive(Clone, Copy, Debug, PartialEq, Eq)]
pub enum TapeFault {
    TooLong,
    Version,
    Broken(RecordFault),
}

/// Why a tape could not be started, or a record not be appended.
#[derive(Clone, Copy, Debug, PartialEq, Eq)]
pub enum WriteFault {
    Unfit(RecordFault),
    Full,
}

// Kept: a derived From has no contract, and contracts here name the variant.
impl From<RecordFault> for TapeFault {
    ghost from_gives = { λ e r. r ≡ Broken e };

    fn from(fault: RecordFault) -> TapeFault {
        TapeFault::Broken(fault)
    }
}

// Kept: a derived From has no contract, and contracts here name the variant.
impl From<RecordFault> for WriteFault {
    ghost from_gives = { λ e r. r ≡ Unfit e };

    fn from(fault: RecordFault) -> WriteFault {
        WriteFault::Unfit(fault)
    }
}

impl Flaw {
    pub fn code(&self) -> u8
        ensures { result ≡ flaw_number self.now }
    {
        *self as u8
    }
}

impl TapeFault {
    pub fn code(&self) -> u8
        ensures { result ≡ code_of (tape_refusal self.now) }
    {
        // Kept: a variant carries a fault, so no discriminant can be its number.
        match self {
            TapeFault::TooLong => 7,
            TapeFault::Version => 1,
            TapeFault::Broken(fault) => fault.flaw.code(),
        }
    }

    pub fn place(&self) -> Option<usize>
        ensures { result ≡ place_of (tape_refusal self.now) }
    {
        match self {
            TapeFault::TooLong => None,
            TapeFault::Version => Some(0),
            TapeFault::Broken(fault) => Some(fault.place),
        }
    }
}

impl WriteFault {
    pub fn code(&self) -> u8
        ensures { result ≡ code_of (write_refusal self.now) }
    {
        // Kept: a variant carries a fault, so no discriminant can be its number.
        match self {
            WriteFault::Unfit(fault) => fault.flaw.code(),
            WriteFault::Full => 12,
        }
    }

    pub fn place(&self) -> Option<usize>
        ensures { result ≡ place_of (write_refusal self.now) }
    {
        match self {
            WriteFault::Unfit(fault) => Some(fault.place),
            WriteFault::Full => None,
        }
    }
}
