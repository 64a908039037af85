ghost use Rattle.std.specs.Prelude.{◌≡◌};
ghost use Rattle.watches.specs.Ends.{band_of};

/// How long a watch runs, and how long a halt, in milliseconds.
pub(crate) const SPAN: u32 = 120_000;

/// The last moment of a day, in milliseconds from its start.
pub(crate) const LAST: u32 = 86_399_999;

#[derive(Clone, Copy, Debug, PartialEq, Eq)]
pub enum Side {
    Upper,
    Lower,
}

/// Limit bid is of the upper side, limit offered of the lower, and clear of neither.
// Kept: an `Option<Side>` is no plainer, since a clear mark is a mark too.
#[derive(Clone, Copy, Debug, PartialEq, Eq)]
pub enum Kind {
    Bid,
    Offered,
    Clear,
}

#[derive(Clone, Copy, Debug, PartialEq, Eq)]
pub struct AcceptedMark {
    pub time: u32,
    pub kind: Kind,
}

// Kept: the project prescribes an enum of a watch that is idle or runs to an end.
#[derive(Clone, Copy, Debug, PartialEq, Eq)]
pub enum Watch {
    Idle,
    Running { end: u32 },
}

/// One side's level, and its watch.
#[derive(Clone, Copy, Debug, PartialEq, Eq)]
pub struct Band {
    pub level: u8,
    pub watch: Watch,
}

/// A halt covers the time up to its end, without that moment.
// Kept: the project prescribes an enum of a day that is open or halted until an end.
#[derive(Clone, Copy, Debug, PartialEq, Eq)]
pub enum Phase {
    Open,
    Halted { end: u32 },
}

/// A day at its clock. The standing mark is known by its side.
#[derive(Clone, Copy, Debug, PartialEq, Eq)]
pub struct State {
    pub clock: u32,
    pub upper: Band,
    pub lower: Band,
    pub phase: Phase,
    pub standing: Option<Side>,
}

impl State {
    /// A side's level, and its watch.
    pub fn band(self, side: Side) -> Band
        ensures { result ≡ band_of self side }
    {
        match side {
            Side::Upper => self.upper,
            Side::Lower => self.lower,
        }
    }
}
