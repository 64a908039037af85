//! When watches and halts end.
ghost use Rattle.std.specs.Prelude.{◌≡◌};
ghost use Rattle.watches.specs.Ends.{end_of, halt_end, is_halted, earlier, first_end};

use crate::state::{Phase, State, Watch};

// Kept: the two ends read alike, but of two enums that the project prescribes.
impl Watch {
    /// The end of a watch that runs.
    pub fn end(self) -> Option<u32>
        ensures { result ≡ end_of self }
    {
        match self {
            Watch::Idle => None,
            Watch::Running { end } => Some(end),
        }
    }
}

impl Phase {
    /// The end of a halt that runs.
    pub fn end(self) -> Option<u32>
        ensures { result ≡ halt_end self }
    {
        match self {
            Phase::Open => None,
            Phase::Halted { end } => Some(end),
        }
    }

    pub fn is_halted(self) -> bool
        ensures { result ≡ is_halted self }
    {
        self.end().is_some()
    }
}

fn earlier_of(a: Option<u32>, b: Option<u32>) -> Option<u32>
    ensures { result ≡ earlier a b }
{
    a.zip(b).map(|(x, y)| x.min(y)).or(a).or(b)
}

impl State {
    /// The earliest end of all that runs.
    pub(crate) fn earliest_end(self) -> Option<u32>
        ensures { result ≡ first_end self }
    {
        let watches = earlier_of(self.upper.watch.end(), self.lower.watch.end());
        earlier_of(watches, self.phase.end())
    }
}
