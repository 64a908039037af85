ghost use Rattle.std.specs.Prelude.{◌≡◌};
ghost use Rattle.watches.specs.Marking.{fresh};

use super::Watches;
use crate::state::{Band, Phase, State, Watch};

impl Watches {
    /// A day's start: both sides at level 1, and no mark, watch or halt.
    pub fn fresh() -> Watches
        ensures { result.state ≡ fresh }
    {
        let side = Band {
            level: 1,
            watch: Watch::Idle,
        };
        let state = State {
            clock: 0,
            upper: side,
            lower: side,
            phase: Phase::Open,
            standing: None,
        };
        Watches { state }
    }

    pub fn state(&self) -> State
        ensures { result ≡ self.now.state }
    {
        self.state
    }
}
