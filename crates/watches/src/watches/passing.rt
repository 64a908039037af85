ghost use Rattle.std.specs.Prelude.{◌≡◌, ◌+◌, ◌≤◌};
ghost use Rattle.watches.specs.Ends.{over, risen, reopened, watched, passed};
ghost use Rattle.watches.specs.Sound.{runs};
ghost use Rattle.watches.specs.Words.{last_moment};

use super::Watches;
use crate::state::{Band, Phase, SPAN, State, Watch};

impl Watch {
    fn is_over(self, moment: u32) -> bool
        ensures { result ≡ over moment self }
    {
        self.end().is_some_and(|end| end <= moment)
    }
}

impl Band {
    fn raised(self, moment: u32) -> Band
        requires { self.level + runs self.watch ≤ 255 }
        ensures { result ≡ risen moment self }
    {
        if self.watch.is_over(moment) {
            Band {
                level: self.level + 1,
                watch: Watch::Idle,
            }
        } else {
            self
        }
    }
}

impl Phase {
    fn resumed(self, moment: u32) -> Phase
        ensures { result ≡ reopened moment self }
    {
        if self.end().is_some_and(|end| moment < end) {
            self
        } else {
            Phase::Open
        }
    }
}

impl State {
    /// Whether the watch of the side whose mark stands is over.
    fn is_mark_over(self, moment: u32) -> bool
        ensures { result ≡ over moment (watched self self.standing) }
    {
        self.standing
            .is_some_and(|side| self.band(side).watch.is_over(moment))
    }
}

impl Watches {
    /// The day at a moment before which nothing ends, with all that ends there.
    pub(super) fn at_moment(&self, moment: u32) -> State
        requires { moment ≤ last_moment }
        ensures { result ≡ passed moment self.now.state }
    {
        let state = self.state;
        let mut day = State {
            clock: moment,
            upper: state.upper.raised(moment),
            lower: state.lower.raised(moment),
            phase: state.phase.resumed(moment),
            standing: state.standing,
        };
        if state.is_mark_over(moment) {
            day.phase = Phase::Halted { end: moment + SPAN };
            day.standing = None;
        }
        day
    }
}
