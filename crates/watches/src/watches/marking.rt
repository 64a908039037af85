ghost use Rattle.std.specs.Prelude.{◌≡◌, ◌≤◌};
ghost use Rattle.watches.specs.Marking.{started, with_band, marked};
ghost use Rattle.watches.specs.Words.{last_moment, side_of};

use super::Watches;
use crate::state::{Band, Kind, SPAN, Side, State, Watch};

impl Kind {
    fn side(self) -> Option<Side>
        ensures { result ≡ side_of self }
    {
        match self {
            Kind::Bid => Some(Side::Upper),
            Kind::Offered => Some(Side::Lower),
            Kind::Clear => None,
        }
    }
}

impl Band {
    /// The side marked at a moment, where there are so many levels.
    fn watched_from(self, moment: u32, levels: u8) -> Band
        requires { moment ≤ last_moment }
        ensures { result ≡ started levels moment self self.watch }
    {
        match self.watch {
            Watch::Idle if self.level < levels => Band {
                watch: Watch::Running { end: moment + SPAN },
                ..self
            },
            _ => self,
        }
    }
}

impl State {
    /// The day with another band on one side.
    fn with_band(self, side: Side, band: Band) -> State
        ensures { result ≡ with_band self side band }
    {
        match side {
            Side::Upper => State {
                upper: band,
                ..self
            },
            Side::Lower => State {
                lower: band,
                ..self
            },
        }
    }
}

impl Watches {
    /// The day with an accepted mark at its clock.
    fn with_mark(&self, kind: Kind, levels: u8) -> State
        ensures { result ≡ marked levels self.now.state kind }
    {
        let state = self.state;
        let standing = kind.side();
        let day = standing.map_or(state, |side| {
            state.with_band(side, state.band(side).watched_from(state.clock, levels))
        });
        State { standing, ..day }
    }

    /// Takes a mark at the clock, where there are so many levels. That it is accepted is the caller's to say.
    pub fn mark(&mut self, kind: Kind, levels: u8)
        ensures { self.new.state ≡ marked levels self.old.state kind }
    {
        self.state = self.with_mark(kind, levels);
    }
}
