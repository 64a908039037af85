ghost use Rattle.std.specs.Prelude.{◌≤◌};
ghost use Rattle.watches.specs.Sound.{SideSound, HaltSound};
ghost use Rattle.watches.specs.Words.{last_moment};

mod marking;
mod moving;
mod passing;
mod start;

use crate::state::State;

/// The state of a day in which all that runs has its end after the clock, at most a span ahead.
#[derive(Clone, Copy, Debug, PartialEq, Eq)]
pub struct Watches {
    state: State,
    ghost within: { state.clock ≤ last_moment },
    ghost upper: { SideSound state.clock state.upper },
    ghost lower: { SideSound state.clock state.lower },
    ghost halt: { HaltSound state.clock state.phase },
}
