ghost use Rattle.std.specs.Prelude.{◌≡◌};
ghost use Rattle.watches.specs.Ends.{end_by, passable, pass_to};
ghost use Rattle.watches.specs.Moving.{moved, Twice, PassMoves};
ghost use Rattle.watches.specs.Order.{InOrder};
ghost use Rattle.watches.specs.Words.{timely};

use super::Watches;
use crate::state::LAST;

impl Watches {
    /// Whether a time is not before the clock, and of the day.
    pub fn is_timely(&self, time: u32) -> bool
        ensures { result ≡ timely self.now.state.clock time }
    {
        (self.state.clock..=LAST).contains(&time)
    }

    /// The first moment up to `time` at which something ends.
    pub fn end_by(&self, time: u32) -> Option<u32>
        ensures { result ≡ end_by self.now.state time }
    {
        self.state.earliest_end().filter(|end| *end <= time)
    }

    /// Whether a moment is timely and nothing ends before it.
    fn is_next(&self, moment: u32) -> bool
        ensures { result ≡ passable moment self.now.state }
    {
        self.is_timely(moment) && self.state.earliest_end().is_none_or(|end| moment <= end)
    }

    /// Moves to one moment, with all that ends there. A moment that is not timely, or before which something ends,
    /// changes nothing.
    pub fn pass(&mut self, moment: u32)
        ensures state { self.new.state ≡ pass_to moment self.old.state }
        ensures moves { PassMoves self.old.state moment }
    {
        if self.is_next(moment) {
            self.state = self.at_moment(moment);
        }
    }

    /// Moves to a time, from one moment at which something ends to the next. A time that is not timely changes nothing.
    pub fn move_to(&mut self, time: u32)
        ensures state { self.new.state ≡ moved self.old.state time }
        ensures order { InOrder self.old.state time }
        ensures twice { Twice self.old.state time }
    {
        if !self.is_timely(time) {
            return;
        }
        while let Some(moment) = self.end_by(time) {
            self.pass(moment);
        }
        self.pass(time);
    }
}
