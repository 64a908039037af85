//! Marks, ticks and looks.
ghost use Rattle.std.specs.Prelude.{◌≡◌};
ghost use Rattle.watches.specs.Moving.{moved};
ghost use Rattle.day.specs.Answering.{mark_at, with_mark, time_answer, mark_answer, mark_after, seen, look_answer};
ghost use Rattle.day.specs.Codes.{numbered};

use crate::day::Day;
use crate::fault::Refusal;
use crate::mark::Mark;
use crate::view::View;
use limits::LimitRule;

impl<R: LimitRule> Day<R> {
    // Takes a well-formed mark at the clock, or refuses it.
    fn take_mark(&mut self, mark: Mark) -> Result<(), Refusal>
        ensures answer { numbered result ≡ mark_at (R.LimitRule.means self.old.terms.rule) self.old.terms.price self.old.watches.state mark.kind mark.price }
        ensures after { self.new.watches.state ≡ with_mark (R.LimitRule.means self.old.terms.rule) self.old.terms.price self.old.watches.state mark.kind mark.price }
        ensures terms { self.new.terms ≡ self.old.terms }
    {
        if self.is_halted() {
            return Err(Refusal::Halted);
        }
        if !mark.is_at_edge(self.bounds()) {
            return Err(Refusal::OffEdge);
        }
        let levels = self.terms.levels();
        self.watches.mark(mark.kind, levels);
        Ok(())
    }

    /// Tells that the primary month is limit bid, limit offered, or neither any more.
    pub fn mark(&mut self, time: u32, mark: Mark) -> Result<(), Refusal>
        ensures answer { numbered result ≡ mark_answer (R.LimitRule.means self.old.terms.rule) self.old.terms.price self.old.watches.state time mark.kind mark.price }
        ensures after { self.new.watches.state ≡ mark_after (R.LimitRule.means self.old.terms.rule) self.old.terms.price self.old.watches.state time mark.kind mark.price }
        ensures terms { self.new.terms ≡ self.old.terms }
    {
        if !mark.is_formed() {
            return Err(Refusal::Malformed);
        }
        self.move_to(time)?;
        self.take_mark(mark)
    }

    // Kept: `move_to` is the step that every call makes, a tick the call that makes no other; merged, an order would tick.
    /// Moves the day to a time.
    pub fn tick(&mut self, time: u32) -> Result<(), Refusal>
        ensures answer { numbered result ≡ time_answer self.old.watches.state time }
        ensures after { self.new.watches.state ≡ moved self.old.watches.state time }
        ensures terms { self.new.terms ≡ self.old.terms }
    {
        self.move_to(time)
    }

    /// What the day shows at its clock.
    pub fn view(&self) -> View
        ensures { result ≡ seen (R.LimitRule.means self.now.terms.rule) self.now.terms.price self.now.watches.state }
    {
        let state = self.watches.state();
        View {
            bounds: self.bounds(),
            lower_level: state.lower.level,
            upper_level: state.upper.level,
            standing: state.standing,
            lower_watch: state.lower.watch.end(),
            upper_watch: state.upper.watch.end(),
            halt: state.phase.end(),
        }
    }

    /// Moves the day to a time and shows it there.
    pub fn look(&mut self, time: u32) -> Result<View, Refusal>
        ensures answer { numbered result ≡ look_answer (R.LimitRule.means self.old.terms.rule) self.old.terms.price self.old.watches.state time }
        ensures after { self.new.watches.state ≡ moved self.old.watches.state time }
        ensures terms { self.new.terms ≡ self.old.terms }
    {
        self.move_to(time)?;
        Ok(self.view())
    }
}
