ghost use Rattle.std.specs.Prelude.{◌≡◌, true, false, MatchResult};
ghost use Rattle.limits.specs.Around.{not_above};
ghost use Rattle.watches.specs.Marking.{fresh};
ghost use Rattle.watches.specs.Moving.{moved};
ghost use Rattle.watches.specs.Words.{timely};
ghost use Rattle.day.specs.Codes.{open_number, numbered};
ghost use Rattle.day.specs.Answering.{bounds_of, halted, time_answer};

use crate::fault::{OpenFault, Refusal};
use crate::terms::Terms;
use limits::{Bounds, LimitRule, rounded, takes};
use watches::Watches;

/// A trading day of a rule, opened at a price.
#[derive(Clone, Copy)]
pub struct Day<R> {
    pub(crate) terms: Terms<R>,
    pub(crate) watches: Watches,
}

impl<R: LimitRule> Day<R> {
    /// Opens at the price rounded down to the rule's unit, where the rule takes that.
    pub fn open(rule: R, price: u32) -> Result<Day<R>, OpenFault>
        ensures { MatchResult result (λ d. ((R.LimitRule.means rule).takes (not_above (R.LimitRule.means rule).unit price) ≡ true) × (d.terms.rule ≡ rule) × (d.terms.price ≡ not_above (R.LimitRule.means rule).unit price) × (d.watches.state ≡ fresh)) (λ e. ((R.LimitRule.means rule).takes (not_above (R.LimitRule.means rule).unit price) ≡ false) × (open_number e ≡ 10)) }
    {
        let price = rounded(&rule, price);
        if !takes(&rule, price) {
            return Err(OpenFault::NotTaken);
        }
        Ok(Day {
            terms: Terms { rule, price },
            watches: Watches::fresh(),
        })
    }

    /// The price that the limits stand around.
    pub fn price(&self) -> u32
        ensures { result ≡ self.now.terms.price }
    {
        self.terms.price
    }

    /// The time that the day has moved to.
    pub fn clock(&self) -> u32
        ensures { result ≡ self.now.watches.state.clock }
    {
        self.watches.state().clock
    }

    // The limits and edges at the clock.
    pub(crate) fn bounds(&self) -> Bounds
        ensures { result ≡ bounds_of (R.LimitRule.means self.now.terms.rule) self.now.terms.price self.now.watches.state }
    {
        let state = self.watches.state();
        self.terms.bounds(state.lower.level, state.upper.level)
    }

    pub(crate) fn is_halted(&self) -> bool
        ensures { result ≡ halted self.now.watches.state }
    {
        self.watches.state().phase.is_halted()
    }

    // Moves to a time, or refuses one that is not timely.
    pub(crate) fn move_to(&mut self, time: u32) -> Result<(), Refusal>
        ensures answer { numbered result ≡ time_answer self.old.watches.state time }
        ensures after { self.new.watches.state ≡ moved self.old.watches.state time }
        ensures terms { self.new.terms ≡ self.old.terms }
    {
        if !self.watches.is_timely(time) {
            return Err(Refusal::Time);
        }
        self.watches.move_to(time);
        Ok(())
    }
}
