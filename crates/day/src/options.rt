//! Orders in option series.
ghost use Rattle.std.specs.Prelude.{◌≡◌};
ghost use Rattle.day.specs.Answering.{series_in, underlying_in, against, series_answer, option_answer, option_after};
ghost use Rattle.day.specs.Codes.{numbered};

use crate::day::Day;
use crate::fault::Refusal;
use crate::order::OptionOrder;
use crate::orders::find_month;
use limits::LimitRule;
use listings::futures::FuturesMonth;
use listings::series::OptionSeries;
use roster::lookup::find_entry;

impl<R: LimitRule> Day<R> {
    // Whether the standing mark stands against an option.
    fn is_stopped(&self, last_day: bool) -> bool
        ensures { result ≡ against (R.LimitRule.means self.now.terms.rule).levels self.now.watches.state self.now.watches.state.standing last_day }
    {
        let state = self.watches.state();
        let levels = self.terms.levels();
        state
            .standing
            .is_some_and(|side| !(state.band(side).level == levels && last_day))
    }

    // What the day at its clock answers to an order in a series.
    fn admit_option(
        &self,
        order: OptionOrder,
        series: &[OptionSeries],
        months: &[FuturesMonth],
    ) -> Result<(), Refusal>
        ensures { numbered result ≡ series_answer (R.LimitRule.means self.now.terms.rule) self.now.terms.price self.now.watches.state (series_in order series.now) (underlying_in order.contract.code months.now) }
    {
        let listed = find_entry(series, &OptionSeries::from(order.contract)).ok_or(
            Refusal::NotListed,
        )?;
        find_month(months, order.contract.underlying()).ok_or(Refusal::UnderlyingNotListed)?;
        if self.is_halted() {
            return Err(Refusal::Halted);
        }
        if self.is_stopped(listed.last_day) {
            return Err(Refusal::OptionStopped);
        }
        Ok(())
    }

    /// Admits an order in an option series, shown the series and the futures months that are listed, or refuses it.
    pub fn order_option(
        &mut self,
        time: u32,
        order: OptionOrder,
        series: &[OptionSeries],
        months: &[FuturesMonth],
    ) -> Result<(), Refusal>
        ensures answer { numbered result ≡ option_answer (R.LimitRule.means self.old.terms.rule) self.old.terms.price self.old.watches.state time order series.now months.now }
        ensures after { self.new.watches.state ≡ option_after self.old.watches.state time order }
        ensures terms { self.new.terms ≡ self.old.terms }
    {
        if !order.is_formed() {
            return Err(Refusal::Malformed);
        }
        self.move_to(time)?;
        self.admit_option(order, series, months)
    }
}
