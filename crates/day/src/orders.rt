//! Orders in futures months.
ghost use Rattle.std.specs.Prelude.{◌≡◌};
ghost use Rattle.day.specs.Answering.{month_in, month_answer, future_answer, future_after};
ghost use Rattle.day.specs.Codes.{numbered};

use crate::day::Day;
use crate::fault::Refusal;
use crate::order::FutureOrder;
use limits::LimitRule;
use listings::code::MonthCode;
use listings::futures::FuturesMonth;
use roster::lookup::find_entry;

// The listed month of a code.
pub(crate) fn find_month(months: &[FuturesMonth], code: MonthCode) -> Option<FuturesMonth>
    ensures { result ≡ month_in code months.now }
{
    find_entry(months, &FuturesMonth::from(code))
}

impl<R: LimitRule> Day<R> {
    // What the day at its clock answers to an order in a month.
    fn admit_future(&self, order: FutureOrder, months: &[FuturesMonth]) -> Result<(), Refusal>
        ensures { numbered result ≡ month_answer (R.LimitRule.means self.now.terms.rule) self.now.terms.price self.now.watches.state (month_in order.code months.now) order.price }
    {
        let month = find_month(months, order.code).ok_or(Refusal::NotListed)?;
        if self.is_halted() {
            return Err(Refusal::Halted);
        }
        if !month.last_day && !self.bounds().inside(order.price) {
            return Err(Refusal::OutsideLimits);
        }
        Ok(())
    }

    /// Admits an order in a futures month, shown the months that are listed, or refuses it.
    pub fn order_future(
        &mut self,
        time: u32,
        order: FutureOrder,
        months: &[FuturesMonth],
    ) -> Result<(), Refusal>
        ensures answer { numbered result ≡ future_answer (R.LimitRule.means self.old.terms.rule) self.old.terms.price self.old.watches.state time order.code order.price months.now }
        ensures after { self.new.watches.state ≡ future_after self.old.watches.state time order.code order.price }
        ensures terms { self.new.terms ≡ self.old.terms }
    {
        if !order.is_formed() {
            return Err(Refusal::Malformed);
        }
        self.move_to(time)?;
        self.admit_future(order, months)
    }
}
