ghost use Rattle.std.specs.Prelude.{◌≡◌};
ghost use Rattle.days.specs.Asking.{carried};
ghost use Rattle.days.specs.Giving.{step, answer, played};
ghost use Rattle.days.specs.Telling.{told};

use crate::call::{Action, Call};
use day::{Day, Refusal, View};
use limits::LimitRule;

/// What a day answers to a call: a view to a look, none to any other call that it accepts, or the refusal.
pub type Answer = Result<Option<View>, Refusal>;

/// Gives a day one call.
pub fn give<R: LimitRule>(day: &mut Day<R>, call: &Call) -> Answer
    ensures answer { told result ≡ answer (R.LimitRule.means day.old.terms.rule) day.old.terms.price day.old.watches.state (carried call.now) }
    ensures after { day.new.watches.state ≡ step (R.LimitRule.means day.old.terms.rule) day.old.terms.price day.old.watches.state (carried call.now) }
    ensures terms { day.new.terms ≡ day.old.terms }
{
    let time = call.time;
    match call.action {
        Action::Mark(mark) => day.mark(time, mark).map(|()| None),
        Action::Tick => day.tick(time).map(|()| None),
        Action::Look => day.look(time).map(Some),
        Action::Future { order, months } => day.order_future(time, order, months).map(|()| None),
        Action::Option {
            order,
            series,
            months,
        } => day.order_option(time, order, series, months).map(|()| None),
    }
}

// Gives a day calls in order, whatever it answers.
pub(crate) fn give_all<R: LimitRule>(day: &mut Day<R>, calls: &[Call])
    ensures after { day.new.watches.state ≡ played (R.LimitRule.means day.old.terms.rule) day.old.terms.price day.old.watches.state calls.now }
    ensures terms { day.new.terms ≡ day.old.terms }
{
    for call in calls {
        let _ = give(day, call);
    }
}
