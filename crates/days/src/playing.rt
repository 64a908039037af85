ghost use Rattle.std.specs.Prelude.{◌≡◌, true, false, MatchResult};
ghost use Rattle.day.specs.Answering.{seen};
ghost use Rattle.day.specs.Codes.{open_number};
ghost use Rattle.limits.specs.Around.{not_above};
ghost use Rattle.days.specs.Asking.{carried, all_carried};
ghost use Rattle.days.specs.Giving.{answer, played};
ghost use Rattle.days.specs.Reads.{ReadsSo};
ghost use Rattle.days.specs.Telling.{told};

use crate::call::Call;
use crate::giving::{Answer, give, give_all};
use day::{Day, OpenFault, View};
use limits::LimitRule;

/// How a day stands after its calls, at its clock, and what it answers to one more.
#[derive(Clone, Copy, Debug, PartialEq, Eq)]
pub struct Outcome {
    pub clock: u32,
    pub view: View,
    pub answer: Answer,
}

/// A day after some calls, before the further one.
#[derive(Clone, Copy)]
pub struct Played<R> {
    pub day: Day<R>,
    pub outcome: Outcome,
}

fn run<R: LimitRule>(mut day: Day<R>, calls: &[Call], next: &Call) -> Played<R>
    ensures state { result.day.watches.state ≡ played (R.LimitRule.means day.terms.rule) day.terms.price day.watches.state calls.now }
    ensures answer { told result.outcome.answer ≡ answer (R.LimitRule.means day.terms.rule) day.terms.price result.day.watches.state (carried next.now) }
    ensures clock { result.outcome.clock ≡ result.day.watches.state.clock }
    ensures view { result.outcome.view ≡ seen (R.LimitRule.means day.terms.rule) day.terms.price result.day.watches.state }
    ensures terms { result.day.terms ≡ day.terms }
{
    give_all(&mut day, calls);
    let mut further = day;
    let answer = give(&mut further, next);
    let outcome = Outcome {
        clock: day.clock(),
        view: day.view(),
        answer,
    };
    Played { day, outcome }
}

/// Opens a day, gives it the calls in order, and answers how it stands then and what it answers to one call more. Both
/// are what the calls read: the marks accepted among them and nothing else.
pub fn play<R: LimitRule>(
    rule: R,
    price: u32,
    calls: &[Call],
    next: &Call,
) -> Result<Played<R>, OpenFault>
    ensures { MatchResult result (λ d. ((R.LimitRule.means rule).takes (not_above (R.LimitRule.means rule).unit price) ≡ true) × (d.day.terms.rule ≡ rule) × (d.day.terms.price ≡ not_above (R.LimitRule.means rule).unit price) × ReadsSo (R.LimitRule.means rule) (not_above (R.LimitRule.means rule).unit price) (all_carried calls.now) (carried next.now) d.day.watches.state d.outcome.clock d.outcome.view (told d.outcome.answer)) (λ e. ((R.LimitRule.means rule).takes (not_above (R.LimitRule.means rule).unit price) ≡ false) × (open_number e ≡ 10)) }
{
    let day = Day::open(rule, price)?;
    Ok(run(day, calls, next))
}
