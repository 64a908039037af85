ghost use Rattle.promise.specs.Parts.{given_by, part_told};
ghost use Rattle.promise.specs.Promise.{Promise};

use crate::plan::DayPlan;
use crate::run::{DayRun, RunFault, run_day};
use limits::LimitRule;
use reference::finding::Request;
use tape_laws::both::Pair;

/// Runs two days of one rule and one reference request, each on its own tape and with its own calls.
pub fn pair_days<R: LimitRule>(
    rule: R,
    request: &Request,
    first: &DayPlan,
    second: &DayPlan,
) -> Pair<Result<DayRun, RunFault>>
    ensures { Promise (R.LimitRule.means rule) request.now (given_by first.now) (given_by second.now) (part_told result.first) (part_told result.second) }
{
    Pair {
        first: run_day(rule, request, first),
        second: run_day(rule, request, second),
    }
}
