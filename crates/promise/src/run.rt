ghost use Rattle.std.specs.Prelude.{◌≡◌};
ghost use Rattle.tape.specs.Codes.{code_of, place_of};
ghost use Rattle.promise.specs.declared.run.RunFault.TheVariants.{Reference};
ghost use Rattle.promise.specs.Parts.{given_by, part_told, part_due, fault_refusal, reference_in, Referred};

use crate::plan::DayPlan;
use day::OpenFault;
use days::{Outcome, play};
use limits::LimitRule;
use reference::fault::ReferenceFault;
use reference::finding::{Reference, Request, find_reference};

/// A day that opened: the reference price found, the price opened at, and what came of its calls.
#[derive(Clone, Copy, Debug, PartialEq, Eq)]
pub struct DayRun {
    pub reference: Reference,
    pub price: u32,
    pub outcome: Outcome,
}

/// Why a day did not open.
#[derive(Clone, Copy, Debug, PartialEq, Eq)]
pub enum RunFault {
    Reference(ReferenceFault),
    /// The rule does not take the reference price, rounded.
    Open {
        reference: Reference,
        fault: OpenFault,
    },
}

// Kept: a derived From has no contract, and contracts here name the variant.
impl From<ReferenceFault> for RunFault {
    ghost from_gives = { λ e r. r ≡ Reference e };

    fn from(fault: ReferenceFault) -> RunFault {
        RunFault::Reference(fault)
    }
}

impl RunFault {
    pub fn code(&self) -> u8
        ensures { result ≡ code_of (fault_refusal self.now) }
    {
        // Kept: each variant carries a fault, so no discriminant can be its number.
        match self {
            RunFault::Reference(fault) => fault.code(),
            RunFault::Open { fault, .. } => fault.code(),
        }
    }

    /// The place of the tape's fault.
    pub fn place(&self) -> Option<usize>
        ensures { result ≡ place_of (fault_refusal self.now) }
    {
        match self {
            RunFault::Reference(fault) => fault.place(),
            RunFault::Open { .. } => None,
        }
    }
}

// The reference price, the day opened at it, its calls, and the further call.
pub(crate) fn run_day<R: LimitRule>(
    rule: R,
    request: &Request,
    plan: &DayPlan,
) -> Result<DayRun, RunFault>
    ensures part { part_told result ≡ part_due (R.LimitRule.means rule) request.now (given_by plan.now) }
    ensures refers { Referred request.now plan.now.tape.now (reference_in (part_told result)) }
{
    let reference = find_reference(plan.tape, request)?;
    let played = play(rule, reference.price, plan.calls, &plan.next).map_err(
        |fault| RunFault::Open { reference, fault },
    )?;
    Ok(DayRun {
        reference,
        price: played.day.price(),
        outcome: played.outcome,
    })
}
