// Two days of a pair: kept, and run with one further call.
use super::calls::{Seat, Timed};
use super::kept_calls::KeptCalls;
use super::line::{Line, NoAnswer};
use super::refusals::Refused;
use super::rule_calls::{Rule, by_rule};
use super::session::Session;
use super::shown::{Found, Seen, Told};
use days::Call;
use promise::{DayPlan, DayRun, Pair, RunFault, pair_days};
use reference::finding::Request;
use std::alloc::{AllocError, Global};
use std::io;
use std::io::Write;
use words::Price;

// A tape and the calls of a day, which later calls do not change.
#[derive(Drop)]
pub struct KeptDay {
    tape: Vec<u8>,
    calls: KeptCalls,
}

// The two days of a pair as far as they are kept.
pub type KeptPair = Pair<Option<KeptDay>>;

pub fn none_kept() -> KeptPair {
    Pair {
        first: None,
        second: None,
    }
}

// In a function of its own, so that all of it can be lent for as long as the shortest part.
fn plan_of<'a>(tape: &'a [u8], calls: &'a [Call<'a>], next: Call<'a>) -> DayPlan<'a> {
    DayPlan { tape, calls, next }
}

// What came of two kept days, given one further call.
fn run_days<'a>(
    heap: Global,
    rule: Rule,
    request: &Request<'_>,
    first: &'a KeptDay,
    second: &'a KeptDay,
    next: Call<'a>,
) -> Result<Pair<Result<DayRun, RunFault>>, AllocError> {
    let first_calls = first.calls.all(heap)?;
    let second_calls = second.calls.all(heap)?;
    let first = plan_of(first.tape.as_slice(), first_calls.as_slice(), next);
    let second = plan_of(second.tape.as_slice(), second_calls.as_slice(), next);
    Ok(by_rule!(Rule, rule, rule => pair_days(rule, request, &first, &second)))
}

fn tell_run<W: Write>(
    line: &mut Line<'_, W>,
    seat: Seat,
    run: DayRun,
    word: &'static str,
) -> io::Result<()> {
    let found = Found(run.reference);
    line.tell(format_args!("{seat} {found}"))?;
    let price = Price(run.price);
    line.tell(format_args!("{seat} opened at {price}"))?;
    let clock = run.outcome.clock;
    let seen = Seen(run.outcome.view);
    line.tell(format_args!("{seat} clock {clock} {seen}"))?;
    let told = Told {
        answer: run.outcome.answer,
        word,
    };
    line.tell(format_args!("{seat} answer {told}"))
}

fn tell_fault<W: Write>(line: &mut Line<'_, W>, seat: Seat, fault: RunFault) -> io::Result<()> {
    if let RunFault::Open { reference, .. } = fault {
        let found = Found(reference);
        line.tell(format_args!("{seat} {found}"))?;
    }
    let refusal = fault.refusal();
    line.tell(format_args!("{seat} {refusal}"))
}

fn tell_day<W: Write>(
    line: &mut Line<'_, W>,
    seat: Seat,
    run: Result<DayRun, RunFault>,
    word: &'static str,
) -> io::Result<()> {
    match run {
        Ok(run) => tell_run(line, seat, run, word),
        Err(fault) => tell_fault(line, seat, fault),
    }
}

fn tell_pair<W: Write>(
    line: &mut Line<'_, W>,
    pair: Pair<Result<DayRun, RunFault>>,
    word: &'static str,
) -> io::Result<()> {
    tell_day(line, Seat::First, pair.first, word)?;
    tell_day(line, Seat::Second, pair.second, word)?;
    let (Ok(first), Ok(second)) = (pair.first, pair.second) else {
        return Ok(());
    };
    if first.outcome.answer == second.outcome.answer {
        line.tell("answers same")
    } else {
        line.tell("answers differ")
    }
}

impl Session {
    // Keeps the tape and the calls since the opening. They stay until kept anew.
    pub(super) fn keep<W: Write>(
        &mut self,
        line: &mut Line<'_, W>,
        seat: Seat,
    ) -> Result<(), NoAnswer> {
        let tape = self.current_tape()?;
        self.opened_day()?;
        let tape = tape.to_vec(self.heap)?;
        let opened = self.opened.as_mut().ok_or(NoAnswer::Before("a day"))?;
        let calls = opened.calls.copy(self.heap)?;
        let len = calls.len();
        let day = Some(KeptDay { tape, calls });
        match seat {
            Seat::First => self.kept.first = day,
            Seat::Second => self.kept.second = day,
        }
        Ok(line.tell(format_args!("kept {seat} {len} calls"))?)
    }

    // Runs both kept days under the rule in use. The session's own day stays where it is.
    pub(super) fn pair<W: Write>(
        &self,
        line: &mut Line<'_, W>,
        request: Request<'_>,
        further: Timed,
    ) -> Result<(), NoAnswer> {
        let rule = self.rule_in_use()?;
        let Pair { first, second } = &self.kept;
        let (first, second) = first
            .as_ref()
            .zip(second.as_ref())
            .ok_or(NoAnswer::Before("two kept days"))?;
        let next = further.call(self.rosters.listings());
        let pair = run_days(self.heap, rule, &request, first, second, next)?;
        Ok(tell_pair(line, pair, further.asked.accepted())?)
    }
}
