// The day: opening, marks, ticks, looks and orders.
use super::calls::{Asked, Timed};
use super::kept_calls::KeptCalls;
use super::line::{Line, NoAnswer};
use super::rule_calls::{Rule, by_rule};
use super::session::Session;
use super::shown::Told;
use day::{Day, OpenFault};
use days::{Answer, Call, give, play};
use rules::{Daily, Monthly, Quarterly};
use std::io::Write;
use words::Price;

#[derive(Clone, Copy)]
enum AnyDay {
    Daily(Day<Daily>),
    Quarterly(Day<Quarterly>),
    Monthly(Day<Monthly>),
}

impl AnyDay {
    fn open(rule: Rule, price: u32) -> Result<AnyDay, OpenFault> {
        Ok(by_rule!(Rule => AnyDay, rule, rule => Day::open(rule, price)?))
    }

    fn price(&self) -> u32 {
        by_rule!(AnyDay, self, day => day.price())
    }

    fn give(&mut self, call: &Call<'_>) -> Answer {
        by_rule!(AnyDay, self, day => give(day, call))
    }
}

// A day, what it was opened with, and the calls since.
#[derive(Drop)]
pub struct Opened {
    day: AnyDay,
    rule: Rule,
    price: u32,
    pub(super) calls: KeptCalls,
}

impl Opened {
    // The answer to one call after these, in a day opened anew.
    fn play(&self, calls: &[Call<'_>], next: &Call<'_>) -> Result<Answer, OpenFault> {
        by_rule!(Rule, self.rule, rule => Ok(play(rule, self.price, calls, next)?.outcome.answer))
    }
}

impl Session {
    pub(super) fn opened_day(&self) -> Result<&Opened, NoAnswer> {
        self.opened.as_ref().ok_or(NoAnswer::Before("a day"))
    }

    // A refusal leaves no day.
    pub(super) fn open_day<W: Write>(
        &mut self,
        line: &mut Line<'_, W>,
        stated: Option<u32>,
    ) -> Result<(), NoAnswer> {
        let rule = self.rule_in_use()?;
        let found = self.reference.map(|found| found.price);
        let price = stated.or(found).ok_or(NoAnswer::Before("a reference"))?;
        self.opened = None;
        let day = AnyDay::open(rule, price)?;
        let opened_at = Price(day.price());
        self.opened = Some(Opened {
            day,
            rule,
            price,
            calls: KeptCalls::new(self.heap),
        });
        Ok(line.tell(format_args!("opened at {opened_at}"))?)
    }

    pub(super) fn ask<W: Write>(
        &mut self,
        line: &mut Line<'_, W>,
        timed: Timed,
    ) -> Result<(), NoAnswer> {
        let opened = self.opened.as_mut().ok_or(NoAnswer::Before("a day"))?;
        let answer = opened.day.give(&timed.call(self.rosters.listings()));
        let shown = timed
            .is_order()
            .then(|| self.rosters.snapshot(self.heap))
            .transpose()?;
        opened.calls.push(timed, shown)?;
        let word = timed.asked.accepted();
        Ok(line.tell(Told { answer, word })?)
    }

    // The calls since the opening are played anew; the day itself stays where it is.
    pub(super) fn replay<W: Write>(
        &self,
        line: &mut Line<'_, W>,
        time: u32,
    ) -> Result<(), NoAnswer> {
        let opened = self.opened_day()?;
        let asked = Asked::Look;
        let look = Timed { time, asked };
        let calls = opened.calls.all(self.heap)?;
        let answer = opened.play(calls.as_slice(), &look.call(self.rosters.listings()))?;
        let word = asked.accepted();
        Ok(line.tell(Told { answer, word })?)
    }
}
