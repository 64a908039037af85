// The limit rule in use.
use super::line::{Line, NoAnswer};
use super::session::Session;
use super::shown::OrNone;
use limits::LimitRule;
use rules::{Daily, Monthly, Quarterly, RuleFault};
use std::io::Write;
use words::Price;

#[derive(Clone, Copy)]
pub enum Rule {
    Daily(Daily),
    Quarterly(Quarterly),
    Monthly(Monthly),
}

// The same for each case of an enum that has one for each rule; with `=>`, put into the like case of another.
// Kept: a rule's unit is a constant of its type, so no dyn stands for it, and no function may hand out a dyn day.
macro_rules! by_rule {
    ($kinds:ident, $value:expr, $held:ident => $done:expr) => {
        match $value {
            $kinds::Daily($held) => $done,
            $kinds::Quarterly($held) => $done,
            $kinds::Monthly($held) => $done,
        }
    };
    ($kinds:ident => $others:ident, $value:expr, $held:ident => $done:expr) => {
        match $value {
            $kinds::Daily($held) => $others::Daily($done),
            $kinds::Quarterly($held) => $others::Quarterly($done),
            $kinds::Monthly($held) => $others::Monthly($done),
        }
    };
}

pub(super) use by_rule;

impl Rule {
    fn unit(&self) -> u32 {
        by_rule!(Rule, self, rule => rule.rounding_unit())
    }

    fn levels(&self) -> u8 {
        by_rule!(Rule, self, rule => rule.levels())
    }

    fn offset(&self, level: u8, price: u32) -> Option<u32> {
        by_rule!(Rule, self, rule => rule.offset(level, price))
    }
}

impl Session {
    pub(super) fn rule_in_use(&self) -> Result<Rule, NoAnswer> {
        self.rule.ok_or(NoAnswer::Before("a rule"))
    }

    // A refusal leaves no rule.
    pub(super) fn use_rule<W: Write>(
        &mut self,
        line: &mut Line<'_, W>,
        rule: Result<Rule, RuleFault>,
    ) -> Result<(), NoAnswer> {
        self.rule = rule.ok();
        let rule = rule?;
        let unit = Price(rule.unit());
        let levels = rule.levels();
        Ok(line.tell(format_args!("rule unit {unit} levels {levels}"))?)
    }

    // A level past a byte is past every rule's last.
    pub(super) fn tell_offset<W: Write>(
        &self,
        line: &mut Line<'_, W>,
        level: u32,
        price: u32,
    ) -> Result<(), NoAnswer> {
        let level = u8::try_from(level).unwrap_or(u8::MAX);
        let offset = OrNone(self.rule_in_use()?.offset(level, price).map(Price));
        Ok(line.tell(format_args!("offset {offset}"))?)
    }
}
