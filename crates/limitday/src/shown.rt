// How records, references, views and answers of a day are shown.
use super::calls::Asked;
use super::refusals::Refused;
use day::View;
use days::Answer;
use reference::finding::Reference;
use std::fmt;
use tape::reader::Placed;
use tape::record::Record;
use watches::Side;
use words::{Price, Symbol};

#[derive(Clone, Copy)]
pub struct ShownRecord<'a>(pub Placed<'a>);

#[derive(Clone, Copy)]
pub struct Found(pub Reference);

#[derive(Clone, Copy)]
pub struct Seen(pub View);

#[derive(Clone, Copy)]
pub struct OrNone<T>(pub Option<T>);

// An answer, and the word for a call that was accepted.
#[derive(Clone, Copy)]
pub struct Told {
    pub answer: Answer,
    pub word: &'static str,
}

impl Asked {
    // The word for its being accepted.
    pub fn accepted(&self) -> &'static str {
        match self {
            Asked::Mark(_) => "accepted",
            Asked::Tick => "ticked",
            Asked::Look => "seen",
            Asked::Future(_) | Asked::Option(_) => "admitted",
        }
    }
}

impl fmt::Display for ShownRecord<'_> {
    fn fmt<W: fmt::Write>(&self, f: &mut fmt::Formatter<W>) -> fmt::Result {
        let place = self.0.place;
        match self.0.record {
            Record::Trade {
                time,
                price,
                volume,
                symbol,
            } => {
                let price = Price(price);
                let symbol = Symbol(symbol);
                write!(
                    f,
                    "record at {place} trade {time} {price} {volume} {symbol}"
                )
            }
            Record::Quote {
                time,
                bid,
                offer,
                symbol,
            } => {
                let bid = Price(bid);
                let offer = Price(offer);
                let symbol = Symbol(symbol);
                write!(f, "record at {place} quote {time} {bid} {offer} {symbol}")
            }
        }
    }
}

impl fmt::Display for Found {
    fn fmt<W: fmt::Write>(&self, f: &mut fmt::Formatter<W>) -> fmt::Result {
        let price = Price(self.0.price);
        let tier = self.0.tier.number();
        let windows = self.0.windows;
        write!(f, "reference {price} tier {tier} windows {windows}")
    }
}

impl<T: fmt::Display> fmt::Display for OrNone<T> {
    fn fmt<W: fmt::Write>(&self, f: &mut fmt::Formatter<W>) -> fmt::Result {
        match &self.0 {
            Some(shown) => shown.fmt(f),
            None => f.write_str("none"),
        }
    }
}

// The word for the mark that stands at a side.
fn standing_word(side: Side) -> &'static str {
    match side {
        Side::Upper => "bid",
        Side::Lower => "offered",
    }
}

fn write_bounds<W: fmt::Write>(f: &mut fmt::Formatter<W>, view: View) -> fmt::Result {
    let bounds = view.bounds;
    let lower = Price(bounds.lower);
    let upper = Price(bounds.upper);
    let lower_edge = Price(bounds.lower_edge);
    let upper_edge = Price(bounds.upper_edge);
    write!(f, "limits {lower} {upper} edges {lower_edge} {upper_edge}")
}

impl fmt::Display for Seen {
    fn fmt<W: fmt::Write>(&self, f: &mut fmt::Formatter<W>) -> fmt::Result {
        let view = self.0;
        write_bounds(f, view)?;
        let low = view.lower_level;
        let high = view.upper_level;
        let mark = OrNone(view.standing.map(standing_word));
        let lower_watch = OrNone(view.lower_watch);
        let upper_watch = OrNone(view.upper_watch);
        let halt = OrNone(view.halt);
        write!(
            f,
            " levels {low} {high} mark {mark} watches {lower_watch} {upper_watch} halt {halt}"
        )
    }
}

impl fmt::Display for Told {
    fn fmt<W: fmt::Write>(&self, f: &mut fmt::Formatter<W>) -> fmt::Result {
        match self.answer {
            Ok(None) => f.write_str(self.word),
            Ok(Some(view)) => {
                let seen = Seen(view);
                write!(f, "look {seen}")
            }
            Err(fault) => {
                let refusal = fault.refusal();
                write!(f, "{refusal}")
            }
        }
    }
}
