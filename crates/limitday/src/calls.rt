// The calls of a script.
use super::rule_calls::Rule;
use day::{FutureOrder, Mark, OptionOrder};
use listings::futures::FuturesMonth;
use listings::series::OptionSeries;
use reference::finding::Request;
use rules::RuleFault;
use std::fmt;
use tape::record::Record;

pub const CALLS: &str =
    "limitday [SCRIPT]   plays the calls of a script, or of standard input, one to a line

  tape HEX                                 make these bytes the current tape
  tape-file PATH                           make a file's bytes the current tape
  records                                  the current tape's records
  start CAPACITY                           start a tape in a buffer of so many bytes
  write trade TIME PRICE VOLUME SYMBOL     append a trade to the started tape
  write quote TIME BID OFFER SYMBOL        append a quote to it
  written                                  its bytes, which become the current tape
  window CLOSE W                           the part of the current tape that holds window W
  reference SYMBOL CLOSE K                 the reference price from at most K windows
  rule daily                               the limit rule of the present text
  rule quarterly C1 .. C20                 that of twenty closes
  rule monthly SETTLEMENT                  that of a lead-month settlement
  offset LEVEL PRICE                       how far the rule's limits lie from a price
  places M S                               empty rosters with so many places for months and series
  month CODE [last]                        list a futures month; last: today is its last day
  drop-month CODE                          take it off
  series CODE STRIKE call|put [last]       list an option series
  drop-series CODE STRIKE call|put         take it off
  open PRICE                               open a day of the rule at a stated price
  open reference                           open it at the reference price
  mark T bid|offered|clear PRICE           the primary month is limit bid, limit offered or neither
  tick T                                   move the day to a time
  look T                                   limits, edges, levels, mark, watches and halt
  replay T                                 the same, of a day given all calls since open once more
  future T CODE PRICE                      an order in a futures month
  option T CODE STRIKE call|put PRICE      an order in an option series
  keep first|second                        keep tape and calls since open as a day of a pair
  pair SYMBOL CLOSE K CALL                 both kept days under the rule, and their answers to a
                                           mark, tick, look, future or option call

Prices are in points with at most two decimals, times in milliseconds. A blank line and one
that begins with # are skipped.";

#[derive(Clone, Copy)]
pub enum Verb {
    Tape,
    TapeFile,
    Records,
    Start,
    Write,
    Written,
    Window,
    Reference,
    Rule,
    Offset,
    Places,
    Month(Change),
    Series(Change),
    Open,
    Ask(Topic),
    Replay,
    Keep,
    Pair,
}

// A change of the listings.
#[derive(Clone, Copy)]
pub enum Change {
    Enter,
    Remove,
}

// What a day is asked about.
#[derive(Clone, Copy)]
pub enum Topic {
    Mark,
    Tick,
    Look,
    Future,
    Option,
}

// Each call's name, its verb, and the form of its line.
const FORMS: &[(&str, Verb, &str)] = &[
    ("tape", Verb::Tape, "tape HEX"),
    ("tape-file", Verb::TapeFile, "tape-file PATH"),
    ("records", Verb::Records, "records"),
    ("start", Verb::Start, "start CAPACITY"),
    (
        "write",
        Verb::Write,
        "write trade TIME PRICE VOLUME SYMBOL or write quote TIME BID OFFER SYMBOL",
    ),
    ("written", Verb::Written, "written"),
    ("window", Verb::Window, "window CLOSE W"),
    ("reference", Verb::Reference, "reference SYMBOL CLOSE K"),
    (
        "rule",
        Verb::Rule,
        "rule daily, rule quarterly C1 .. C20 or rule monthly SETTLEMENT",
    ),
    ("offset", Verb::Offset, "offset LEVEL PRICE"),
    ("places", Verb::Places, "places M S"),
    ("month", Verb::Month(Change::Enter), "month CODE [last]"),
    ("drop-month", Verb::Month(Change::Remove), "drop-month CODE"),
    (
        "series",
        Verb::Series(Change::Enter),
        "series CODE STRIKE call|put [last]",
    ),
    (
        "drop-series",
        Verb::Series(Change::Remove),
        "drop-series CODE STRIKE call|put",
    ),
    ("open", Verb::Open, "open PRICE or open reference"),
    (
        "mark",
        Verb::Ask(Topic::Mark),
        "mark T bid|offered|clear PRICE",
    ),
    ("tick", Verb::Ask(Topic::Tick), "tick T"),
    ("look", Verb::Ask(Topic::Look), "look T"),
    ("replay", Verb::Replay, "replay T"),
    ("future", Verb::Ask(Topic::Future), "future T CODE PRICE"),
    (
        "option",
        Verb::Ask(Topic::Option),
        "option T CODE STRIKE call|put PRICE",
    ),
    ("keep", Verb::Keep, "keep first|second"),
    ("pair", Verb::Pair, "pair SYMBOL CLOSE K CALL"),
];

// The call of that name, and the form of its line.
pub fn named(word: &str) -> Option<(Verb, &'static str)> {
    FORMS
        .iter()
        .find(|(name, _, _)| *name == word)
        .map(|(_, verb, form)| (*verb, *form))
}

impl fmt::Display for Change {
    fn fmt<W: fmt::Write>(&self, f: &mut fmt::Formatter<W>) -> fmt::Result {
        match self {
            Change::Enter => f.write_str("listed"),
            Change::Remove => f.write_str("delisted"),
        }
    }
}

#[derive(Clone, Copy)]
pub enum Listed {
    Month(FuturesMonth),
    Series(OptionSeries),
}

// What a day is asked. An order comes without the listings that it is shown.
// Kept: days' Action and Call borrow the listings, which may change while a call is kept.
#[derive(Clone, Copy)]
pub enum Asked {
    Mark(Mark),
    Tick,
    Look,
    Future(FutureOrder),
    Option(OptionOrder),
}

#[derive(Clone, Copy)]
pub struct Timed {
    pub time: u32,
    pub asked: Asked,
}

// Which day of a pair.
#[derive(Clone, Copy)]
pub enum Seat {
    First,
    Second,
}

impl fmt::Display for Seat {
    fn fmt<W: fmt::Write>(&self, f: &mut fmt::Formatter<W>) -> fmt::Result {
        match self {
            Seat::First => f.write_str("first"),
            Seat::Second => f.write_str("second"),
        }
    }
}

#[derive(Drop)]
pub enum Call<'a> {
    Tape(Vec<u8>),
    TapeFile(&'a str),
    Records,
    Start(u32),
    Write(Record<'a>),
    Written,
    Window { close: u32, windows: u32 },
    Reference(Request<'a>),
    Rule(Result<Rule, RuleFault>),
    Offset { level: u32, price: u32 },
    Places { months: u32, series: u32 },
    List(Change, Listed),
    // At a stated price, or else at the reference.
    Open(Option<u32>),
    Ask(Timed),
    Replay(u32),
    Keep(Seat),
    Pair(Request<'a>, Timed),
}
