// How the words of a line are read as a call.
use super::calls::{Asked, Call, Change, Listed, Seat, Timed, Topic, Verb, named};
use super::line::NoAnswer;
use super::roster_calls::NO_CODE;
use super::rule_calls::Rule;
use day::{FutureOrder, Mark, OptionOrder};
use listings::code::MonthCode;
use listings::futures::FuturesMonth;
use listings::series::{OptionContract, OptionSeries, Right};
use reference::finding::Request;
use rules::{Daily, Monthly, Quarterly, RuleFault};
use std::alloc::{AllocError, AllocFailed, Global};
use std::str::SplitWhitespace;
use tape::record::Record;
use watches::Kind;
use words::{Price, read_bytes, read_number, read_symbol};

// Why the words of a line make no call.
#[derive(Drop)]
pub enum NotCall {
    // They have not the form of their verb.
    Form,
    Memory(AllocError),
}

impl NotCall {
    pub fn expecting(self, form: &'static str) -> NoAnswer {
        match self {
            NotCall::Form => NoAnswer::Expected(form),
            NotCall::Memory(error) => NoAnswer::from(error),
        }
    }
}

impl From<AllocError> for NotCall {
    fn from(error: AllocError) -> NotCall {
        NotCall::Memory(error)
    }
}

impl<T: Drop> From<AllocFailed<T>> for NotCall {
    fn from(error: AllocFailed<T>) -> NotCall {
        NotCall::Memory(error.into())
    }
}

fn price_of(word: &str) -> Result<u32, NotCall> {
    let price = word.parse::<Price>().map_err(|_| NotCall::Form)?;
    Ok(price.0)
}

// The words that a line has left.
#[derive(Drop)]
pub struct Words<'a> {
    pub heap: Global,
    pub rest: SplitWhitespace<'a>,
}

impl<'a> Words<'a> {
    fn word(&mut self) -> Result<&'a str, NotCall> {
        self.rest.next().ok_or(NotCall::Form)
    }

    fn end(&mut self) -> Result<(), NotCall> {
        self.rest.next().map_or(Ok(()), |_| Err(NotCall::Form))
    }

    fn number(&mut self) -> Result<u32, NotCall> {
        read_number(self.word()?).ok_or(NotCall::Form)
    }

    fn price(&mut self) -> Result<u32, NotCall> {
        price_of(self.word()?)
    }

    // As many prices as are left.
    fn prices(&mut self) -> Result<Vec<u32>, NotCall> {
        self.rest.by_ref().map(price_of).try_collect(self.heap)
    }

    fn bytes(&mut self) -> Result<Vec<u8>, NotCall> {
        read_bytes(self.heap, self.word()?)?.ok_or(NotCall::Form)
    }

    // Kept: records and requests borrow their symbol, so its bytes stand in the caller's vector.
    fn symbol<'b>(&mut self, symbol: &'b mut Vec<u8>) -> Result<&'b [u8], NotCall> {
        *symbol = read_symbol(self.heap, self.word()?)?.ok_or(NotCall::Form)?;
        Ok(symbol.as_slice())
    }

    fn record<'b>(&mut self, symbol: &'b mut Vec<u8>) -> Result<Record<'b>, NotCall> {
        match self.word()? {
            "trade" => Ok(Record::Trade {
                time: self.number()?,
                price: self.price()?,
                volume: self.number()?,
                symbol: self.symbol(symbol)?,
            }),
            "quote" => Ok(Record::Quote {
                time: self.number()?,
                bid: self.price()?,
                offer: self.price()?,
                symbol: self.symbol(symbol)?,
            }),
            _ => Err(NotCall::Form),
        }
    }

    fn request<'b>(&mut self, symbol: &'b mut Vec<u8>) -> Result<Request<'b>, NotCall> {
        Ok(Request {
            symbol: self.symbol(symbol)?,
            close: self.number()?,
            windows: self.number()?,
        })
    }

    fn rule(&mut self) -> Result<Result<Rule, RuleFault>, NotCall> {
        match self.word()? {
            "daily" => Ok(Ok(Rule::Daily(Daily))),
            "quarterly" => Ok(Quarterly::from_closes(self.prices()?.as_slice()).map(
                Rule::Quarterly,
            )),
            "monthly" => Ok(Monthly::from_settlement(self.price()?).map(Rule::Monthly)),
            _ => Err(NotCall::Form),
        }
    }

    // Kept: a word that is no code is the library's to refuse, in its own order, so it is given a malformed one.
    fn code(&mut self) -> Result<MonthCode, NotCall> {
        Ok(MonthCode::try_from(self.word()?.as_bytes()).unwrap_or(NO_CODE))
    }

    fn right(&mut self) -> Result<Right, NotCall> {
        match self.word()? {
            "call" => Ok(Right::Call),
            "put" => Ok(Right::Put),
            _ => Err(NotCall::Form),
        }
    }

    fn contract(&mut self) -> Result<OptionContract, NotCall> {
        Ok(OptionContract {
            code: self.code()?,
            strike: self.number()?,
            right: self.right()?,
        })
    }

    // The flag of the last day, which only an entry may have.
    fn last_day(&mut self, change: Change) -> Result<bool, NotCall> {
        match change {
            Change::Enter => match self.rest.next() {
                None => Ok(false),
                Some("last") => Ok(true),
                Some(_) => Err(NotCall::Form),
            },
            Change::Remove => Ok(false),
        }
    }

    fn month(&mut self, change: Change) -> Result<Call<'a>, NotCall> {
        let month = FuturesMonth {
            code: self.code()?,
            last_day: self.last_day(change)?,
        };
        Ok(Call::List(change, Listed::Month(month)))
    }

    fn series(&mut self, change: Change) -> Result<Call<'a>, NotCall> {
        let series = OptionSeries {
            contract: self.contract()?,
            last_day: self.last_day(change)?,
        };
        Ok(Call::List(change, Listed::Series(series)))
    }

    fn opening(&mut self) -> Result<Option<u32>, NotCall> {
        match self.word()? {
            "reference" => Ok(None),
            word => Ok(Some(price_of(word)?)),
        }
    }

    fn kind(&mut self) -> Result<Kind, NotCall> {
        match self.word()? {
            "bid" => Ok(Kind::Bid),
            "offered" => Ok(Kind::Offered),
            "clear" => Ok(Kind::Clear),
            _ => Err(NotCall::Form),
        }
    }

    fn timed(&mut self, topic: Topic) -> Result<Timed, NotCall> {
        let time = self.number()?;
        let asked = match topic {
            Topic::Mark => Asked::Mark(Mark {
                kind: self.kind()?,
                price: self.price()?,
            }),
            Topic::Tick => Asked::Tick,
            Topic::Look => Asked::Look,
            Topic::Future => Asked::Future(FutureOrder {
                code: self.code()?,
                price: self.price()?,
            }),
            Topic::Option => Asked::Option(OptionOrder {
                contract: self.contract()?,
                price: self.price()?,
            }),
        };
        Ok(Timed { time, asked })
    }

    // The further call of a pair, with its verb in front.
    fn further(&mut self) -> Result<Timed, NotCall> {
        match named(self.word()?) {
            Some((Verb::Ask(topic), _)) => self.timed(topic),
            _ => Err(NotCall::Form),
        }
    }

    fn seat(&mut self) -> Result<Seat, NotCall> {
        match self.word()? {
            "first" => Ok(Seat::First),
            "second" => Ok(Seat::Second),
            _ => Err(NotCall::Form),
        }
    }
}

// The call that the words behind its verb make. Its symbol, if it has one, is put into the vector.
pub fn read_call<'a>(
    mut words: Words<'a>,
    verb: Verb,
    symbol: &'a mut Vec<u8>,
) -> Result<Call<'a>, NotCall> {
    let call = match verb {
        Verb::Tape => Call::Tape(words.bytes()?),
        Verb::TapeFile => Call::TapeFile(words.word()?),
        Verb::Records => Call::Records,
        Verb::Start => Call::Start(words.number()?),
        Verb::Write => Call::Write(words.record(symbol)?),
        Verb::Written => Call::Written,
        Verb::Window => Call::Window {
            close: words.number()?,
            windows: words.number()?,
        },
        Verb::Reference => Call::Reference(words.request(symbol)?),
        Verb::Rule => Call::Rule(words.rule()?),
        Verb::Offset => Call::Offset {
            level: words.number()?,
            price: words.price()?,
        },
        Verb::Places => Call::Places {
            months: words.number()?,
            series: words.number()?,
        },
        Verb::Month(change) => words.month(change)?,
        Verb::Series(change) => words.series(change)?,
        Verb::Open => Call::Open(words.opening()?),
        Verb::Ask(topic) => Call::Ask(words.timed(topic)?),
        Verb::Replay => Call::Replay(words.number()?),
        Verb::Keep => Call::Keep(words.seat()?),
        Verb::Pair => Call::Pair(words.request(symbol)?, words.further()?),
    };
    words.end()?;
    Ok(call)
}
