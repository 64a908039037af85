ghost use Rattle.std.specs.Prelude.{◌≡◌, ◌^◌, ◌<◌, ◌≤◌, length};
ghost use Rattle.tape.specs.Format.{kind_number, kind_numbered, plain, meant, kind_of, time_of, symbol_of, size_of, within, good_symbol, good_fields, is_price};
ghost use Rattle.tape.specs.Reading.{plainly, fielded, decode, front};

use super::fault::Flaw;

const LAST_TIME: u32 = 86_399_999;

const MAX_PRICE: u32 = 20_000_000;

const MAX_VOLUME: u32 = 1_000_000;

const MAX_SYMBOL: usize = 12;

pub(super) const HEADER: usize = 15;

const MIN_BODY: usize = 14;

const MAX_BODY: usize = 25;

/// What a record tells of; its number stands on a tape.
#[derive(Clone, Copy, Debug, PartialEq, Eq)]
pub enum RecordKind {
    Trade = 1,
    Quote = 2,
}

/// One line of the market: times in milliseconds, prices in hundredths of a point.
#[derive(Clone, Copy, Debug, PartialEq, Eq)]
pub enum Record<'a> {
    Trade {
        time: u32,
        price: u32,
        volume: u32,
        symbol: &'a [u8],
    },
    Quote {
        time: u32,
        bid: u32,
        offer: u32,
        symbol: &'a [u8],
    },
}

// A record as a tape holds it: what its two numbers are depends on its kind.
#[derive(Clone, Copy)]
pub(super) struct Fields<'a> {
    pub(super) kind: RecordKind,
    pub(super) time: u32,
    pub(super) first: u32,
    pub(super) second: u32,
    pub(super) symbol: &'a [u8],
}

impl TryFrom<u8> for RecordKind {
    type Error = Flaw;

    fn try_from(number: u8) -> Result<RecordKind, Flaw>
        ensures { result ≡ kind_numbered number }
    {
        match number {
            1 => Ok(RecordKind::Trade),
            2 => Ok(RecordKind::Quote),
            _ => Err(Flaw::Kind),
        }
    }
}

impl<'a> Record<'a> {
    pub fn kind(&self) -> RecordKind
        ensures { kind_number result ≡ kind_of (plain self.now) }
    {
        match self {
            Record::Trade { .. } => RecordKind::Trade,
            Record::Quote { .. } => RecordKind::Quote,
        }
    }

    pub fn time(&self) -> u32
        ensures { result ≡ time_of (plain self.now) }
    {
        match self {
            Record::Trade { time, .. } | Record::Quote { time, .. } => *time,
        }
    }

    pub fn symbol(&self) -> &'a [u8]
        ensures { result.now ≡ symbol_of (plain self.now) }
    {
        match self {
            Record::Trade { symbol, .. } | Record::Quote { symbol, .. } => symbol,
        }
    }

    // Whether the symbol's length is within its limits.
    pub(super) fn symbol_holds(&self) -> bool
        ensures { result ≡ good_symbol (plain self.now) }
    {
        is_symbol(self.symbol())
    }

    // Whether time and numbers are within their limits.
    pub(super) fn fields_hold(&self) -> bool
        ensures { result ≡ good_fields (plain self.now) }
    {
        match *self {
            Record::Trade {
                time,
                price,
                volume,
                ..
            } => { time <= LAST_TIME && is_price(price) && (1..=MAX_VOLUME).contains(&volume) }
            Record::Quote {
                time,
                bid,
                offer,
                ..
            } => { time <= LAST_TIME && is_price(bid) && is_price(offer) && bid <= offer }
        }
    }

    // Kept: a From of these fields would bar the TryFrom that `judged` is.
    pub(super) fn fields(&self) -> Fields<'a>
        ensures { meant result ≡ plain self.now }
    {
        match *self {
            Record::Trade {
                time,
                price,
                volume,
                symbol,
            } => {
                Fields {
                    kind: self.kind(),
                    time,
                    first: price,
                    second: volume,
                    symbol,
                }
            }
            Record::Quote {
                time,
                bid,
                offer,
                symbol,
            } => {
                Fields {
                    kind: self.kind(),
                    time,
                    first: bid,
                    second: offer,
                    symbol,
                }
            }
        }
    }

    // How many bytes the record takes on a tape.
    pub(super) fn size(&self) -> usize
        requires { size_of (plain self.now) < 2 ^ 64 }
        ensures { result ≡ size_of (plain self.now) }
    {
        HEADER + self.symbol().len()
    }
}

impl<'a> Fields<'a> {
    fn record(&self) -> Record<'a>
        ensures { plain result ≡ meant self.now }
    {
        let Fields {
            kind,
            time,
            first,
            second,
            symbol,
        } = *self;
        match kind {
            RecordKind::Trade => Record::Trade {
                time,
                price: first,
                volume: second,
                symbol,
            },
            RecordKind::Quote => Record::Quote {
                time,
                bid: first,
                offer: second,
                symbol,
            },
        }
    }

    // The record, if its fields hold.
    fn judged(&self) -> Result<Record<'a>, Flaw>
        ensures { plainly result ≡ fielded (meant self.now) }
    {
        let record = self.record();
        if !record.fields_hold() {
            return Err(Flaw::Field);
        }
        Ok(record)
    }
}

/// Whether some bytes are as many as a symbol has.
pub fn is_symbol(bytes: &[u8]) -> bool
    ensures { result ≡ within 1 12 (length bytes.now) }
{
    (1..=MAX_SYMBOL).contains(&bytes.len())
}

fn is_price(price: u32) -> bool
    ensures { result ≡ is_price price }
{
    (1..=MAX_PRICE).contains(&price)
}

fn decode_body(body: &[u8]) -> Result<Record<'_>, Flaw>
    requires { 14 ≤ length body.now }
    ensures { plainly result ≡ decode body.now }
{
    let [
        kind,
        t0,
        t1,
        t2,
        t3,
        a0,
        a1,
        a2,
        a3,
        b0,
        b1,
        b2,
        b3,
        symbol @ ..,
    ] = body
    else {
        unreachable!()
    };
    let fields = Fields {
        kind: RecordKind::try_from(*kind)?,
        time: u32::from_be_bytes([*t0, *t1, *t2, *t3]),
        first: u32::from_be_bytes([*a0, *a1, *a2, *a3]),
        second: u32::from_be_bytes([*b0, *b1, *b2, *b3]),
        symbol,
    };
    fields.judged()
}

// The record that some bytes begin with.
pub(super) fn read_front(bytes: &[u8]) -> Result<Record<'_>, Flaw>
    ensures { plainly result ≡ front bytes.now }
{
    let [high, low, after @ ..] = bytes else {
        return Err(Flaw::Short);
    };
    let len = usize::from(u16::from_be_bytes([*high, *low]));
    if !(MIN_BODY..=MAX_BODY).contains(&len) {
        return Err(Flaw::Length);
    }
    let body = after.get(0..len).ok_or(Flaw::Short)?;
    decode_body(body)
}
