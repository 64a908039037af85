ghost use Rattle.std.specs.Prelude.{◌≡◌, ◌≤◌, true, length, IfOk};
ghost use Rattle.tape.specs.Codes.{refusing, tape_refusal};
ghost use Rattle.tape.specs.Format.{plain, good_fields};
ghost use Rattle.reference.specs.Priced.{kind_of, mean_of};
ghost use Rattle.reference.specs.Sums.{named, added, both, tallied, row_of, Roomy, MeanFits, MeansFit};

use super::priced::{Priced, Quote, Trade};
use tape::fault::TapeFault;
use tape::reader::Reader;
use tape::record::Record;

// The sum of weight times value, and the sum of the weights.
#[derive(Clone, Copy, Default)]
pub(super) struct Sums {
    total: u64,
    weights: u64,
}

// The sums of one row of records, for each kind of priced thing.
// Kept: that the means fit is no ghost field: specs/ builds sums of any row of records, and of one too long it is false.
#[derive(Clone, Copy, Default)]
pub(super) struct Tallies {
    pub(super) trades: Sums,
    pub(super) quotes: Sums,
}

impl Sums {
    // The sums with one more record.
    fn with<P: Priced + Drop>(self, item: &Record) -> Sums
        requires item_value { good_fields (plain item.now) ≡ true }
        requires roomy { Roomy self }
        ensures { result ≡ added (kind_of P.Priced.among P.Priced.weighs P.Priced.worth P.Priced.DIVISOR) self (plain item.now) }
    {
        let Some(thing) = P::of(item) else {
            return self;
        };
        let weight = u64::from(thing.weight());
        Sums {
            total: self.total + weight * thing.value(),
            weights: self.weights + weight,
        }
    }

    // The mean in hundredths of a point, rounded down; none where nothing weighs anything.
    pub(super) fn mean<P: Priced>(&self) -> Option<u32>
        requires { MeanFits P.Priced.DIVISOR self.now }
        ensures { result ≡ mean_of P.Priced.DIVISOR self.now.total self.now.weights }
    {
        let divisor = u64::from(P::DIVISOR) * self.weights;
        self.total.checked_div(divisor).map(|mean| mean as u32)
    }
}

impl Tallies {
    fn with(self, item: &Record) -> Tallies
        requires item_value { good_fields (plain item.now) ≡ true }
        requires roomy { Roomy self.trades × Roomy self.quotes }
        ensures { result ≡ both self (plain item.now) }
    {
        Tallies {
            trades: self.trades.with::<Trade>(item),
            quotes: self.quotes.with::<Quote>(item),
        }
    }
}

fn is_named(item: &Record, symbol: &[u8]) -> bool
    ensures { result ≡ named symbol.now (plain item.now) }
{
    item.symbol() == symbol
}

// The sums of a symbol's records in a part of a tape, which is read once.
pub(super) fn tally(part: &[u8], symbol: &[u8]) -> Result<Tallies, TapeFault>
    requires { length part.now ≤ 1048576 }
    ensures gives { refusing tape_refusal result ≡ tallied symbol.now (row_of part.now) }
    ensures fits { IfOk result MeansFit }
{
    let mut reader = Reader::part(part);
    let mut tallies = Tallies::default();
    while let Some(placed) = reader.next()? {
        if is_named(&placed.record, symbol) {
            tallies = tallies.with(&placed.record);
        }
    }
    Ok(tallies)
}
