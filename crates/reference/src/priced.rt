ghost use Rattle.std.specs.Prelude.{◌≡◌, ℕ, ◌+◌, ◌<◌, ◌≤◌, true, IfSome, Option};
ghost use Rattle.tape.specs.Format.{Plain, plain, good_fields};
ghost use Rattle.reference.specs.Priced.{Fair, narrow, as_trade, as_quote};
ghost use Rattle.std.proofs.Common.{rules};

use tape::record::Record;

// The widest quote that counts, in hundredths of a point.
const WIDTH: u32 = 3_000;

// A kind of priced thing: what a thing weighs, its value, and by how much the kind's values are divided.
pub(super) trait Priced: Sized {
    const DIVISOR: u32;

    ghost DIVISOR: { ℕ };

    ghost weighs: { Self → ℕ };

    ghost worth: { Self → ℕ };

    ghost among: { Plain → Option Self };

    // What a record tells of, if it is of this kind.
    // Kept: TryFrom would need an error that its one caller throws away.
    fn of(item: &Record) -> Option<Self>
        ensures { result ≡ among (plain item.now) };

    fn weight(&self) -> u32
        ensures { result ≡ weighs self.now };

    fn value(&self) -> u64
        ensures { result ≡ worth self.now };

    // What keeps the sums within 64 bits and the mean a price.
    ghost fair: { (r : Plain) → good_fields r ≡ true → IfSome (among r) (λ x. Fair DIVISOR (weighs x) (worth x)) };

    ghost divides: { (0 < DIVISOR) × (DIVISOR ≤ 8) };
}

#[derive(Clone, Copy)]
pub(super) struct Trade {
    price: u32,
    volume: u32,
}

#[derive(Clone, Copy)]
pub(super) struct Quote {
    bid: u32,
    offer: u32,
}

impl Quote {
    // Once where the quote is at most `width` wide.
    fn counts_within(&self, width: u32) -> u32
        ensures { result ≡ narrow width self.now.bid self.now.offer }
    {
        u32::from(self.offer.saturating_sub(self.bid) <= width)
    }
}

impl Priced for Trade {
    const DIVISOR: u32 = 1;

    ghost DIVISOR = { 1 };

    ghost weighs = { λ x. x.volume };

    ghost worth = { λ x. x.price };

    ghost among = { as_trade };

    ghost fair = { Prim.search rules };

    ghost divides = { Prim.search rules };

    fn of(item: &Record) -> Option<Trade> {
        match *item {
            Record::Trade { price, volume, .. } => Some(Trade { price, volume }),
            Record::Quote { .. } => None,
        }
    }

    fn weight(&self) -> u32 {
        self.volume
    }

    fn value(&self) -> u64 {
        u64::from(self.price)
    }
}

impl Priced for Quote {
    const DIVISOR: u32 = 2;

    ghost DIVISOR = { 2 };

    ghost weighs = { λ x. narrow 3000 x.bid x.offer };

    ghost worth = { λ x. x.bid + x.offer };

    ghost among = { as_quote };

    ghost fair = { Prim.search rules };

    ghost divides = { Prim.search rules };

    fn of(item: &Record) -> Option<Quote> {
        match *item {
            Record::Trade { .. } => None,
            Record::Quote { bid, offer, .. } => Some(Quote { bid, offer }),
        }
    }

    fn weight(&self) -> u32 {
        self.counts_within(WIDTH)
    }

    fn value(&self) -> u64 {
        u64::from(self.bid) + u64::from(self.offer)
    }
}
