ghost use Rattle.std.specs.Prelude.{◌≡◌};
ghost use Rattle.day.specs.Answering.{at_edge};
ghost use Rattle.day.specs.Form.{mark_formed};

use limits::Bounds;
use watches::Kind;

/// A mark as a call makes it.
// Kept: a clear mark with a price is refused, not impossible, so the type holds one.
#[derive(Clone, Copy, Debug, PartialEq, Eq)]
pub struct Mark {
    pub kind: Kind,
    pub price: u32,
}

impl Mark {
    // A clear mark has the price 0, any other whatever price it has.
    pub(crate) fn is_formed(self) -> bool
        ensures { result ≡ mark_formed self.kind self.price }
    {
        self.kind != Kind::Clear || self.price == 0
    }

    // Whether the price is the edge of the mark's side; a clear mark is of none.
    pub(crate) fn is_at_edge(self, bounds: Bounds) -> bool
        ensures { result ≡ at_edge self.kind self.price bounds }
    {
        match self.kind {
            Kind::Bid => self.price == bounds.upper_edge,
            Kind::Offered => self.price == bounds.lower_edge,
            Kind::Clear => true,
        }
    }
}
