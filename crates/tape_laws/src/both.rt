ghost use Rattle.std.specs.Prelude.{◌≡◌, List};
ghost use Rattle.tape.specs.Codes.{refusing};
ghost use Rattle.tape.specs.Format.{Plain};
ghost use Rattle.tape.specs.Reading.{parse, sound};
ghost use Rattle.reference.specs.Codes.{reference_refusal};
ghost use Rattle.reference.specs.Finding.{due};
ghost use Rattle.tape_laws.specs.Alike.{SameRecords, AnyOrder};
ghost use Rattle.tape_laws.specs.Examples.{Examples};

use reference::fault::ReferenceFault;
use reference::finding::{Reference, Request, find_reference};

/// What each of two gives.
#[derive(Clone, Copy, Debug, PartialEq, Eq)]
pub struct Pair<T> {
    pub first: T,
    pub second: T,
}

/// Finds the reference price of one request on two tapes. Sound tapes that hold the same records of the symbol in the
/// widest window, each equally often, in whatever order, get the same answer.
pub fn find_both(
    first: &[u8],
    second: &[u8],
    request: &Request,
) -> Pair<Result<Reference, ReferenceFault>>
    ensures one { refusing reference_refusal result.first ≡ due request.now first.now }
    ensures two { refusing reference_refusal result.second ≡ due request.now second.now }
    ensures same { (rs qs : List Plain) → parse first.now ≡ sound rs → parse second.now ≡ sound qs → SameRecords request.now rs qs → refusing reference_refusal result.first ≡ refusing reference_refusal result.second }
    ensures order { AnyOrder }
    ensures examples { Examples }
{
    Pair {
        first: find_reference(first, request),
        second: find_reference(second, request),
    }
}
