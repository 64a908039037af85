ghost use Rattle.std.specs.Prelude.{◌≡◌};
ghost use Rattle.tape.specs.Codes.{refusing};
ghost use Rattle.reference.specs.Codes.{reference_refusal};
ghost use Rattle.reference.specs.Finding.{tier_number, mean_in, first_tier, fit, due};
ghost use Rattle.reference.specs.Meaning.{Answers};
ghost use Rattle.reference.specs.Sums.{MeansFit};

use super::fault::ReferenceFault;
use super::priced::{Quote, Trade};
use super::sums::{Tallies, tally};
use super::window::{find_edges, is_range};
use tape::record::is_symbol;

/// What a reference price is the mean of.
#[derive(Clone, Copy, Debug, PartialEq, Eq)]
pub enum Tier {
    Trades = 1,
    Quotes = 2,
}

// In the order in which they are tried.
const TIERS: [Tier; 2] = [Tier::Trades, Tier::Quotes];

/// Asks for the reference price of a symbol from at most so many windows before a close.
#[derive(Clone, Copy, Debug, PartialEq, Eq)]
pub struct Request<'a> {
    pub symbol: &'a [u8],
    pub close: u32,
    pub windows: u32,
}

/// A price in hundredths of a point, what it is the mean of, and how many windows were tried to find it.
#[derive(Clone, Copy, Debug, PartialEq, Eq)]
pub struct Reference {
    pub price: u32,
    pub tier: Tier,
    pub windows: u32,
}

impl Tier {
    pub fn number(&self) -> u8
        ensures { result ≡ tier_number self.now }
    {
        *self as u8
    }
}

impl<'a> Request<'a> {
    fn is_fit(&self) -> bool
        ensures { result ≡ fit self.now }
    {
        is_symbol(self.symbol) && is_range(self.close, self.windows)
    }
}

fn tier_mean(tallies: &Tallies, tier: Tier) -> Option<u32>
    requires { MeansFit tallies.now }
    ensures { result ≡ mean_in tallies.now tier }
{
    match tier {
        Tier::Trades => tallies.trades.mean::<Trade>(),
        Tier::Quotes => tallies.quotes.mean::<Quote>(),
    }
}

// The first tier that has a mean.
fn first_mean(tallies: &Tallies, windows: u32, tiers: &[Tier]) -> Option<Reference>
    requires { MeansFit tallies.now }
    ensures { result ≡ first_tier (mean_in tallies.now) windows tiers.now }
{
    // Kept: of a `find_map` it stayed unproved that the tiers before the one found have no mean.
    for tier in tiers {
        if let Some(price) = tier_mean(tallies, *tier) {
            return Some(Reference {
                price,
                tier: *tier,
                windows,
            });
        }
    }
    None
}

/// The reference price: the mean of the first window, from 1 on, that has one.
/// The whole tape is read once; then each window that is tried is read once.
pub fn find_reference(tape: &[u8], request: &Request) -> Result<Reference, ReferenceFault>
    ensures gives { refusing reference_refusal result ≡ due request.now tape.now }
    ensures means { Answers request.now tape.now result }
{
    if !request.is_fit() {
        return Err(ReferenceFault::Request);
    }
    let edges = find_edges(tape, request.close)?;
    for windows in 1..=request.windows {
        let part = edges.part(tape, windows);
        let tallies = tally(part.bytes, request.symbol)?;
        if let Some(found) = first_mean(&tallies, windows, &TIERS) {
            return Ok(found);
        }
    }
    Err(ReferenceFault::NoMean)
}
