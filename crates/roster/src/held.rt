ghost use Rattle.std.specs.Prelude.{◌≤◌, length};
ghost use Rattle.roster.specs.Places.{most_entries};

mod calls;

/// Listings in the order of entering, in the first places that the caller lends. The places behind them hold anything.
// Kept: the places are lent and no heap is used, so the count stands beside them.
#[derive(Drop)]
pub struct Roster<'a, L> {
    places: &'a mut [L],
    len: usize,
    ghost within: { len ≤ length places.now },
    ghost few: { len ≤ most_entries },
}
