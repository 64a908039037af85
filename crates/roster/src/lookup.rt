ghost use Rattle.std.specs.Prelude.{◌≡◌};
ghost use Rattle.roster.specs.Places.{record_of};

use super::listing::Listing;

/// The first entry that is the same as the wanted one, as it stands there.
pub fn find_entry<L: Listing>(entries: &[L], wanted: &L) -> Option<L>
    ensures { result ≡ record_of (L.Listing.same wanted.now) entries.now }
{
    entries.iter().find(|entry| wanted.is_same(entry)).copied()
}
