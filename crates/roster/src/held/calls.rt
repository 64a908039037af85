ghost use Rattle.std.specs.Prelude.{◌≡◌, ◌<◌, min, false, [], ◌∷◌, ◌++◌, length, take, is_ok, IfSome, if◌then◌else◌, nat_lt};
ghost use Rattle.std.specs.List.{remove};
ghost use Rattle.roster.specs.Codes.{numbered};
ghost use Rattle.roster.specs.Checks.{list_answer, delist_answer};
ghost use Rattle.roster.specs.Places.{most_entries, place, record_of, holds, without};
ghost use Rattle.roster.specs.Rosters.{entries_of, room_of, KeepsPlaces};

use super::Roster;
use crate::fault::RosterFault;
use crate::listing::Listing;
use crate::lookup::find_entry;

// A roster never uses more places than this, however many are lent.
const MOST: usize = 4096;

impl<'a, L> Roster<'a, L> {
    /// An empty roster; the places keep what they hold.
    pub fn new(places: &'a mut [L]) -> Roster<'a, L>
        ensures entries { entries_of result ≡ [] }
        ensures places { result.places.now ≡ places.old }
        ensures lender { result.places.ghost_name ≡ places.entry.ghost_name }
    {
        Roster { places, len: 0 }
    }

    /// Takes a roster up again whose entries stand in the first `len` places. A count past the places, or past
    /// 4,096, is cut to what fits.
    pub fn resume(places: &'a mut [L], len: usize) -> Roster<'a, L>
        ensures entries { entries_of result ≡ take (min most_entries len) places.old }
        ensures places { result.places.now ≡ places.old }
        ensures lender { result.places.ghost_name ≡ places.entry.ghost_name }
    {
        let len = len.min(places.len()).min(MOST);
        Roster { places, len }
    }

    pub fn entries(&self) -> &[L]
        ensures { result.now ≡ entries_of self.now }
    {
        &self.places[0..self.len]
    }

    /// How many entries stand: with this count and the places, `resume` goes on.
    pub fn len(&self) -> usize
        ensures { result ≡ length (entries_of self.now) }
    {
        self.entries().len()
    }
}

// Kept: that a change keeps the places stands in the contract of each, since no field of one roster can say it of two.
impl<L: Copy> Roster<'_, L> {
    // Takes out the entry at a place: those behind it move up by one.
    fn remove(&mut self, at: usize)
        requires { at < self.old.len }
        ensures entries { entries_of self.new ≡ remove (entries_of self.old) at }
        ensures places { KeepsPlaces self.old self.new }
    {
        self.places.copy_within(at + 1..self.len, at);
        self.len -= 1;
    }
}

impl<L: Listing> Roster<'_, L> {
    // Where the first entry stands that is the same as the wanted one.
    fn position(&self, wanted: &L) -> Option<usize>
        ensures first { result ≡ place (L.Listing.same wanted.now) (entries_of self.now) }
        ensures within { IfSome result (λ at. at < self.now.len) }
    {
        self.entries()
            .iter()
            .position(|entry| wanted.is_same(entry))
    }

    /// The entry that is the same as the wanted one, as it was entered.
    pub fn find(&self, wanted: &L) -> Option<L>
        ensures { result ≡ record_of (L.Listing.same wanted.now) (entries_of self.now) }
    {
        find_entry(self.entries(), wanted)
    }

    /// Enters a listing behind the last entry, or leaves the roster and every place as they were. No other place is
    /// written, and none past the room.
    pub fn list(&mut self, listing: L) -> Result<(), RosterFault>
        ensures gives { numbered result ≡ list_answer (L.Listing.sound listing) (holds (L.Listing.same listing) (entries_of self.old)) (nat_lt (length (entries_of self.old)) (room_of self.old)) }
        ensures entries { entries_of self.new ≡ (if is_ok result then entries_of self.old ++ listing ∷ [] else entries_of self.old) }
        ensures places { KeepsPlaces self.old self.new }
        ensures kept { is_ok result ≡ false → self.new ≡ self.old }
    {
        listing.form()?;
        if self.position(&listing).is_some() {
            return Err(RosterFault::Listed);
        }
        if self.len >= self.places.len().min(MOST) {
            return Err(RosterFault::Full);
        }
        self.places[self.len] = listing;
        self.len += 1;
        Ok(())
    }

    /// Takes out the entry that is the same, and the later ones move up by one place; or leaves the roster and every
    /// place as they were. Whatever lies behind the entries stays.
    pub fn delist(&mut self, listing: &L) -> Result<(), RosterFault>
        ensures gives { numbered result ≡ delist_answer (L.Listing.sound listing.now) (holds (L.Listing.same listing.now) (entries_of self.old)) }
        ensures entries { entries_of self.new ≡ (if is_ok result then without (place (L.Listing.same listing.now) (entries_of self.old)) (entries_of self.old) else entries_of self.old) }
        ensures places { KeepsPlaces self.old self.new }
        ensures kept { is_ok result ≡ false → self.new ≡ self.old }
    {
        listing.form()?;
        let at = self.position(listing).ok_or(RosterFault::NotListed)?;
        self.remove(at);
        Ok(())
    }
}
