ghost use Rattle.std.specs.Prelude.{◌≡◌, length};
ghost use Rattle.roster.specs.Rosters.{entries_of, room_of, room_in, KeepsPlaces};
ghost use Rattle.roster_laws.specs.Changing.{changed};
ghost use Rattle.roster_laws.specs.Laws.{Applied};

use roster::held::Roster;
use roster::listing::Listing;

/// A change that is asked of a roster.
#[derive(Clone, Copy, Debug, PartialEq, Eq)]
pub enum Change<L> {
    Enter(L),
    Leave(L),
}

// Makes one change, or none where the roster refuses it.
fn make_change<L: Listing>(roster: &mut Roster<'_, L>, change: &Change<L>)
    ensures entries { entries_of roster.new ≡ changed L.Listing.sound L.Listing.same (room_of roster.old) (entries_of roster.old) change.now }
    ensures places { KeepsPlaces roster.old roster.new }
{
    let _ = match change {
        Change::Enter(x) => roster.list(*x),
        Change::Leave(x) => roster.delist(x),
    };
}

/// Makes an empty roster in the places and asks it for each change in turn; those that it refuses are left out.
/// Answers how many entries stand then: they are in the first places.
pub fn apply_changes<L: Listing>(places: &mut [L], changes: &[Change<L>]) -> usize
    ensures { Applied L.Listing.sound L.Listing.same (room_in (length places.old)) places.old places.new changes.now result }
{
    let mut roster = Roster::new(places);
    for change in changes {
        make_change(&mut roster, change);
    }
    roster.len()
}
