ghost use Rattle.std.specs.Prelude.{◌≡◌, ℕ, ◌<◌, Bool, true};
ghost use Rattle.roster.specs.Codes.{numbered};
ghost use Rattle.roster.specs.Checks.{form_answer};

use super::fault::RosterFault;

/// A kind of listing: what its prices are multiples of, when two listings are the same, and which are malformed.
pub trait Listing: Copy {
    /// The least step of a price, in hundredths of a point.
    const TICK: u32;

    ghost TICK: { ℕ };

    ghost same: { Self → Self → Bool };

    ghost sound: { Self → Bool };

    // Kept: listings are the same by what they are known by, whatever their flags, so this is no `==`.
    fn is_same(&self, other: &Self) -> bool
        ensures { result ≡ same self.now other.now };

    /// What is wrong with the listing by itself.
    fn form(&self) -> Result<(), RosterFault>
        ensures { numbered result ≡ form_answer (sound self.now) };

    ghost positive: { 0 < TICK };

    ghost reflexive: { (x : Self) → same x x ≡ true };

    ghost symmetric: { (x y : Self) → same x y ≡ true → same y x ≡ true };

    ghost transitive: { (x y z : Self) → same x y ≡ true → same y z ≡ true → same x z ≡ true };
}
