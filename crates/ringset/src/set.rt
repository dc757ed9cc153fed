// A ring set that was checked: its readers take it, and ask nothing more of the caller.

ghost use Rattle.std.specs.Prelude.{◌≡◌, true, false, MatchResult};
ghost use Rattle.scope.specs.GeoJson.{ring_set_refused};

use crate::ring_set_faulty;
use error::Refusal;

// Points and a directory of as many rings as are stated, such as number 9 does not refuse.
#[derive(Clone, Copy)]
pub struct RingSet<'a> {
    pub points: &'a [u16],
    pub directory: &'a [u32],
    pub rings: u32,
    pub ghost checked: { ring_set_refused points.now directory.now rings ≡ false },
}

impl<'a> RingSet<'a> {
    // The ring set of these words, or number 9 where it refuses them.
    pub fn check(
        points: &'a [u16],
        directory: &'a [u32],
        rings: u32,
    ) -> Result<RingSet<'a>, Refusal>
        ensures { MatchResult result (λ set. (set.points.now ≡ points.now) × (set.directory.now ≡ directory.now) × (set.rings ≡ rings)) (λ why. (why ≡ Refusal.BadRingSet) × (ring_set_refused points.now directory.now rings ≡ true)) }
    {
        if ring_set_faulty(points, directory, rings) {
            return Err(Refusal::BadRingSet);
        }
        Ok(RingSet {
            points,
            directory,
            rings,
        })
    }
}
