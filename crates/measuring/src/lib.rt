// The area of a ring as a record holds it, by one walk over the ring's points that looks for a coordinate above the limit too.
#![tactic(auto)]

ghost use Rattle.std.specs.Prelude.{◌≡◌, ◌/◌, ◌%◌, ◌^◌, ◌<◌, [], ◌∷◌, length};
ghost use Rattle.std.proofs.lemmas.List.Edits.{sets};
ghost use Rattle.scope.specs.Limits.{coordinate_limit};
ghost use Rattle.scope.specs.Area.{points, area, twos_complement, any_above};
ghost use Rattle.measuring.specs.Ringed.{area_in, Turned};

use area::sum_up;
use lent::{high_word, low_word, put};

// What a walk over a ring's points finds.
// Kept: the area is the ring's whether a coordinate is above the limit or not, so an Option of it would tell less.
#[derive(Clone, Copy)]
pub struct Found {
    // whether a coordinate is above the limit
    pub over: bool,
    // the signed area in two's complement
    pub area: u64,
}

// Walks over the words of a ring once.
pub fn measure(ring: &[u16]) -> Found
    requires { (length ring.now % 2 ≡ 0) × (0 < length ring.now) × (length ring.now < 2 ^ 33) }
    ensures { (result.over ≡ any_above coordinate_limit ring.now) × (result.area ≡ twos_complement (area (points ring.now))) }
{
    let sums = sum_up(ring);
    let area = sums.gained.wrapping_sub(sums.lost);
    Found {
        over: sums.over,
        area,
    }
}

// The signed area, in two's complement, of the ring of `count` points from point `first` on, and 0 where the points do not reach so far.
// Kept: first point and count and no slice, since a record may reach past the points, and its area is 0 then.
pub fn area_of(points: &[u16], first: u32, count: u32) -> u64
    ensures { result ≡ twos_complement (area_in points.now first count) }
{
    if count == 0 {
        return 0;
    }
    let start = 2 * (first as usize);
    let end = start + 2 * (count as usize);
    if points.len() < end {
        return 0;
    }
    measure(&points[start..end]).area
}

// An area in two's complement with what the step from one point to the next adds to it.
pub fn turned(area: u64, x: u32, y: u32, next_x: u32, next_y: u32) -> u64
    ensures { Turned area (record { x = x; y = y }) (record { x = next_x; y = next_y }) result }
{
    let gained = u64::from(y) * u64::from(next_x);
    let lost = u64::from(x) * u64::from(next_y);
    area.wrapping_add(gained).wrapping_sub(lost)
}

// Stores a number of 64 bits as two words, low word first, from word `at` on. Past the end nothing is stored.
pub fn put_area(directory: &mut [u32], at: usize, area: u64)
    ensures { directory.new ≡ sets directory.old at (area % 2 ^ 32 ∷ area / 2 ^ 32 ∷ []) }
{
    if at < directory.len() {
        put(directory, at, low_word(area));
        put(directory, at + 1, high_word(area));
    }
}
