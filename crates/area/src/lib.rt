// The area of a ring, and a ring against a ring, over doubled whole coordinates.
// Words are X, Y, X, Y, and so on. Both functions answer on every input, and change nothing.
#![tactic(auto)]

ghost use Rattle.std.specs.Prelude.{◌≡◌, cond, ◌+◌, ◌*◌, ◌%◌, ◌^◌, ◌<◌, ◌≤◌, eqb, nat_lt, length, slice_index};
ghost use Rattle.std.specs.List.{list_any};
ghost use Rattle.scope.specs.Area.{faulty_words, area_refused};
ghost use Rattle.scope.specs.Containment.{between, on_pair, flips};
ghost use Rattle.area.specs.Points.{meant};
ghost use Rattle.area.specs.Answers.{area_answer, contains_answer};
ghost use Rattle.area.specs.Summed.{SummedUp};

use error::Refusal;
use limits::{COORDINATE_LIMIT, POINT_LIMIT};

// What `contains` answers of a tested ring against an outer one.
#[derive(Clone, Copy)]
pub enum Containment {
    // the first deciding vertex of the tested ring lies inside the outer ring
    Inside,
    // no vertex of the tested ring decides
    Boundary,
    // the first deciding vertex of the tested ring lies outside the outer ring
    Outside,
}

// A point of doubled coordinates.
#[derive(Clone, Copy, PartialEq, Eq)]
pub struct Point {
    pub x: u16,
    pub y: u16,
}

// The point of number `k` of the words X, Y, X, Y, and so on.
pub fn point_at(words: &[u16], k: usize) -> Point
    requires { 2 * k + 2 ≤ length words.now }
    ensures { result ≡ record { x = slice_index words.now (2 * k); y = slice_index words.now (2 * k + 1) } }
{
    Point {
        x: words[2 * k],
        y: words[2 * k + 1],
    }
}

// Whether a word lies above the coordinate limit.
fn any_above(words: &[u16]) -> bool
    ensures { result ≡ list_any (λ w. nat_lt COORDINATE_LIMIT w) words.now }
{
    words.iter().any(|word| COORDINATE_LIMIT < *word)
}

// Whether the words are faulty: an odd count, too many points, or a coordinate above the limit.
#[tactic(auto, unfolding(scope::specs::Area::faulty_words, scope::specs::Limits::point_limit))]
fn faulty(words: &[u16]) -> bool
    ensures { result ≡ faulty_words words.now }
{
    words.len() % 2 == 1 || POINT_LIMIT < words.len() / 2 || any_above(words)
}

// Whether the words are no ring: none at all, or faulty ones.
#[tactic(auto, unfolding(scope::specs::Area::area_refused))]
fn no_ring(words: &[u16]) -> bool
    ensures { result ≡ area_refused words.now }
{
    words.is_empty() || faulty(words)
}

// The whole product of two coordinates.
fn product(a: u16, b: u16) -> u64
    ensures { (result ≡ a * b) × (result < 2 ^ 32) }
{
    u64::from(a) * u64::from(b)
}

// What one walk over a ring's words finds: whether a coordinate is above the limit, and two sums, whose difference is the area.
#[derive(Clone, Copy)]
pub struct RingSums {
    pub over: bool,
    pub gained: u64,
    pub lost: u64,
}

// Walks over the words of a ring once.
pub fn sum_up(ring: &[u16]) -> RingSums
    requires { (length ring.now % 2 ≡ 0) × (0 < length ring.now) × (length ring.now < 2 ^ 33) }
    ensures { SummedUp ring.now result }
{
    let n = ring.len() / 2;
    let mut last = point_at(ring, n - 1);
    let mut gained: u64 = 0;
    let mut lost: u64 = 0;
    let mut over = false;
    for i in 0..n {
        let next = point_at(ring, i);
        over = over | (COORDINATE_LIMIT < next.x) | (COORDINATE_LIMIT < next.y);
        gained += product(last.y, next.x);
        lost += product(last.x, next.y);
        last = next;
    }
    RingSums { over, gained, lost }
}

// The signed area of a ring, the crate's undivided one times 4: above 0 is a polygon, otherwise a hole. Number 11 where the words are no ring.
pub fn area(ring: &[u16]) -> Result<i64, Refusal>
    ensures { result ≡ area_answer ring.now }
{
    if no_ring(ring) {
        return Err(Refusal::BadRing);
    }
    let sums = sum_up(ring);
    let signed = sums.gained as i64 - sums.lost as i64;
    Ok(signed)
}

// Whether k lies between m and n, ends included.
#[tactic(auto, unfolding(scope::specs::Containment::between))]
fn between(m: u16, k: u16, n: u16) -> bool
    ensures { result ≡ between m k n }
{
    (m <= k && k <= n) || (n <= k && k <= m)
}

// Whether p lies between the ends a and b, ends included: by y when the ends have equal x, else by x.
fn spanned(a: Point, b: Point, p: Point) -> bool
    ensures { result ≡ cond (eqb a.x b.x) (between a.y p.y b.y) (between a.x p.x b.x) }
{
    if a.x == b.x {
        between(a.y, p.y, b.y)
    } else {
        between(a.x, p.x, b.x)
    }
}

// The sum of each point's x times the next point's y, over three points in a circle.
fn turning(a: Point, b: Point, c: Point) -> u64
    ensures { result ≡ a.x * b.y + b.x * c.y + c.x * a.y }
{
    product(a.x, b.y) + product(b.x, c.y) + product(c.x, a.y)
}

// Whether p lies on the straight piece from a to b, ends included.
pub fn on_pair(a: Point, b: Point, p: Point) -> bool
    ensures { result ≡ on_pair (meant a) (meant b) (meant p) }
{
    spanned(a, b, p) && turning(p, b, a) == turning(a, b, p)
}

// Whether the pair a, b flips the sign: one end has y above p's and the other has not, and p is left of the exact crossing.
pub fn flips(a: Point, b: Point, p: Point) -> bool
    ensures { result ≡ flips (meant a) (meant b) (meant p) }
{
    if p.y < a.y {
        if p.y < b.y {
            return false;
        }
        return turning(a, b, p) < turning(p, b, a);
    }
    if p.y < b.y {
        return turning(p, b, a) < turning(a, b, p);
    }
    false
}

// The tested ring against the outer ring: the first tested vertex that lies on no pair of the outer ring decides. Number 11 where the words of a ring are faulty, or
// the outer ring is empty.
pub fn contains(outer: &[u16], tested: &[u16]) -> Result<Containment, Refusal>
    ensures { result ≡ contains_answer outer.now tested.now }
{
    if no_ring(outer) {
        return Err(Refusal::BadRing);
    }
    if faulty(tested) {
        return Err(Refusal::BadRing);
    }
    let n = outer.len() / 2;
    'vertices: for v in 0..tested.len() / 2 {
        let p = point_at(tested, v);
        let mut last = point_at(outer, n - 1);
        let mut within = false;
        for k in 0..n {
            let next = point_at(outer, k);
            if on_pair(last, next, p) {
                continue 'vertices;
            }
            within = flips(last, next, p) != within;
            last = next;
        }
        if within {
            return Ok(Containment::Inside);
        }
        return Ok(Containment::Outside);
    }
    Ok(Containment::Boundary)
}
