// What a contour or a band needs to know of each ring before owners are sought: where its points begin, its class by area or its key by size, and its number.
#![tactic(auto)]

ghost use Rattle.std.specs.Prelude.{◌≡◌, true, false, ℕ};
ghost use Rattle.scope.specs.Stitching.{Line};
ghost use Rattle.scope.specs.Area.{area, positive};
ghost use Rattle.scope.specs.Band.{sort_key};
ghost use Rattle.extents.specs.Points.{ring_in};
ghost use Rattle.noting.specs.Noted.{Countable, Noted, Measurable, HighNoted, note_of};
ghost use Rattle.noting.specs.Step.{RingWithin, RecordNotable, NotedOne, RecordMeasurable, high_put};

use extents::Span;
use limits::{HOLE, POLYGON, SHORT_STRIDE};

// Whether a ring of this area is a polygon.
#[tactic(auto, using(crate::proofs::Signs::above_zero))]
fn is_polygon(area: i64) -> bool
    ensures { result ≡ positive area }
{
    0 < area
}

// The area of a ring.
pub fn area_at(points: &[u16], ring: Span) -> i64
    requires { RingWithin points.now ring.first ring.count }
    ensures { result ≡ area (ring_in points.now ring.first ring.count) }
{
    let Span { first, count } = ring;
    let start = 2 * first;
    let end = 2 * (first + count);
    let Ok(area) = area::area(&points[start..end]) else {
        return 0;
    };
    area
}

// The sort key of that ring: a fourth of its size.
#[tactic(auto, unfolding(scope::specs::Band::sort_key))]
fn key_at(points: &[u16], ring: Span) -> u64
    requires { RingWithin points.now ring.first ring.count }
    ensures { result ≡ sort_key (ring_in points.now ring.first ring.count) }
{
    area_at(points, ring).unsigned_abs() / 4
}

// What a record is to hold of its ring in the third word.
pub trait Note {
    ghost note: { Line → ℕ };

    // The note of a ring.
    fn note_at(points: &[u16], ring: Span) -> u32
        requires { RingWithin points.now ring.first ring.count }
        ensures { result ≡ note (ring_in points.now ring.first ring.count) };
}

// The class by the sign of the area: 0 for a polygon and 1 for a hole.
pub struct Class;

impl Note for Class {
    ghost note = { note_of false };

    #[tactic(auto, unfolding(crate::specs::Noted::note_of))]
    fn note_at(points: &[u16], ring: Span) -> u32 {
        if is_polygon(area_at(points, ring)) {
            POLYGON
        } else {
            HOLE
        }
    }
}

// The low 32 bits of the sort key.
pub struct Size;

impl Note for Size {
    ghost note = { note_of true };

    #[tactic(auto, unfolding(crate::specs::Noted::note_of))]
    fn note_at(points: &[u16], ring: Span) -> u32 {
        (key_at(points, ring) % 4294967296) as u32
    }
}

// Writes record `r` anew, whose ring has its first point at point `first`. Returns the point count.
#[tactic(auto, unfolding(extents::specs::Records::record_count, crate::specs::Step::record_noted))]
fn note_ring<N: Note>(points: &[u16], directory: &mut [u32], r: usize, first: usize) -> usize
    requires { RecordNotable points.now directory.old r first }
    ensures { NotedOne points.now directory.old directory.new r first N.note result }
{
    let at = SHORT_STRIDE * r;
    let count = directory[at + 1] as usize;
    let note = N::note_at(points, Span { first, count });
    directory[at] = first as u32;
    directory[at + 2] = note;
    directory[at + 3] = r as u32;
    count
}

// Writes the first `n` records anew, from the point count in each: the number of its first point, the count, the note, and its own number.
pub fn note_rings<N: Note>(points: &[u16], directory: &mut [u32], n: usize)
    requires { Countable points.now directory.old n }
    ensures { Noted points.now directory.old directory.new n N.note }
{
    let mut first: usize = 0;
    for r in 0..n {
        first += note_ring::<N>(points, directory, r, first);
    }
}

// Writes the sort key of record `r`'s ring, without its low 32 bits, into the record.
#[tactic(auto, unfolding(extents::specs::Records::record_first, extents::specs::Records::record_count, extents::specs::Records::record_ring, crate::specs::Step::high_put))]
fn put_high(points: &[u16], directory: &mut [u32], r: usize)
    requires { RecordMeasurable points.now directory.old r }
    ensures { directory.new ≡ high_put points.now directory.old r }
{
    let at = SHORT_STRIDE * r;
    let first = directory[at] as usize;
    let count = directory[at + 1] as usize;
    let high = key_at(points, Span { first, count }) / 4294967296;
    directory[at + 2] = high as u32;
}

// Writes the sort key of each of the first `n` records' rings, without its low 32 bits, into the record. A ring's first point and count are read from the
// record.
pub fn note_high(points: &[u16], directory: &mut [u32], n: usize)
    requires { Measurable points.now directory.old n }
    ensures { HighNoted points.now directory.old directory.new n }
{
    for r in 0..n {
        put_high(points, directory, r);
    }
}
