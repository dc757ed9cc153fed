// The check of a ring set: whether words are points and a directory such as a reader takes, which is number 9 of document 01. It takes any words whatever.
#![tactic(auto)]

ghost use Rattle.std.specs.Prelude.{◌≡◌, ◌+◌, ◌*◌, ◌^◌, ◌<◌, ◌%◌, length};
ghost use Rattle.scope.specs.Area as Area;
ghost use Rattle.scope.specs.GeoJson.{first_at, count_at, class_at, owner_at, area_low_at, area_high_at, unclosed, record_refused, ring_set_refused};
ghost use Rattle.ringset.specs.OneRecord.{area_differs, shape_refused, owner_refused};

mod set;

use lent::word;
use limits::{HOLE, NO_OWNER, POINT_LIMIT, POLYGON, RECORD_STRIDE};
use measuring::measure;
pub use set::RingSet;

// A directory record. Its last two words are the ring's area in two's complement.
// Kept: words for class and owner, since a record is six words of a lent table, and faulty ones are read too.
#[derive(Clone, Copy)]
pub struct Record {
    pub first: u32,
    pub count: u32,
    pub class: u32,
    pub owner: u32,
    pub area_low: u32,
    pub area_high: u32,
}

impl Record {
    // The ring's area in two's complement, as one number of 64 bits.
    pub fn area_bits(self) -> u64
        ensures { result ≡ self.area_low + 2 ^ 32 * self.area_high }
    {
        u64::from(self.area_low) + 4294967296 * u64::from(self.area_high)
    }
}

// Record `k` of a directory; its words are 0 past the end.
#[tactic(auto, unfolding(scope::specs::GeoJson::first_at, scope::specs::GeoJson::count_at, scope::specs::GeoJson::class_at, scope::specs::GeoJson::owner_at, scope::specs::GeoJson::area_low_at, scope::specs::GeoJson::area_high_at, scope::specs::Limits::record_stride))]
pub fn record_at(directory: &[u32], k: u32) -> Record
    ensures { (result.first ≡ first_at directory.now k) × (result.count ≡ count_at directory.now k) × (result.class ≡ class_at directory.now k) × (result.owner ≡ owner_at directory.now k) × (result.area_low ≡ area_low_at directory.now k) × (result.area_high ≡ area_high_at directory.now k) }
{
    let at = RECORD_STRIDE * (k as usize);
    Record {
        first: word(directory, at),
        count: word(directory, at + 1),
        class: word(directory, at + 2),
        owner: word(directory, at + 3),
        area_low: word(directory, at + 4),
        area_high: word(directory, at + 5),
    }
}

// Whether the last point of a ring is not the first.
fn unclosed(words: &[u16]) -> bool
    requires in_bounds { 1 < length words.now }
    requires words_len { length words.now % 2 ≡ 0 }
    ensures { result ≡ unclosed (Area.points words.now) }
{
    let n = words.len();
    (words[n - 2] != words[0]) | (words[n - 1] != words[1])
}

// Whether an area in two's complement is another than a record's two words hold.
fn area_differs(area: u64, record: Record) -> bool
    ensures { result ≡ area_differs area «record» }
{
    area != record.area_bits()
}

// Whether number 9 refuses a record for its ring: the count, the range, a coordinate, the last point, the area or the class. It walks over the ring once.
fn shape_faulty(points: &[u16], record: Record) -> bool
    ensures { result ≡ shape_refused points.now «record» }
{
    let first = record.first as usize;
    let count = record.count as usize;
    if count < 4 {
        return true;
    }
    if POINT_LIMIT < count {
        return true;
    }
    let end = 2 * (first + count);
    if points.len() < end {
        return true;
    }
    let ring = &points[2 * first..end];
    let found = measure(ring);
    if found.over {
        return true;
    }
    if unclosed(ring) {
        return true;
    }
    if area_differs(found.area, record) {
        return true;
    }
    HOLE < record.class
}

// Whether number 9 refuses record `k` for its owner: a polygon owns itself, a hole has a polygon's number or `NO_OWNER`. The class of the record that the
// owner's number names is whatever it may be where there is none.
#[tactic(auto, unfolding(crate::specs::OneRecord::owner_refused, scope::specs::Limits::no_owner))]
fn owner_faulty(record: Record, rings: u32, k: u32, owner_class: u32) -> bool
    ensures { result ≡ owner_refused «record» rings k owner_class }
{
    match record.class {
        POLYGON => record.owner != k,
        HOLE => record.owner != NO_OWNER && (rings <= record.owner || owner_class != POLYGON),
        _ => false,
    }
}

// Whether number 9 refuses record `k` of a set of as many rings as are stated.
fn record_faulty(points: &[u16], directory: &[u32], rings: u32, k: u32) -> bool
    ensures { result ≡ record_refused points.now directory.now rings k }
{
    let record = record_at(directory, k);
    if shape_faulty(points, record) {
        return true;
    }
    let owner = record_at(directory, record.owner);
    owner_faulty(record, rings, k, owner.class)
}

// Whether number 9 refuses a set of as many rings as are stated.
pub fn ring_set_faulty(points: &[u16], directory: &[u32], rings: u32) -> bool
    ensures { result ≡ ring_set_refused points.now directory.now rings }
{
    if directory.len() < RECORD_STRIDE * (rings as usize) {
        return true;
    }
    (0..rings).any(|k| record_faulty(points, directory, rings, k))
}
