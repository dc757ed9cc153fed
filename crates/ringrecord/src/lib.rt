// A directory record as a struct that holds its fate and its area, the way from the six words of a record to it and back, and the copies of a whole directory
// from words to records and back. A copy is all or nothing and asks nothing of the caller.
#![tactic(auto)]

ghost use Rattle.std.specs.Prelude.{◌≡◌, length};
ghost use Rattle.std.proofs.lemmas.List.Edits.{sets};
ghost use Rattle.scope.specs.Contour.{class_word, owner_word};
ghost use Rattle.scope.specs.Room.{directory_words};
ghost use Rattle.scope.specs.Area.{area_from};
ghost use Rattle.ringrecord.specs.Records.{fate_of, words_of, fate_from, record_in};
ghost use Rattle.ringrecord.specs.Copies.{room_for, copied_rings, records_after, words_after};

use lent::put;
use limits::{HOLE, LINE, NO_OWNER, POLYGON, RECORD_STRIDE};
use measuring::put_area;
use ringset::record_at;

// What became of a ring.
#[derive(Clone, Copy, PartialEq, Eq, Debug)]
pub enum Fate {
    Polygon,
    // a hole, and the record number of the polygon that it belongs to
    Hole(u32),
    Dropped,
    // a line, or a bare ring of contour_rings
    Line,
}

// A directory record: the number of the ring's first point, how many points it has, its fate and its signed area.
#[derive(Clone, Copy, PartialEq, Eq, Debug)]
pub struct RingRecord {
    pub first: u32,
    pub count: u32,
    pub fate: Fate,
    pub area: i64,
}

// The class word of a fate.
#[tactic(auto, unfolding(scope::specs::Contour::class_word, crate::specs::Records::fate_of))]
pub fn class_word(fate: Fate) -> u32
    ensures { result ≡ class_word (fate_of fate) }
{
    match fate {
        Fate::Polygon => POLYGON,
        Fate::Hole(_) | Fate::Dropped => HOLE,
        Fate::Line => LINE,
    }
}

// The owner word of a fate, in the record of number `k`.
#[tactic(auto, unfolding(scope::specs::Contour::owner_word, scope::specs::Limits::no_owner, crate::specs::Records::fate_of))]
pub fn owner_word(k: u32, fate: Fate) -> u32
    ensures { result ≡ owner_word k (fate_of fate) }
{
    match fate {
        Fate::Polygon => k,
        Fate::Hole(owner) => owner,
        Fate::Dropped | Fate::Line => NO_OWNER,
    }
}

// The fate that class and owner words stand for.
#[tactic(auto, unfolding(crate::specs::Records::fate_from, scope::specs::Limits::no_owner))]
fn fate_from(class: u32, owner: u32) -> Fate
    ensures { result ≡ fate_from class owner }
{
    match (class, owner) {
        (POLYGON, _) => Fate::Polygon,
        (HOLE, NO_OWNER) => Fate::Dropped,
        (HOLE, owner) => Fate::Hole(owner),
        _ => Fate::Line,
    }
}

// The area that two words stand for, low word first.
#[tactic(auto, unfolding(scope::specs::Area::area_from, scope::specs::Area::whole_from))]
fn area_from(low: u32, high: u32) -> i64
    ensures { result ≡ area_from low high }
{
    (u64::from(low) + 4294967296 * u64::from(high)).cast_signed()
}

// Record `k` of directory words.
#[tactic(auto, unfolding(crate::specs::Records::record_in, crate::specs::Records::record_from))]
fn record_in(directory: &[u32], k: u32) -> RingRecord
    ensures { result ≡ record_in directory.now k }
{
    let words = record_at(directory, k);
    RingRecord {
        first: words.first,
        count: words.count,
        fate: fate_from(words.class, words.owner),
        area: area_from(words.area_low, words.area_high),
    }
}

// Stores the six words of record `k`.
fn put_words(directory: &mut [u32], k: u32, record: RingRecord)
    ensures { directory.new ≡ sets directory.old (directory_words k) (words_of k «record») }
{
    let at = RECORD_STRIDE * (k as usize);
    let fate = record.fate;
    put(directory, at, record.first);
    put(directory, at + 1, record.count);
    put(directory, at + 2, class_word(fate));
    put(directory, at + 3, owner_word(k, fate));
    put_area(directory, at + 4, record.area.cast_unsigned());
}

// How many of the stated rings are copied, where there are so many words and records: all, or none.
#[tactic(auto, unfolding(crate::specs::Copies::copied_rings, crate::specs::Copies::room_for, scope::specs::Room::directory_words, scope::specs::Limits::record_stride))]
fn copied_rings(rings: u32, words: usize, records: usize) -> u32
    ensures { result ≡ copied_rings rings words records }
{
    let n = rings as usize;
    if words < RECORD_STRIDE * n || records < n {
        return 0;
    }
    rings
}

// Copies the first records, as many as rings are stated, out of directory words. Where there are not as many words or records, nothing changes. Answers whether
// they were copied.
pub fn records_from_words(directory: &[u32], rings: u32, records: &mut [RingRecord]) -> bool
    ensures { (result ≡ room_for rings (length directory.now) (length records.old)) × (records.new ≡ records_after rings directory.now records.old) }
{
    let n = copied_rings(rings, directory.len(), records.len());
    for k in 0..n {
        records[k as usize] = record_in(directory, k);
    }
    n == rings
}

// Copies the words of the first records, as many as rings are stated, into directory words. Where there are not as many words or records, nothing changes.
// Answers whether they were copied.
pub fn words_from_records(records: &[RingRecord], rings: u32, directory: &mut [u32]) -> bool
    ensures { (result ≡ room_for rings (length directory.old) (length records.now)) × (directory.new ≡ words_after rings records.now directory.old) }
{
    let n = copied_rings(rings, directory.len(), records.len());
    for k in 0..n {
        put_words(directory, k, records[k as usize]);
    }
    n == rings
}
