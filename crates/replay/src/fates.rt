// The fates of a contour's rings, worked out from the crate's points and held to class and owner of the crate's records.
use crate::grids::put_records;
use crate::tables::{SOILED, WORDS, after, fill, front};
use crate::text::NUMBERS;
use error::Refusal;
use explaining::{RingFate, ring_fate};
use lent::word;
use limits::{HOLE, NO_OWNER, POLYGON, RECORD_STRIDE};

// Whether the record that a directory begins with has this class and this owner.
fn is_recorded(record: &[u32], class: u32, owner: u32) -> bool {
    (word(record, 2) == class) & (word(record, 3) == owner)
}

// Whether ring k has the fate that its record says. The number behind the last is that of no ring.
fn same_fate(fate: Result<RingFate, Refusal>, k: u32, rings: u32, record: &[u32]) -> bool {
    match fate {
        Ok(RingFate::Polygon) => is_recorded(record, POLYGON, k),
        Ok(RingFate::Hole(owner, _)) => is_recorded(record, HOLE, owner),
        Ok(RingFate::Dropped) => is_recorded(record, HOLE, NO_OWNER),
        Err(refusal) => k == rings && refusal == Refusal::NotThere,
    }
}

// The fate of a ring, held to the record that the rest of the directory begins with.
fn fate_holds(points: &[u16], directory: &[u32], rings: u32, k: u32, rest: &[u32]) -> bool {
    let fate = ring_fate(points, directory, rings, k);
    same_fate(fate, k, rings, rest)
}

// Whether each ring has the fate that its record says, and the number behind the last draws 15.
fn each_holds(points: &[u16], directory: &[u32], rings: u32) -> bool {
    let mut rest = directory;
    for k in 0..rings {
        if !fate_holds(points, directory, rings, k, rest) {
            return false;
        }
        rest = after(rest, RECORD_STRIDE);
    }
    fate_holds(points, directory, rings, rings, rest)
}

// The same over the first words of the points, this many.
fn first_hold(
    points: &[u16; WORDS],
    worded: usize,
    directory: &[u32; NUMBERS],
    rings: u32,
) -> bool {
    each_holds(front(points, worded), directory, rings)
}

// Whether the rings of a contour of this many words of points have the fates of the records of its set.
pub fn fates_hold(listed: &[u32], worded: usize, set: &[u32]) -> bool {
    let mut points = [SOILED; WORDS];
    fill(&mut points, worded, |i| (word(listed, i) % 65536) as u16);
    let mut directory = [0u32; NUMBERS];
    put_records(set, &mut directory);
    first_hold(&points, worded, &directory, word(set, 2))
}
