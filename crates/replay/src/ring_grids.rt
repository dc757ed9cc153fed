// A line of the rings' text: sides, a number a row, S, H and R, and for each ring its point count, its area and its points.
use crate::calls::VALUES;
use crate::cases::{Build, Case, Counts};
use crate::grids::{PLAIN, case_of, pair_of, put_area, put_record};
use crate::recorded::both_hold;
use crate::row_grids::rows_hold;
use crate::tables::{after, fill};
use crate::text::NUMBERS;
use lent::{put, word};
use limits::{LINE, NO_OWNER};
use scope::Rule;

// A sample of rows that are a number each, in which sample x counts 2^x.
fn sample(rows: &[u32], dx: usize, i: usize) -> u32 {
    if dx == 0 {
        return 0;
    }
    word(rows, i / dx) >> (i % dx % 32) as u32 & 1
}

// How far the rings of a line have been taken apart: those whose area has come, the words of points that have come, those that are left of the last ring, and
// whether its area comes next.
#[derive(Clone, Copy)]
struct Taken {
    rings: u32,
    words: u32,
    left: u32,
    is_counted: bool,
}

// Takes the next number of the rings: a ring's point count, its area, or a word of its points. A ring is bare and has no owner.
fn take(
    taken: Taken,
    number: u32,
    records: &mut [u32; NUMBERS],
    listed: &mut [u32; NUMBERS],
) -> Taken {
    if taken.is_counted {
        put_area(records, taken.rings, number);
        Taken {
            rings: taken.rings.wrapping_add(1),
            is_counted: false,
            ..taken
        }
    } else if taken.left == 0 {
        put_record(
            records,
            taken.rings,
            taken.words / 2,
            number,
            LINE,
            NO_OWNER,
        );
        Taken {
            left: number.wrapping_add(number),
            is_counted: true,
            ..taken
        }
    } else {
        put(listed, taken.words as usize, number);
        Taken {
            words: taken.words.wrapping_add(1),
            left: taken.left - 1,
            ..taken
        }
    }
}

// Stores the records and the points of the rings whose numbers these are.
fn take_rings(rings: &[u32], records: &mut [u32; NUMBERS], listed: &mut [u32; NUMBERS]) -> Taken {
    let mut taken = Taken {
        rings: 0,
        words: 0,
        left: 0,
        is_counted: false,
    };
    for number in rings {
        taken = take(taken, *number, records, listed);
    }
    taken
}

// The counts of a grid at one threshold from S, H and R.
fn counts_of(set: &[u32]) -> Counts {
    let segments = word(set, 0);
    let rings = word(set, 2);
    Counts {
        segments,
        peak: word(set, 1),
        rings,
        points: segments.wrapping_add(rings),
    }
}

// Whether the rings that were taken are whole, and as many as counted.
fn is_whole(taken: Taken, counts: Counts) -> bool {
    taken.left == 0
        && taken.rings == counts.rings
        && taken.words == counts.points.wrapping_add(counts.points)
}

// Whether the case holds with these records and points, as a whole and row by row.
fn taken_holds(
    case: Case,
    records: &[u32; NUMBERS],
    listed: &[u32; NUMBERS],
    values: &[f64; VALUES],
) -> bool {
    both_hold(case, records, listed, values) & rows_hold(case, records, listed, values)
}

// Whether the grid of this line is replayed without a difference at this threshold under this rule.
fn rings_hold_at(line: &[u32], threshold: f64, rule: Rule) -> bool {
    let set = after(line, 2 + word(line, 1) as usize);
    let counts = counts_of(set);
    let list = pair_of(threshold, threshold, rule);
    let case = case_of(Build::Rings, line, counts, list, PLAIN);
    let mut records = [0u32; NUMBERS];
    let mut listed = [0u32; NUMBERS];
    let taken = take_rings(after(set, 3), &mut records, &mut listed);
    let mut values = [0.0f64; VALUES];
    let rows = after(line, 2);
    fill(
        &mut values,
        case.samples,
        |i| f64::from(sample(rows, case.dx, i)),
    );
    is_whole(taken, counts) & taken_holds(case, &records, &listed, &values)
}

// Whether the grid of this line is replayed without a difference. Its samples are 0 and 1: those that are at least 1 are those that are more than 0.
pub fn rings_hold(line: &[u32]) -> bool {
    rings_hold_at(line, 1.0, Rule::AtLeast) & rings_hold_at(line, 0.0, Rule::MoreThan)
}
