// The builds by records, tried: one function lends the first `n` records of an array of its own, and hands the whole array back by value with the answer, so
// that a program can look at every record. It only tests, so all that is proved of it is that it is safe and ends.
use crate::calls::level;
use crate::cases::{Build, Case, Drawing, List};
use crate::tables::front_mut;
use error::Refusal;
use records::{contour_records, isoband_records, line_records, ring_records};
use ringrecord::{Fate, RingRecord};

// How many records the array has.
pub const ROOM: usize = 128;

// What every record holds before a build. None writes such a record: no hole has an owner of this number, and no ring an odd area.
const SOILED: RingRecord = RingRecord {
    first: u32::MAX,
    count: 0,
    fate: Fate::Hole(u32::MAX),
    area: 1,
};

// What a build answered, and the array that it was lent the front of.
#[derive(Clone, Copy)]
pub struct Tried {
    pub answer: Result<u32, Refusal>,
    pub records: [RingRecord; ROOM],
}

// Whether a record is as it was before the build.
pub fn is_soiled(record: RingRecord) -> bool {
    record == SOILED
}

// What a case's build answers that is lent the first `n` records, and the array. Only that of lines writes floats, and it writes no other points.
pub fn run_tried(
    case: Case,
    grid: &[f64],
    thresholds: &[f64],
    lines: &mut [u32],
    links: &mut [u32],
    points: &mut [u16],
    floats: &mut [f64],
    directory: &mut [u32],
    n: usize,
) -> Tried {
    let level = level(case);
    let List { rule, k, .. } = case.list;
    let Drawing { smooth, placement } = case.drawing;
    let Case { dx, dy, .. } = case;
    let mut records = [SOILED; ROOM];
    let lent = front_mut(&mut records, n);
    let answer = match case.build {
        Build::Rings => ring_records(grid, level, dx, dy, lines, links, points, directory, lent),
        Build::Contour => contour_records(
            grid, level, dx, dy, lines, links, points, directory, lent,
        ),
        Build::Band => isoband_records(
            grid, thresholds, rule, k, dx, dy, lines, links, points, directory, lent,
        ),
        Build::Lines => line_records(
            grid, level, dx, dy, smooth, placement, lines, links, floats, directory, lent,
        ),
    };
    Tried { answer, records }
}
