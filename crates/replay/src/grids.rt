// What the lines of a text share: a case from its sides and counts, and the parts of a set, which is S, H, R, the number of points and the records. A record is
// listed by five numbers: first point, point count, class, owner and area, which has two words in a directory.
ghost use Rattle.std.specs.Prelude.{◌<◌};

use crate::areas::{high_word, low_word};
use crate::calls::VALUES;
use crate::cases::{Build, Case, Counts, Drawing, List, exact_room};
use crate::recorded::both_hold;
use crate::tables::after;
use crate::text::NUMBERS;
use lent::{put, word};
use limits::RECORD_STRIDE;
use scope::Rule;
use smoothing::Placement;

// The numbers of a set before its records, and those of a record.
const BEFORE_RECORDS: usize = 4;

const LISTED: usize = 5;

// Lines as they are drawn.
pub const PLAIN: Drawing = Drawing {
    smooth: false,
    placement: Placement {
        x_origin: 0.0,
        y_origin: 0.0,
        x_step: 1.0,
        y_step: 1.0,
    },
};

// The only pair of a list, under this rule.
pub fn pair_of(lower: f64, upper: f64, rule: Rule) -> List {
    List {
        lower,
        upper,
        rule,
        from: 1,
        to: 3,
        k: 0,
    }
}

// How many samples a grid of these sides has.
pub fn sample_count(dx: u32, dy: u32) -> usize
    ensures { result < 268435456 }
{
    ((dx % 16384) as usize) * ((dy % 16384) as usize)
}

// A grid of these sides and counts, with all its samples and the room that it needs.
pub fn sized_case(
    build: Build,
    dx: u32,
    dy: u32,
    counts: Counts,
    list: List,
    drawing: Drawing,
) -> Case {
    let room = exact_room(dx, counts);
    Case {
        build,
        list,
        drawing,
        dx: dx as usize,
        dy: dy as usize,
        samples: sample_count(dx, dy),
        counts,
        room,
    }
}

// The grid of a line, which begins with the sides.
pub fn case_of(build: Build, line: &[u32], counts: Counts, list: List, drawing: Drawing) -> Case {
    sized_case(build, word(line, 0), word(line, 1), counts, list, drawing)
}

// The counts that a set begins with.
pub fn counts_of(set: &[u32]) -> Counts {
    Counts {
        segments: word(set, 0),
        peak: word(set, 1),
        rings: word(set, 2),
        points: word(set, 3),
    }
}

// The numbers after the records of a set.
pub fn after_records(set: &[u32]) -> &[u32] {
    after(set, BEFORE_RECORDS + LISTED * (word(set, 2) as usize))
}

// Stores the words of a ring's record but for its area.
pub fn put_record(
    records: &mut [u32; NUMBERS],
    ring: u32,
    first: u32,
    count: u32,
    class: u32,
    owner: u32,
) {
    let at = RECORD_STRIDE * (ring as usize);
    put(records, at, first);
    put(records, at + 1, count);
    put(records, at + 2, class);
    put(records, at + 3, owner);
}

// Stores the words of a ring's area, for which this number stands.
pub fn put_area(records: &mut [u32; NUMBERS], ring: u32, number: u32) {
    let at = RECORD_STRIDE * (ring as usize);
    put(records, at + 4, low_word(number));
    put(records, at + 5, high_word(number));
}

// Stores the words of the record that a list begins with, which is that of this ring.
fn put_listed(records: &mut [u32; NUMBERS], ring: u32, list: &[u32]) {
    put_record(
        records,
        ring,
        word(list, 0),
        word(list, 1),
        word(list, 2),
        word(list, 3),
    );
    put_area(records, ring, word(list, 4));
}

// Stores the words of the records of a set.
pub fn put_records(set: &[u32], records: &mut [u32; NUMBERS]) {
    let mut rest = after(set, BEFORE_RECORDS);
    for ring in 0..word(set, 2) {
        put_listed(records, ring, rest);
        rest = after(rest, LISTED);
    }
}

// Whether a case holds by words and by records, with the records of this set and these points.
pub fn listed_holds(case: Case, set: &[u32], listed: &[u32], values: &[f64; VALUES]) -> bool {
    let mut records = [0u32; NUMBERS];
    put_records(set, &mut records);
    both_hold(case, &records, listed, values)
}
