// A line of the text of lines: sides, smoothing, the rule's number, threshold and placement, the samples, the set of the lines, and their points. A float is
// four numbers, the parts of its pattern.
use crate::calls::VALUES;
use crate::cases::{Build, Drawing};
use crate::grids::{after_records, case_of, counts_of, listed_holds, pair_of, sample_count};
use crate::tables::{after, listed_float};
use cells::rule_of;
use lent::{put, word};
use smoothing::Placement;

// The numbers before the samples.
const BEFORE_SAMPLES: usize = 24;

// Stores this many samples.
fn fill_floats(numbers: &[u32], count: usize, values: &mut [f64; VALUES]) {
    let mut rest = numbers;
    for i in 0..count {
        put(values, i, listed_float(rest));
        rest = after(rest, 4);
    }
}

// The placement whose numbers these are.
fn placement(numbers: &[u32]) -> Placement {
    Placement {
        x_origin: listed_float(numbers),
        y_origin: listed_float(after(numbers, 4)),
        x_step: listed_float(after(numbers, 8)),
        y_step: listed_float(after(numbers, 12)),
    }
}

// Whether the lines of this line of the text are replayed without a difference.
pub fn lines_hold(line: &[u32]) -> bool {
    let samples = after(line, BEFORE_SAMPLES);
    let set = after(samples, 4 * sample_count(word(line, 0), word(line, 1)));
    let listed = after_records(set);
    let threshold = listed_float(after(line, 4));
    let drawing = Drawing {
        smooth: word(line, 2) != 0,
        placement: placement(after(line, 8)),
    };
    let list = pair_of(threshold, threshold, rule_of(word(line, 3)));
    let case = case_of(Build::Lines, line, counts_of(set), list, drawing);
    let mut values = [0.0f64; VALUES];
    fill_floats(samples, case.samples, &mut values);
    (listed.len() == 8 * (word(set, 3) as usize)) & listed_holds(case, set, listed, &values)
}
