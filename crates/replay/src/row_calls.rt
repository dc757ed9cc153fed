// Calls of the row form on a grid: in turn and out of turn, with a row that is a value short, and with a table withheld; and whether a call is refused as expected
// and leaves the state as it was.
use crate::calls::level;
use crate::cases::{Case, one_less_if};
use crate::tables::{SOIL, SOILED, WORDS, front};
use cells::rule_number;
use error::Refusal;
use rows::{Rows, Step, begin, end, row};
use scan::ROW_WORDS;
use scope::Level;

// The refusals for a table that is short, in the order in which the tables are lent.
const SHORT: [Refusal; 4] = [
    Refusal::OpenShort,
    Refusal::LinksShort,
    Refusal::PointsShort,
    Refusal::DirectoryShort,
];

// A call that was not refused for the table that was withheld, if one was, with that table's refusal.
#[derive(Clone, Copy)]
pub struct Answer {
    pub step: Step,
    pub withheld: Option<Refusal>,
}

pub fn call_begin(case: Case) -> Step {
    begin(level(case), case.dx, case.dy)
}

// A row with these values, or the end.
fn call(
    state: Rows,
    is_end: bool,
    values: &[f64],
    lines: &mut [u32],
    links: &mut [u32],
    points: &mut [u16],
    directory: &mut [u32],
) -> Step {
    if is_end {
        end(state, lines, links, points, directory)
    } else {
        row(state, values, lines, links, points, directory)
    }
}

// The same, lent nothing.
fn call_bare(state: Rows, is_end: bool, values: &[f64]) -> Step {
    let mut lines = [SOIL; 0];
    let mut links = [SOIL; 0];
    let mut points = [SOILED; 0];
    let mut directory = [SOIL; 0];
    call(
        state,
        is_end,
        values,
        &mut lines,
        &mut links,
        &mut points,
        &mut directory,
    )
}

// The same, lent every table but for that for which there is this refusal.
fn call_without(
    state: Rows,
    is_end: bool,
    values: &[f64],
    withheld: Option<Refusal>,
    lines: &mut [u32; WORDS],
    links: &mut [u32; WORDS],
    points: &mut [u16; WORDS],
    directory: &mut [u32; WORDS],
) -> Step {
    let mut no_words = [SOIL; 0];
    let mut no_points = [SOILED; 0];
    match withheld {
        Some(Refusal::OpenShort) => call(
            state,
            is_end,
            values,
            &mut no_words,
            links,
            points,
            directory,
        ),
        Some(Refusal::LinksShort) => call(
            state,
            is_end,
            values,
            lines,
            &mut no_words,
            points,
            directory,
        ),
        Some(Refusal::PointsShort) => call(
            state,
            is_end,
            values,
            lines,
            links,
            &mut no_points,
            directory,
        ),
        Some(Refusal::DirectoryShort) => call(
            state,
            is_end,
            values,
            lines,
            links,
            points,
            &mut no_words,
        ),
        _ => call(state, is_end, values, lines, links, points, directory),
    }
}

// Whether two levels are the same.
fn same_level(one: Level, other: Level) -> bool {
    (one.threshold == other.threshold) & (rule_number(one.rule) == rule_number(other.rule))
}

// Whether two states have the same level and sides and have come equally far.
fn same_place(one: Rows, other: Rows) -> bool {
    same_level(one.level, other.level)
        & (one.dx == other.dx)
        & (one.dy == other.dy)
        & (one.drawn == other.drawn)
}

// Whether two states have the same numbers of lines and links.
fn same_counts(one: Rows, other: Rows) -> bool {
    (one.count == other.count)
        & (one.peak == other.peak)
        & (one.spare == other.spare)
        & (one.fresh == other.fresh)
        & (one.held == other.held)
}

fn same_state(one: Rows, other: Rows) -> bool {
    same_place(one, other) & same_counts(one, other) & (one.above == other.above)
}

// Whether a call in this state was refused so and has left the state as it was.
fn is_refused(state: Rows, step: Step, refusal: Refusal) -> bool {
    (step.answer == Err(refusal)) & same_state(state, step.state)
}

// Whether a row is refused that is a value short of these.
pub fn short_refused(state: Rows, values: &[f64]) -> bool {
    let short = front(values, one_less_if(true, values.len()));
    is_refused(state, call_bare(state, false, short), Refusal::BadRow)
}

// Whether a call is refused that is out of turn: a row with these values, or the end.
pub fn turn_refused(state: Rows, is_end: bool, values: &[f64]) -> bool {
    is_refused(state, call_bare(state, is_end, values), Refusal::BadTurn)
}

// Whether a call is tried without the table of this refusal: without links only as long as none was used, since the words that a call leaves are lent to the next.
fn is_tried(state: Rows, withheld: Refusal) -> bool {
    withheld != Refusal::LinksShort || state.fresh == 0
}

// The call, tried without each of the tables, until it is not refused for that.
pub fn climb(
    state: Rows,
    is_end: bool,
    values: &[f64],
    lines: &mut [u32; WORDS],
    links: &mut [u32; WORDS],
    points: &mut [u16; WORDS],
    directory: &mut [u32; WORDS],
) -> Answer {
    for short in &SHORT {
        let withheld = Some(*short);
        if is_tried(state, *short) {
            let step = call_without(
                state, is_end, values, withheld, lines, links, points, directory,
            );
            if !is_refused(state, step, *short) {
                return Answer { step, withheld };
            }
        }
    }
    let step = call_without(state, is_end, values, None, lines, links, points, directory);
    Answer {
        step,
        withheld: None,
    }
}
