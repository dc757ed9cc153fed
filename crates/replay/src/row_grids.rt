// A grid that is run row by row, held to the rings that are expected of the whole grid. Work tables that are soil beforehand are lent to all its calls, and each
// call has points and a directory of its own. Before each call others are made that must be refused and leave the state as it was: calls out of turn, a row that
// is a value short, and the call itself with a table withheld. After the end the words that the calls have used are zero, and the others soil.
use crate::calls::VALUES;
use crate::cases::{Case, SPARE};
use crate::row_calls::{Answer, call_begin, climb, short_refused, turn_refused};
use crate::tables::{SOIL, SOILED, WORDS, after, floats_part, points_hold, words_hold};
use error::Refusal;
use lent::{put, word};
use limits::RECORD_STRIDE;
use rows::Rows;

// What the calls so far have come to: the state, how many rings they gave out, and whether they did as expected.
#[derive(Clone, Copy)]
struct Run {
    state: Rows,
    rings: u32,
    holds: bool,
}

// Whether a call may have given out this many rings, and may have used links, without that table: what closes no ring needs neither points nor directory, and what
// draws nothing no links. A call that was lent every table was refused points and directory before, and so closes a ring.
fn needs_hold(withheld: Option<Refusal>, rings: u32, fresh: u32) -> bool {
    match withheld {
        None => 0 < rings,
        Some(Refusal::PointsShort) => rings == 0,
        Some(Refusal::LinksShort) => rings == 0 && fresh == 0,
        Some(_) => false,
    }
}

// How many points the first rings of a directory have.
fn points_before(records: &[u32], rings: u32) -> u32 {
    if rings == 0 {
        return 0;
    }
    let at = RECORD_STRIDE * ((rings - 1) as usize);
    word(records, at).wrapping_add(word(records, at + 1))
}

// Moves the first points of this many rings on by so many points.
fn move_records(directory: &mut [u32; WORDS], rings: u32, by: u32) {
    for k in 0..rings {
        let at = RECORD_STRIDE * (k as usize);
        let first = word(directory, at);
        put(directory, at, first.wrapping_add(by));
    }
}

// Whether the first words of the points are these many of the list, and those behind them soil.
fn packed_hold(points: &[u16; WORDS], count: u32, listed: &[u32]) -> bool {
    let words = 2 * (count as usize);
    points_hold(points, words + SPARE, words, listed)
}

// Whether the first records of a directory are these many of the list, and the words behind them soil.
fn records_hold(directory: &[u32; WORDS], rings: u32, records: &[u32]) -> bool {
    let words = RECORD_STRIDE * (rings as usize);
    words_hold(directory, words + SPARE, words, records, 0)
}

// Whether a call has given out these many rings of the list, from this ring on. Behind the last ring of the list there are no points.
fn given_hold(
    from: u32,
    rings: u32,
    records: &[u32],
    listed: &[u32],
    points: &[u16; WORDS],
    directory: &mut [u32; WORDS],
) -> bool {
    let first = points_before(records, from);
    let next = points_before(records, from.wrapping_add(rings));
    move_records(directory, rings, first);
    let count = next.saturating_sub(first);
    packed_hold(points, count, after(listed, 2 * (first as usize)))
        & records_hold(
            directory,
            rings,
            after(records, RECORD_STRIDE * (from as usize)),
        )
}

// The run after a call that has given out this many rings.
fn advanced(run: Run, state: Rows, rings: u32, holds: bool) -> Run {
    Run {
        state,
        rings: run.rings.wrapping_add(rings),
        holds: run.holds & holds,
    }
}

// The run after a call with this answer, held to the rings that are expected next.
fn judged(
    run: Run,
    answer: Answer,
    records: &[u32],
    listed: &[u32],
    points: &[u16; WORDS],
    directory: &mut [u32; WORDS],
) -> Run {
    let state = answer.step.state;
    match answer.step.answer {
        Err(_) => advanced(run, state, 0, false),
        Ok(rings) => {
            let holds = needs_hold(answer.withheld, rings, state.fresh)
                & given_hold(run.rings, rings, records, listed, points, directory);
            advanced(run, state, rings, holds)
        }
    }
}

// The run after one call more.
fn called(
    run: Run,
    is_end: bool,
    values: &[f64],
    records: &[u32],
    listed: &[u32],
    lines: &mut [u32; WORDS],
    links: &mut [u32; WORDS],
) -> Run {
    let mut points = [SOILED; WORDS];
    let mut directory = [SOIL; WORDS];
    let answer = climb(
        run.state,
        is_end,
        values,
        lines,
        links,
        &mut points,
        &mut directory,
    );
    judged(run, answer, records, listed, &points, &mut directory)
}

// The run after calls that must be refused: a row that is a value short of these, and the end before the last row or a row before the end.
fn refused(run: Run, is_end: bool, values: &[f64]) -> Run {
    let state = run.state;
    let holds = short_refused(state, values) & turn_refused(state, !is_end, values);
    advanced(run, state, 0, holds)
}

// The run after a turn: calls that are refused, and then a row with these values, or the end.
fn turned(
    run: Run,
    is_end: bool,
    values: &[f64],
    records: &[u32],
    listed: &[u32],
    lines: &mut [u32; WORDS],
    links: &mut [u32; WORDS],
) -> Run {
    let tried = refused(run, is_end, values);
    called(tried, is_end, values, records, listed, lines, links)
}

// The row of dx values that begins with this one.
fn row_from(values: &[f64; VALUES], from: usize, dx: usize) -> &[f64] {
    floats_part(values, from, from.wrapping_add(dx))
}

// The run before the first row.
fn begun(case: Case) -> Run {
    let step = call_begin(case);
    Run {
        state: step.state,
        rings: 0,
        holds: step.answer == Ok(0),
    }
}

// The run after a row for each of dy rows.
fn run_rows(
    begun: Run,
    dx: usize,
    dy: usize,
    records: &[u32],
    listed: &[u32],
    values: &[f64; VALUES],
    lines: &mut [u32; WORDS],
    links: &mut [u32; WORDS],
) -> Run {
    let mut run = begun;
    let mut from = 0;
    for _ in 0..dy {
        let row = row_from(values, from, dx);
        run = turned(run, false, row, records, listed, lines, links);
        from = from.wrapping_add(dx);
    }
    run
}

// Whether a row and an end are refused after the end.
fn closed_hold(state: Rows, values: &[f64]) -> bool {
    turn_refused(state, false, values) & turn_refused(state, true, values)
}

// Whether the words of a work table that were used are zero, and no more than there is room for, and those behind them soil.
fn spent_hold(table: &[u32; WORDS], room: usize, used: usize) -> bool {
    let none = [0u32; 0];
    (used <= room) & words_hold(table, room.wrapping_add(SPARE), used, &none, 0)
}

// Whether the run of a whole grid has given out all rings as expected, takes no call more, and has left the work tables as it should.
fn run_holds(
    case: Case,
    run: Run,
    values: &[f64],
    lines: &[u32; WORDS],
    links: &[u32; WORDS],
) -> bool {
    let state = run.state;
    run.holds
        & (run.rings == case.counts.rings)
        & closed_hold(state, values)
        & spent_hold(lines, case.room.open, case.room.open)
        & spent_hold(links, case.room.linked, 2 * (state.fresh as usize))
}

// Whether a grid gives the same rings row by row, with these records and points.
pub fn rows_hold(case: Case, records: &[u32], listed: &[u32], values: &[f64; VALUES]) -> bool {
    let mut lines = [SOIL; WORDS];
    let mut links = [SOIL; WORDS];
    let run = run_rows(
        begun(case),
        case.dx,
        case.dy,
        records,
        listed,
        values,
        &mut lines,
        &mut links,
    );
    let row = row_from(values, 0, case.dx);
    let ended = turned(run, true, row, records, listed, &mut lines, &mut links);
    run_holds(case, ended, row, &lines, &links)
}
