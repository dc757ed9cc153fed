// The rings of a terrain that comes row by row: begin, a row of values at a time, and end. Each row or end draws one row of cells and gives out the rings that
// close in it. Between two calls the state has the last row's samples, the open table the unfinished lines, and the link table their segments. A call is tried
// over the frontier's words before it changes anything else, so that it is taken whole or refused whole.
#![tactic(auto)]

ghost use Rattle.std.specs.Prelude.{◌≡◌, not, ◌&&◌, ltb, leb, ◌≤◌, length};
ghost use Rattle.scope.specs.Limits.{side_limit};
ghost use Rattle.grid.specs.Grid.{Sized, bad_side};
ghost use Rattle.rows.specs.Called.{row_words, no_words, blank, begun_state, begun_answer, tried, lines_tried, answer_by, lines_restored, taken, advanced, row_called, end_called};
ghost use Rattle.rows.specs.Values.{outcome_of};

use error::Refusal;
use giving::{Play, file_lines, give_row};
use grid::Grid;
use isoringbuilder::{link_words, open_words};
use limits::{RECORD_STRIDE, SIDE_LIMIT};
use packing::clear;
use scan::{ROW_WORDS, lower_word};
use scope::Level;
use trying::{Trial, note_lines, try_row};
use words::SAMPLES;

// What a terrain that comes row by row has come to: its sides and its level; how many rows of cells are drawn; the open lines and the most there ever were; of
// the links the first free one, how many were ever used and how many are held; and the samples of the last row.
#[derive(Clone, Copy)]
pub struct Rows {
    pub level: Level,
    pub dx: u32,
    pub dy: u32,
    pub drawn: u32,
    pub count: u32,
    pub peak: u32,
    pub spare: u32,
    pub fresh: u32,
    pub held: u32,
    pub above: [u64; ROW_WORDS],
}

// The state after a call, and what the call answers: how many rings it has given out, or why it was refused, which leaves the state as it was.
// Kept: a struct and no `Result` of the state, since a refused call promises which state it leaves.
#[derive(Clone, Copy)]
pub struct Step {
    pub state: Rows,
    pub answer: Result<u32, Refusal>,
}

// Whether a side is within the limit.
#[tactic(auto, unfolding(scope::specs::Limits::side_limit))]
fn side_fits(side: usize) -> bool
    ensures { result ≡ ltb 0 side && leb side side_limit }
{
    (1..=SIDE_LIMIT).contains(&side)
}

// Whether both sides are within the limit.
fn sides_fit(dx: usize, dy: usize) -> bool
    ensures { result ≡ not (bad_side dx dy) }
{
    side_fits(dx) & side_fits(dy)
}

// A state before the first row.
fn blank(level: Level, dx: u32, dy: u32) -> Rows
    ensures { result ≡ blank level dx dy }
{
    Rows {
        level,
        dx,
        dy,
        drawn: 0,
        count: 0,
        peak: 0,
        spare: 0,
        fresh: 0,
        held: 0,
        above: [0; ROW_WORDS],
    }
}

// The state before the first row. Number 1 where a side is not within the limit, and then no row is taken.
pub fn begin(level: Level, dx: usize, dy: usize) -> Step
    ensures { result ≡ record { state = begun_state level dx dy; answer = begun_answer dx dy } }
{
    if sides_fit(dx, dy) {
        return Step {
            state: blank(level, dx as u32, dy as u32),
            answer: Ok(0),
        };
    }
    Step {
        state: blank(level, 0, 0),
        answer: Err(Refusal::BadSide),
    }
}

// The samples of a row of values as words.
#[tactic(auto, unfolding(scope::specs::Limits::side_limit))]
fn sample_words(values: &[f64], level: Level, dx: usize, row: &mut [u64; ROW_WORDS])
    requires sized { Sized (length values.now) dx 1 }
    requires row_value { row.old ≡ no_words }
    ensures { row.new ≡ row_words level values.now dx }
{
    let grid = Grid { values, dx, dy: 1 };
    for w in 0..dx / SAMPLES + 1 {
        row[w] = lower_word(grid, level, 0, SAMPLES * w);
    }
}

// What a row of cells comes to that begins with these counts: the trial is played over the frontier's words, but for the first row, whose cells meet no line.
fn trial_of(state: Rows, lower: &[u64; ROW_WORDS], lines: &mut [u32]) -> Trial
    requires { state.dx ≤ side_limit }
    ensures value { result ≡ (tried state lower.now lines.old).trial }
    ensures lines_after { lines.new ≡ lines_tried state lower.now lines.old }
{
    let start = Trial {
        lines: state.count,
        peak: state.count,
        held: state.held,
        most: state.held,
        rings: 0,
        points: 0,
    };
    if state.drawn == 0 {
        let mut none = [0u32; 1];
        return try_row(&state.above, lower, state.dx, &mut none, start);
    }
    try_row(&state.above, lower, state.dx, lines, start)
}

// The answer to a row of cells that comes to this, lent that many words and records.
#[tactic(auto, unfolding(crate::specs::Called::answer_by))]
fn answer_of(
    trial: Trial,
    dx: usize,
    lines: usize,
    links: usize,
    points: usize,
    records: usize,
) -> Result<u32, Refusal>
    requires { dx ≤ side_limit }
    ensures { result ≡ answer_by dx lines links points records trial }
{
    if lines < open_words(dx, trial.peak) {
        return Err(Refusal::OpenShort);
    }
    if links < link_words(trial.most) {
        return Err(Refusal::LinksShort);
    }
    if points < 2 * (trial.points as usize) {
        return Err(Refusal::PointsShort);
    }
    if records < trial.rings as usize {
        return Err(Refusal::DirectoryShort);
    }
    Ok(trial.rings)
}

// The frontier behind a trial that was refused: noted anew, but for the first row, which was not tried over it.
#[tactic(auto, unfolding(crate::specs::Called::lines_restored))]
fn restore(lines: &mut [u32], links: &[u32], dx: u32, drawn: u32, count: u32)
    requires { dx ≤ side_limit }
    ensures { lines.new ≡ lines_restored dx drawn count links.now lines.old }
{
    if drawn != 0 {
        note_lines(lines, links, dx, count);
    }
}

// A row of cells, whose lower samples these are, drawn. Its trial has come to this peak and to that many rings.
#[tactic(auto, unfolding(scope::specs::Limits::side_limit))]
fn draw(
    state: Rows,
    lower: &[u64; ROW_WORDS],
    peak: u32,
    rings: u32,
    lines: &mut [u32],
    links: &mut [u32],
    points: &mut [u16],
    directory: &mut [u32],
) -> Step
    requires { (state.dx ≤ side_limit) × (state.drawn ≤ side_limit) }
    ensures { outcome_of result lines.new links.new points.new directory.new
        ≡ taken state lower.now lines.old links.old points.old directory.old peak rings }
{
    let dx = state.dx;
    file_lines(lines, links, dx, state.count);
    let start = Play {
        count: state.count,
        spare: state.spare,
        fresh: state.fresh,
        held: state.held,
        rings: 0,
        points: 0,
    };
    let play = give_row(
        &state.above,
        lower,
        dx,
        state.drawn,
        lines,
        links,
        points,
        directory,
        start,
    );
    note_lines(lines, links, dx, play.count);
    let next = Rows {
        drawn: state.drawn + 1,
        count: play.count,
        peak: state.peak.max(peak),
        spare: play.spare,
        fresh: play.fresh,
        held: play.held,
        above: *lower,
        ..state
    };
    Step {
        state: next,
        answer: Ok(rings),
    }
}

// A row of cells, whose lower samples these are, tried and then drawn.
fn advance(
    state: Rows,
    lower: &[u64; ROW_WORDS],
    lines: &mut [u32],
    links: &mut [u32],
    points: &mut [u16],
    directory: &mut [u32],
) -> Step
    requires { (state.dx ≤ side_limit) × (state.drawn ≤ side_limit) }
    ensures { outcome_of result lines.new links.new points.new directory.new
        ≡ advanced state lower.now lines.old links.old points.old directory.old }
{
    let dx = state.dx;
    let room = lines.len();
    if room < open_words(dx as usize, state.count) {
        return Step {
            state,
            answer: Err(Refusal::OpenShort),
        };
    }
    let trial = trial_of(state, lower, lines);
    let records = directory.len() / RECORD_STRIDE;
    let answer = answer_of(trial, dx as usize, room, links.len(), points.len(), records);
    let Ok(rings) = answer else {
        restore(lines, links, dx, state.drawn, state.count);
        return Step { state, answer };
    };
    draw(
        state, lower, trial.peak, rings, lines, links, points, directory,
    )
}

// The next row of values. Number 13 where it has not a value for each column, 14 where all rows are there; then 5 to 8.
pub fn row(
    state: Rows,
    values: &[f64],
    lines: &mut [u32],
    links: &mut [u32],
    points: &mut [u16],
    directory: &mut [u32],
) -> Step
    ensures { outcome_of result lines.new links.new points.new directory.new
        ≡ row_called state values.now lines.old links.old points.old directory.old }
{
    if values.len() != state.dx as usize {
        return Step {
            state,
            answer: Err(Refusal::BadRow),
        };
    }
    if !sides_fit(state.dx as usize, state.dy as usize) | (state.dy <= state.drawn) {
        return Step {
            state,
            answer: Err(Refusal::BadTurn),
        };
    }
    let mut lower = [0u64; ROW_WORDS];
    sample_words(values, state.level, state.dx as usize, &mut lower);
    advance(state, &lower, lines, links, points, directory)
}

// The last row of cells, below the last row of values. Number 14 where a row of values is still to come, or where the end was taken; then 5 to 8. Afterwards the
// words that the calls have used are 0.
pub fn end(
    state: Rows,
    lines: &mut [u32],
    links: &mut [u32],
    points: &mut [u16],
    directory: &mut [u32],
) -> Step
    ensures { outcome_of result lines.new links.new points.new directory.new
        ≡ end_called state lines.old links.old points.old directory.old }
{
    if !sides_fit(state.dx as usize, state.dy as usize) | (state.drawn != state.dy) {
        return Step {
            state,
            answer: Err(Refusal::BadTurn),
        };
    }
    let lower = [0u64; ROW_WORDS];
    let step = advance(state, &lower, lines, links, points, directory);
    if step.answer.is_ok() {
        clear(lines, open_words(step.state.dx as usize, step.state.peak));
        clear(links, link_words(step.state.fresh));
    }
    step
}
