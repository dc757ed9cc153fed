// One cell of a grid, drawn over the open table and the link table by its number. The tables may be of any length and hold anything: every step is total, as the
// table machine is, which each contract cites.
#![tactic(auto)]

ghost use Rattle.std.specs.Prelude.{◌≡◌, ◌+◌, ◌^◌, ◌<◌};
ghost use Rattle.scope.specs.Cells.{◌⟶◌};
ghost use Rattle.cells.specs.Sides.{sides_of, stroke_at};
ghost use Rattle.machine.specs.Machine.{side_word, entry_of};
ghost use Rattle.lines.specs.Values.{edges_of};
ghost use Rattle.drawing.specs.Values.{Within, points_of, run_of, number_drawn, point_at, is_met, line_at, stroke_drawn};

use cells::{Stroke, point_index, stroke_at};
use lines::{Entry, Progress, append, connect, entry_of, prepend, start};
use scope::Side;

// How far the pass has come: the progress of stitching, and the number of the next link.
#[derive(Clone, Copy)]
pub struct Run {
    pub progress: Progress,
    pub next: u32,
}

// The indexes of the points on a cell's four sides.
#[derive(Clone, Copy)]
pub struct Points {
    pub left: u32,
    pub right: u32,
    pub top: u32,
    pub bottom: u32,
}

// The points on the sides of cell (`c`, `r`).
#[tactic(auto, unfolding(scope::specs::Limits::side_limit, scope::specs::Cells::point_of, scope::specs::Cells::point_index))]
pub fn points_of(dx: u32, c: u32, r: u32) -> Points
    requires { Within dx c r }
    ensures { result ≡ points_of dx c r }
{
    let x = 2 * c;
    let y = 2 * r;
    Points {
        left: point_index(x.saturating_sub(1), y, dx),
        right: point_index(x + 1, y, dx),
        top: point_index(x, y.saturating_sub(1), dx),
        bottom: point_index(x, y + 1, dx),
    }
}

// A cell before it is drawn: its place in a grid of `dx` columns, the lines that the frontier has at its left and its top, and the points on its sides.
#[derive(Clone, Copy)]
pub struct Cell {
    pub dx: u32,
    pub c: u32,
    pub r: u32,
    pub met: Entry,
    pub at: Points,
    ghost points_are: { at ≡ points_of dx c r },
}

// Cell (`c`, `r`), whose lines the frontier has now.
pub fn cell_of(lines: &[u32], dx: u32, c: u32, r: u32) -> Cell
    requires { Within dx c r }
    ensures place { (result.dx ≡ dx) × (result.c ≡ c) × (result.r ≡ r) }
    ensures lines_met { edges_of result.met ≡ entry_of dx lines.now c }
{
    Cell {
        dx,
        c,
        r,
        met: entry_of(lines, dx, c),
        at: points_of(dx, c, r),
    }
}

// The index of the point on a side.
pub fn point_at(at: Points, side: Side) -> u32
    ensures { result ≡ point_at at side }
{
    match side {
        Side::Left => at.left,
        Side::Right => at.right,
        Side::Top => at.top,
        Side::Bottom => at.bottom,
    }
}

// Whether a line may end or start on a side before the cell is drawn: on the left and the top.
pub fn meets(side: Side) -> bool
    ensures { result ≡ is_met side }
{
    match side {
        Side::Left | Side::Top => true,
        Side::Right | Side::Bottom => false,
    }
}

// The slot of the line on a side that has one.
pub fn line_at(met: Entry, side: Side) -> u32
    ensures { result ≡ line_at (edges_of met) side }
{
    match side {
        Side::Left => met.left,
        _ => met.top,
    }
}

// The frontier word of a side of a cell in column `c`.
#[tactic(auto, unfolding(machine::specs::Machine::side_word))]
pub fn word_at(dx: u32, c: u32, side: Side) -> usize
    ensures { result ≡ side_word dx c side }
{
    match side {
        Side::Left | Side::Right => dx as usize + 1,
        Side::Top | Side::Bottom => c as usize,
    }
}

// The side where the first stroke of the cell with this number starts: the left one where it draws none. No arm has two numbers in a row, so that the compiler
// takes each arm for a list of numbers.
#[tactic(auto, unfolding(scope::specs::Cells::drawn, scope::specs::Cells::case_table, cells::specs::Sides::stroke_at))]
fn first_from(number: usize) -> Side
    ensures { result ≡ (sides_of (stroke_at number 0)).from }
{
    match number {
        1 | 5 | 9 | 13 => Side::Bottom,
        2 | 11 => Side::Right,
        3 => Side::Right,
        4 | 6 => Side::Top,
        7 => Side::Top,
        _ => Side::Left,
    }
}

// The side where it ends.
#[tactic(auto, unfolding(scope::specs::Cells::drawn, scope::specs::Cells::case_table, cells::specs::Sides::stroke_at))]
fn first_to(number: usize) -> Side
    ensures { result ≡ (sides_of (stroke_at number 0)).to }
{
    match number {
        2 | 6 | 14 => Side::Bottom,
        4 | 12 => Side::Right,
        13 => Side::Right,
        8 | 10 => Side::Top,
        9 | 11 => Side::Top,
        _ => Side::Left,
    }
}

// The first stroke of the cell with this number, read without the case table, which a number that is not known beforehand makes dear.
pub fn first_stroke(number: usize) -> Stroke
    ensures { result ≡ sides_of (stroke_at number 0) }
{
    Stroke {
        from: first_from(number),
        to: first_to(number),
    }
}

// A stroke of a cell, drawn as the next link by the rule that its sides call for: by whether a line may end where it starts, and whether one may
// start where it ends. `connect` is called in two places so that the compiler leaves it a call, and puts the rest into the arms of `draw_cell`.
fn draw_stroke(lines: &mut [u32], links: &mut [u32], before: Run, cell: Cell, stroke: Stroke) -> Run
    requires { before.next + 1 < 2 ^ 32 }
    ensures { run_of lines.new links.new result
        ≡ stroke_drawn cell.dx cell.c (edges_of cell.met) cell.at (run_of lines.old links.old before) (stroke.from ⟶ stroke.to) }
{
    let p = before.progress;
    let k = before.next;
    let next = k + 1;
    let dx = cell.dx;
    let met = cell.met;
    let at = cell.at;
    let from = stroke.from;
    let to = stroke.to;
    let s = point_at(at, from);
    let e = point_at(at, to);
    let f = line_at(met, from);
    let g = line_at(met, to);
    let ws = word_at(dx, cell.c, from);
    let we = word_at(dx, cell.c, to);
    if meets(from) {
        if meets(to) {
            let progress = match from {
                Side::Left => connect(lines, links, p, dx, k, at.left, met.left, g),
                _ => connect(lines, links, p, dx, k, at.top, met.top, g),
            };
            return Run { progress, next };
        }
        let progress = append(lines, links, p, dx, k, s, f, e, we);
        return Run { progress, next };
    }
    if meets(to) {
        let progress = prepend(lines, links, p, dx, k, s, g, ws);
        return Run { progress, next };
    }
    let progress = start(lines, links, p, dx, k, s, e, ws, we);
    Run { progress, next }
}

// The cell (`c`, `r`), whose number this is: the strokes of the case table, one or two. Each meets the lines that the frontier has at the left and the top
// before the first is drawn. An arm names its row, so that the compiler knows the strokes there, and a cell takes one branch. The caller sees that the numbers
// of two links more fit.
pub fn draw_cell(
    lines: &mut [u32],
    links: &mut [u32],
    before: Run,
    dx: u32,
    c: u32,
    r: u32,
    number: usize,
) -> Run
    requires within { Within dx c r }
    requires next_bound { before.next + 2 < 2 ^ 32 }
    ensures { run_of lines.new links.new result
        ≡ number_drawn dx (run_of lines.old links.old before) number c r }
{
    let cell = cell_of(lines, dx, c, r);
    match number {
        1 => draw_stroke(lines, links, before, cell, stroke_at(1, 0)),
        2 => draw_stroke(lines, links, before, cell, stroke_at(2, 0)),
        3 => draw_stroke(lines, links, before, cell, stroke_at(3, 0)),
        4 => draw_stroke(lines, links, before, cell, stroke_at(4, 0)),
        5 => {
            let one = draw_stroke(lines, links, before, cell, stroke_at(5, 0));
            draw_stroke(lines, links, one, cell, stroke_at(5, 1))
        }
        6 => draw_stroke(lines, links, before, cell, stroke_at(6, 0)),
        7 => draw_stroke(lines, links, before, cell, stroke_at(7, 0)),
        8 => draw_stroke(lines, links, before, cell, stroke_at(8, 0)),
        9 => draw_stroke(lines, links, before, cell, stroke_at(9, 0)),
        10 => {
            let one = draw_stroke(lines, links, before, cell, stroke_at(10, 0));
            draw_stroke(lines, links, one, cell, stroke_at(10, 1))
        }
        11 => draw_stroke(lines, links, before, cell, stroke_at(11, 0)),
        12 => draw_stroke(lines, links, before, cell, stroke_at(12, 0)),
        13 => draw_stroke(lines, links, before, cell, stroke_at(13, 0)),
        14 => draw_stroke(lines, links, before, cell, stroke_at(14, 0)),
        _ => before,
    }
}
