// A row of cells drawn over the open table and the link table, with the rings that close in it given out: a ring's points and its record are written to the
// outputs, and then its links are free for other segments. Every function is total, as the row machine is: a word past a table's end reads as 0 and is not
// stored.
#![tactic(auto)]

ghost use Rattle.std.specs.Prelude.{◌≡◌, ◌+◌, ◌-◌, ◌^◌, ◌<◌};
ghost use Rattle.std.proofs.lemmas.List.Edits.{sets};
ghost use Rattle.scope.specs.Cells.{◌⟶◌};
ghost use Rattle.scope.specs.Room.{directory_words};
ghost use Rattle.words.specs.Panes.{Shows, changes_in};
ghost use Rattle.machine.specs.Machine.{word_of};
ghost use Rattle.lines.specs.Values.{edges_of};
ghost use Rattle.drawing.specs.Values.{Within};
ghost use Rattle.sweep.specs.Sweep.{between, swept};
ghost use Rattle.giving.specs.Giving.{link_taken, stock_after, ring_out, given_record, ring_given, stroke_given, number_given, cell_given, row_given, slots_filed};
ghost use Rattle.giving.specs.Values.{given_of};

use cells::{Stroke, stroke_at};
use drawing::{Cell, cell_of, line_at, meets, point_at, word_at};
use lent::put;
use limits::RECORD_STRIDE;
use lines::tables::{column_word, link_point, next_link, put_next, release, slot_at};
use lines::{Progress, append, join, prepend, start};
use measuring::{area_of, put_area};
use packing::{put_index, put_record};
use scan::ROW_WORDS;
use words::{Pane, SAMPLES, bit_at, changes_in, number_in, pane_of, set_bits};

// How far the drawing has come: the open lines; of the links the first free one, how many were ever used and how many are held; and the rings given out
// so far with their points.
#[derive(Clone, Copy)]
pub struct Play {
    pub count: u32,
    pub spare: u32,
    pub fresh: u32,
    pub held: u32,
    pub rings: u32,
    pub points: u32,
}

// The link that the next segment takes: the first free one, or else the number that was never used.
#[tactic(auto, unfolding(crate::specs::Giving::link_taken))]
fn link_taken(p: Play) -> u32
    ensures { result ≡ link_taken p }
{
    if p.held < p.fresh { p.spare } else { p.fresh }
}

// The stock without that link.
#[tactic(auto, unfolding(crate::specs::Giving::stock_after, machine::specs::Machine::word_of))]
fn stock_after(links: &[u32], p: Play) -> Play
    ensures { result ≡ stock_after links.now p }
{
    let held = p.held.wrapping_add(1);
    if p.held < p.fresh {
        return Play {
            spare: next_link(links, p.spare),
            held,
            ..p
        };
    }
    Play {
        fresh: p.fresh.wrapping_add(1),
        held,
        ..p
    }
}

// The progress that the rules of `lines` go by: the open lines alone.
fn progress_of(p: Play) -> Progress
    ensures { result ≡ record { count = p.count; rings = 0; head = 0; tail = 0 } }
{
    Progress {
        count: p.count,
        rings: 0,
        head: 0,
        tail: 0,
    }
}

// The counts with as many open lines as a rule has left.
fn with_count(p: Play, after: Progress) -> Play
    ensures { result ≡ record { count = after.count; spare = p.spare; fresh = p.fresh; held = p.held; rings = p.rings; points = p.points } }
{
    Play {
        count: after.count,
        ..p
    }
}

// Stores the start points of `size` links from link `first` on, then the point of index `end`, then the first point again, two words a point, from word `at`
// on. Past the end of the points nothing is stored, and the walk stops there.
fn write_ring(
    links: &[u32],
    dx: u32,
    first: u32,
    size: u32,
    end: u32,
    points: &mut [u16],
    at: usize,
)
    requires { at < 2 ^ 34 }
    ensures { points.new ≡ sets points.old at (ring_out dx links.now first size end) }
{
    let mut k = first;
    for i in 0..size as usize {
        let place = at + 2 * i;
        if points.len() <= place {
            return;
        }
        put_index(points, dx, link_point(links, k), place);
        k = next_link(links, k);
    }
    let last = at + 2 * (size as usize);
    put_index(points, dx, end, last);
    put_index(points, dx, link_point(links, first), last + 2);
}

// Stores the record of the ring that was just written, of `size` links: its first point, its point count, class and no owner, and then its area.
fn put_ring_record(points: &[u16], directory: &mut [u32], p: Play, size: u32)
    ensures { directory.new ≡ sets directory.old (directory_words p.rings) (given_record points.now p.points size) }
{
    let at = RECORD_STRIDE * (p.rings as usize);
    put_record(directory, at, p.points as u64, size as u64 + 2);
    let count = size.wrapping_add(2);
    let area = area_of(points, p.points, count);
    put_area(directory, at + 4, area);
}

// The counts after a ring of `size` links from link `first` on is given out, with that many open lines left.
#[tactic(auto, unfolding(machine::specs::Machine::word_of))]
fn after_ring(p: Play, count: u32, first: u32, size: u32) -> Play
    ensures { result
        ≡ record { count = count; spare = first; fresh = p.fresh; held = p.held - size; rings = word_of (p.rings + 1); points = word_of (p.points + size + 2) } }
{
    Play {
        count,
        spare: first,
        held: p.held.saturating_sub(size),
        rings: p.rings.wrapping_add(1),
        points: p.points.wrapping_add(size).wrapping_add(2),
        ..p
    }
}

// The line of slot `f` closes: its ring and its record are written, then its links go in front of the free ones, and its slot is released.
#[tactic(auto, unfolding(crate::specs::Giving::ring_given))]
fn give_ring(
    lines: &mut [u32],
    links: &mut [u32],
    points: &mut [u16],
    directory: &mut [u32],
    p: Play,
    dx: u32,
    f: u32,
) -> Play
    ensures { given_of lines.new links.new points.new directory.new result
        ≡ ring_given dx (given_of lines.old links.old points.old directory.old p) f }
{
    let line = slot_at(lines, dx, f);
    let size = line.size;
    write_ring(
        links,
        dx,
        line.first,
        size,
        line.end,
        points,
        2 * (p.points as usize),
    );
    put_ring_record(points, directory, p, size);
    put_next(links, line.last, p.spare);
    let count = p.count.saturating_sub(1);
    release(lines, links, dx, count, f);
    after_ring(p, count, line.first, size)
}

// A stroke of a cell by the rule that its sides call for. One that closes a ring takes no link.
// Kept: four tables beside each other, since a struct of `&mut` asks a clause a table more of each function, that it holds the same table.
fn give_stroke(
    lines: &mut [u32],
    links: &mut [u32],
    points: &mut [u16],
    directory: &mut [u32],
    p: Play,
    cell: Cell,
    stroke: Stroke,
) -> Play
    ensures { given_of lines.new links.new points.new directory.new result
        ≡ stroke_given cell.dx cell.c cell.r (edges_of cell.met) (given_of lines.old links.old points.old directory.old p) (stroke.from ⟶ stroke.to) }
{
    let dx = cell.dx;
    let s = point_at(cell.at, stroke.from);
    let e = point_at(cell.at, stroke.to);
    let f = line_at(cell.met, stroke.from);
    let g = line_at(cell.met, stroke.to);
    let ws = word_at(dx, cell.c, stroke.from);
    let we = word_at(dx, cell.c, stroke.to);
    let ends = meets(stroke.from);
    let starts = meets(stroke.to);
    let k = link_taken(p);
    let stock = stock_after(links, p);
    let before = progress_of(p);
    if ends {
        if starts {
            if f == g {
                return give_ring(lines, links, points, directory, p, dx, f);
            }
            let after = join(lines, links, before, dx, k, s, f, g);
            return with_count(stock, after);
        }
        let after = append(lines, links, before, dx, k, s, f, e, we);
        return with_count(stock, after);
    }
    if starts {
        let after = prepend(lines, links, before, dx, k, s, g, ws);
        return with_count(stock, after);
    }
    let after = start(lines, links, before, dx, k, s, e, ws, we);
    with_count(stock, after)
}

// The cell (`c`, `r`) of this number. Each stroke meets the lines that the frontier has at the left and the top before the first is drawn. An arm names its row
// of the case table, so that the compiler knows the strokes there, and a cell takes one branch.
fn give_cell(
    lines: &mut [u32],
    links: &mut [u32],
    points: &mut [u16],
    directory: &mut [u32],
    p: Play,
    dx: u32,
    c: u32,
    r: u32,
    number: usize,
) -> Play
    requires { Within dx c r }
    ensures { given_of lines.new links.new points.new directory.new result
        ≡ number_given dx r (given_of lines.old links.old points.old directory.old p) number c }
{
    let cell = cell_of(lines, dx, c, r);
    match number {
        1 => give_stroke(lines, links, points, directory, p, cell, stroke_at(1, 0)),
        2 => give_stroke(lines, links, points, directory, p, cell, stroke_at(2, 0)),
        3 => give_stroke(lines, links, points, directory, p, cell, stroke_at(3, 0)),
        4 => give_stroke(lines, links, points, directory, p, cell, stroke_at(4, 0)),
        5 => {
            let one = give_stroke(lines, links, points, directory, p, cell, stroke_at(5, 0));
            give_stroke(lines, links, points, directory, one, cell, stroke_at(5, 1))
        }
        6 => give_stroke(lines, links, points, directory, p, cell, stroke_at(6, 0)),
        7 => give_stroke(lines, links, points, directory, p, cell, stroke_at(7, 0)),
        8 => give_stroke(lines, links, points, directory, p, cell, stroke_at(8, 0)),
        9 => give_stroke(lines, links, points, directory, p, cell, stroke_at(9, 0)),
        10 => {
            let one = give_stroke(lines, links, points, directory, p, cell, stroke_at(10, 0));
            give_stroke(lines, links, points, directory, one, cell, stroke_at(10, 1))
        }
        11 => give_stroke(lines, links, points, directory, p, cell, stroke_at(11, 0)),
        12 => give_stroke(lines, links, points, directory, p, cell, stroke_at(12, 0)),
        13 => give_stroke(lines, links, points, directory, p, cell, stroke_at(13, 0)),
        14 => give_stroke(lines, links, points, directory, p, cell, stroke_at(14, 0)),
        _ => p,
    }
}

// Sixty-four cells of row `r` from cell `c` on, as far as column `dx`. Only the active ones are drawn, by the bits of `changes`. The two rows of samples say
// whose cells these are.
fn give_changes(
    upper: &[u64; ROW_WORDS],
    lower: &[u64; ROW_WORDS],
    dx: u32,
    r: u32,
    c: u32,
    pane: Pane,
    changes: u64,
    lines: &mut [u32],
    links: &mut [u32],
    points: &mut [u16],
    directory: &mut [u32],
    p: Play,
) -> Play
    requires within { Within dx c r }
    requires shows { Shows (between upper.now lower.now) 0 c pane }
    requires changes_value { changes ≡ changes_in pane }
    ensures { given_of lines.new links.new points.new directory.new result
        ≡ swept (cell_given (between upper.now lower.now) dx r) (given_of lines.old links.old points.old directory.old p) c 64 }
{
    let mut play = p;
    for j in set_bits(changes) {
        if dx < c + j {
            return play;
        }
        let number = number_in(pane, j);
        play = give_cell(lines, links, points, directory, play, dx, c + j, r, number);
    }
    play
}

// Row `r` of cells, between two rows of samples of `dx` columns.
// Kept: `try_row` of `trying` has this loop too; one walk for both needs a trait for the step, with a struct of each one's tables and laws, and is no plainer.
#[tactic(auto, unfolding(scope::specs::Limits::side_limit))]
pub fn give_row(
    upper: &[u64; ROW_WORDS],
    lower: &[u64; ROW_WORDS],
    dx: u32,
    r: u32,
    lines: &mut [u32],
    links: &mut [u32],
    points: &mut [u16],
    directory: &mut [u32],
    p: Play,
) -> Play
    requires { Within dx 0 r }
    ensures { given_of lines.new links.new points.new directory.new result
        ≡ row_given upper.now lower.now dx r (given_of lines.old links.old points.old directory.old p) }
{
    let mut play = p;
    let mut upper_left = false;
    let mut lower_left = false;
    for w in 0..dx as usize / SAMPLES + 1 {
        let upper_word = upper[w];
        let lower_word = lower[w];
        let pane = pane_of(upper_word, lower_word, upper_left, lower_left);
        let changes = changes_in(pane);
        play = give_changes(
            upper,
            lower,
            dx,
            r,
            (SAMPLES * w) as u32,
            pane,
            changes,
            lines,
            links,
            points,
            directory,
            play,
        );
        upper_left = bit_at(upper_word, 63);
        lower_left = bit_at(lower_word, 63);
    }
    play
}

// Files the frontier from the slots of the first `count` lines: each tip's column has its line's slot.
pub fn file_lines(lines: &mut [u32], links: &[u32], dx: u32, count: u32)
    ensures { lines.new ≡ slots_filed dx links.now lines.old count }
{
    for i in 0..count {
        let line = slot_at(lines, dx, i);
        let start = column_word(dx, link_point(links, line.first));
        put(lines, start, i);
        put(lines, column_word(dx, line.end), i);
    }
}
