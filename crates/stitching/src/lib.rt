// The stitching pass: every cell of a grid, row by row, draws its strokes over the open table and the link table. The tables may be of any length and
// hold anything: every step is total, as the table machine is, which each contract cites.
#![tactic(auto)]

ghost use Rattle.std.specs.Prelude.{◌≡◌, suc, ◌+◌, ◌-◌, ◌*◌, ◌^◌, ◌≤◌, ◌<◌, length};
ghost use Rattle.words.specs.Panes.{Shows, changes_in};
ghost use Rattle.scan.specs.Rows.{sheet_of, Kept, Marked};
ghost use Rattle.machine.specs.Machine.{run_after, run_over};
ghost use Rattle.lines.specs.Values.{tables_of};
ghost use Rattle.drawing.specs.Values.{run_of};
ghost use Rattle.stitching.specs.Rows.{cells_drawn, row_drawn};

use drawing::{Run, draw_cell};
use grid::Grid;
use lines::Progress;
use scan::{ROW_WORDS, TILES, lower_word, tile_of};
use scope::Level;
use words::{Pane, SAMPLES, bit_at, changes_in, number_in, pane_of, set_bits};

// Sixty-four cells of row `r` from cell `c` on. Only the active cells are drawn, by the bits of `changes`. The grid and the level
// say whose cells these are. The caller sees that the links' numbers fit, at most two a cell.
#[tactic(auto, unfolding(scope::specs::Limits::side_limit))]
fn draw_changes(
    grid: Grid,
    level: Level,
    r: usize,
    c: usize,
    pane: Pane,
    changes: u64,
    lines: &mut [u32],
    links: &mut [u32],
    before: Run,
) -> Run
    requires r_le_dy { r ≤ grid.dy }
    requires shows { Shows (sheet_of grid level) r c pane }
    requires changes_value { changes ≡ changes_in pane }
    requires next_bound { before.next + 128 < 2 ^ 32 }
    ensures { run_of lines.new links.new result
        ≡ cells_drawn (sheet_of grid.entry level) grid.entry.dx (run_of lines.old links.old before) r c 64 }
{
    let mut run = before;
    for j in set_bits(changes) {
        let number = number_in(pane, j);
        run = draw_cell(
            lines,
            links,
            run,
            grid.dx as u32,
            c as u32 + j,
            r as u32,
            number,
        );
    }
    run
}

// The cells of row `r`. `row` holds the samples above these cells, and then those below. A word whose tile has no mark has no active cell: it is not looked
// at, and its samples below are those above.
#[tactic(auto, unfolding(scope::specs::Limits::side_limit))]
fn stitch_row(
    grid: Grid,
    level: Level,
    r: usize,
    row: &mut [u64; ROW_WORDS],
    marks: &[u8; TILES],
    lines: &mut [u32],
    links: &mut [u32],
    before: Run,
) -> Run
    requires r_le_dy { r ≤ grid.dy }
    requires kept { Kept (sheet_of grid level) r row.old }
    requires marked { Marked (sheet_of grid level) (suc grid.dy) marks.now }
    requires dx_bound { before.next + 2 * (grid.dx + 64) < 2 ^ 32 }
    ensures result_after { run_of lines.new links.new result
        ≡ row_drawn (sheet_of grid.entry level) grid.entry.dx (run_of lines.old links.old before) r (suc grid.entry.dx) }
    ensures kept_2 { Kept (sheet_of grid.entry level) (suc r) row.new }
{
    let mut run = before;
    let mut upper = false;
    let mut lower = false;
    for w in 0..grid.dx / SAMPLES + 1 {
        if marks[tile_of(r, w)] == 0 {
            continue;
        }
        let c = SAMPLES * w;
        let upper_word = row[w];
        let lower_word = lower_word(grid, level, r, c);
        row[w] = lower_word;
        let pane = pane_of(upper_word, lower_word, upper, lower);
        let changes = changes_in(pane);
        run = draw_changes(grid, level, r, c, pane, changes, lines, links, run);
        upper = bit_at(upper_word, 63);
        lower = bit_at(lower_word, 63);
    }
    run
}

// The stitching pass over all cells of a grid that fits, row after row: what it leaves in the two tables, and how far stitching has come. The scan has
// marked the tiles that have an active cell.
#[tactic(auto, unfolding(scope::specs::Limits::side_limit))]
pub fn stitch(
    grid: Grid,
    level: Level,
    marks: &[u8; TILES],
    lines: &mut [u32],
    links: &mut [u32],
) -> Progress
    requires marked { Marked (sheet_of grid level) (suc grid.dy) marks.now }
    ensures { tables_of lines.new links.new result
        ≡ (run_after (sheet_of grid.entry level) grid.entry.dx (run_over lines.old links.old) grid.entry.dy (suc grid.entry.dx)).tables }
{
    let mut row = [0u64; ROW_WORDS];
    let mut run = Run {
        progress: Progress {
            count: 0,
            rings: 0,
            head: 0,
            tail: 0,
        },
        next: 0,
    };
    for r in 0..grid.dy + 1 {
        run = stitch_row(grid, level, r, &mut row, marks, lines, links, run);
    }
    run.progress
}
