// The scan of a grid: the samples of its sheet, and the first report, which counts segments and the peak of open lines
// without work tables.
#![tactic(auto)]

ghost use Rattle.std.specs.Prelude.{◌≡◌, suc, ◌+◌, ◌*◌, ◌^◌, ◌≤◌, ◌<◌, length};
ghost use Rattle.scope.specs.Limits.{side_limit};
ghost use Rattle.scope.specs.Terrain.{above_at, terrain};
ghost use Rattle.scope.specs.Cells.{opened, closed};
ghost use Rattle.words.specs.Panes.{Shows, changes_in};
ghost use Rattle.grid.specs.Grid.{grid_fit};
ghost use Rattle.scan.specs.Rows.{sheet_of, word_from, Kept, tile_of, Noted, Marked};
ghost use Rattle.scan.specs.Scanned.{Drawn, counts_after, scanned};
ghost use Rattle.scan.specs.Report.{first_report};

use cells::change_of;
use error::Refusal;
use grid::{Grid, grid_fit};
use limits::SIDE_LIMIT;
use scope::Level;
use words::{
    Pane, SAMPLES, bit_at, changes_in, number_in, pane_of, set_bits, tally_of, whole_word, word_of,
};

// The samples of row `r` + 1 of the sheet on the right of the sixty-four cells from cell `c` on. The sheet is counted from one column and one row outside
// the grid, and nothing outside the grid is above.
pub fn lower_word(grid: Grid, level: Level, r: usize, c: usize) -> u64
    requires c_le_dx { c ≤ grid.dx }
    ensures { result ≡ word_from (sheet_of grid.entry level) (suc r) c }
{
    if grid.dy <= r {
        return 0;
    }
    let i = r * grid.dx + c;
    let inside = grid.dx - c;
    if inside < SAMPLES {
        return word_of(grid.values, level, i, inside);
    }
    whole_word(grid.values, level, i)
}

// The most words of a row of samples that are kept. A word begins every sixty-four cells, and a row has a cell more than columns.
pub const ROW_WORDS: usize = 65;

// How many tiles have a mark.
pub const TILES: usize = 4096;

// How many rows of cells a tile is high. A tile is one word wide.
const TILE_ROWS: usize = 66;

// The tile of word `w` of row `r`.
pub fn tile_of(r: usize, w: usize) -> usize
    requires { (r ≤ side_limit) × (w < 65) }
    ensures { result ≡ tile_of r w }
{
    r / TILE_ROWS * ROW_WORDS + w
}

// What the scan has counted after some cells: the segments drawn, the lines open now, and the most that were open after any cell.
#[derive(Clone, Copy)]
pub struct Counts {
    pub segments: u32,
    pub open_lines: u32,
    pub peak: u32,
}

// The counts after one cell more, whose number this is. The caller sees that they fit, and that the cell closes no line that is not open.
fn with_cell(before: Counts, number: usize) -> Counts
    requires { (before.segments + 2 < 2 ^ 32) × (before.open_lines + 2 < 2 ^ 32) × (closed number ≤ before.open_lines + opened number) }
    ensures { Drawn before number result }
{
    let change = change_of(number);
    let segments = before.segments + u32::from(change.segments);
    let open_lines = before.open_lines + u32::from(change.opened) - u32::from(change.closed);
    Counts {
        segments,
        open_lines,
        peak: before.peak.max(open_lines),
    }
}

// The counts after sixty-four cells of row `r` from cell `c` on, from those before them. Only the active cells are looked at, by the bits of `changes`.
// The grid and the level say whose cells these are.
fn with_changes(
    grid: Grid,
    level: Level,
    r: usize,
    c: usize,
    pane: Pane,
    changes: u64,
    before: Counts,
) -> Counts
    requires r_le_dy { r ≤ grid.dy }
    requires shows { Shows (sheet_of grid level) r c pane }
    requires changes_value { changes ≡ changes_in pane }
    requires before_value { before ≡ counts_after (sheet_of grid level) grid.dx r c }
    ensures { result ≡ counts_after (sheet_of grid.entry level) grid.entry.dx r (c + 64) }
{
    let mut counts = before;
    for j in set_bits(changes) {
        counts = with_cell(counts, number_in(pane, j));
    }
    counts
}

// The counts after the sixty-four cells of word `w` of row `r`, from those before them. Where a cell is active, the word's tile is marked. Where the peak
// cannot rise among these cells their tally is enough, and else they are counted cell by cell.
fn with_pane(
    grid: Grid,
    level: Level,
    r: usize,
    w: usize,
    pane: Pane,
    marks: &mut [u8; TILES],
    before: Counts,
) -> Counts
    requires r_le_dy { (r ≤ grid.dy) × (w < 65) × (64 * w ≤ grid.dx) }
    requires marks_len { length marks.old ≡ 4096 }
    requires shows { Shows (sheet_of grid level) r (64 * w) pane }
    requires before_value { before ≡ counts_after (sheet_of grid level) grid.dx r (64 * w) }
    ensures value { result ≡ counts_after (sheet_of grid.entry level) grid.entry.dx r (64 * w + 64) }
    ensures noted { Noted (sheet_of grid.entry level) r w marks.old marks.new }
{
    let changes = changes_in(pane);
    if changes == 0 {
        return before;
    }
    marks[tile_of(r, w)] = 1;
    let tally = tally_of(pane, changes);
    let most = before.open_lines + tally.opened;
    if most <= before.peak {
        return Counts {
            segments: before.segments + tally.segments,
            open_lines: most - tally.closed,
            peak: before.peak,
        };
    }
    with_changes(grid, level, r, SAMPLES * w, pane, changes, before)
}

// The counts after the cells of row `r`, from those before it. `row` holds the samples above these cells, and then those below.
#[tactic(auto, unfolding(scope::specs::Limits::side_limit))]
fn with_row(
    grid: Grid,
    level: Level,
    r: usize,
    row: &mut [u64; ROW_WORDS],
    marks: &mut [u8; TILES],
    before: Counts,
) -> Counts
    requires r_le_dy { r ≤ grid.dy }
    requires kept { Kept (sheet_of grid level) r row.old }
    requires marked { Marked (sheet_of grid level) r marks.old }
    requires before_value { before ≡ counts_after (sheet_of grid level) grid.dx r 0 }
    ensures value { result ≡ counts_after (sheet_of grid.entry level) grid.entry.dx r (suc grid.entry.dx) }
    ensures kept_2 { Kept (sheet_of grid.entry level) (suc r) row.new }
    ensures marked_2 { Marked (sheet_of grid.entry level) (suc r) marks.new }
{
    let mut counts = before;
    let mut upper = false;
    let mut lower = false;
    for w in 0..grid.dx / SAMPLES + 1 {
        let upper_word = row[w];
        let lower_word = lower_word(grid, level, r, SAMPLES * w);
        row[w] = lower_word;
        let pane = pane_of(upper_word, lower_word, upper, lower);
        counts = with_pane(grid, level, r, w, pane, marks, counts);
        upper = bit_at(upper_word, 63);
        lower = bit_at(lower_word, 63);
    }
    counts
}

// The counts after all cells of a grid that fits, row after row. A tile that keeps the mark 0 has no active cell.
#[tactic(auto, unfolding(scope::specs::Limits::side_limit))]
pub fn scan(grid: Grid, level: Level, marks: &mut [u8; TILES]) -> Counts
    requires marks_len { length marks.old ≡ 4096 }
    ensures value { result ≡ scanned (sheet_of grid.entry level) grid.entry.dx grid.entry.dy }
    ensures marked { Marked (sheet_of grid.entry level) (suc grid.entry.dy) marks.new }
{
    let mut row = [0u64; ROW_WORDS];
    let mut counts = Counts {
        segments: 0,
        open_lines: 0,
        peak: 0,
    };
    for r in 0..grid.dy + 1 {
        counts = with_row(grid, level, r, &mut row, marks, counts);
    }
    counts
}

// What the first report says of a grid: the segments drawn and the peak of open lines, from which the room of the open table and of the link table follows.
#[derive(Clone, Copy)]
pub struct FirstReport {
    pub segments: u32,
    pub peak: u32,
}

// The segments that a grid draws at a level and the peak of its open lines, or the lowest refusal that applies, alone.
pub fn first_report(
    values: &[f64],
    level: Level,
    dx: usize,
    dy: usize,
) -> Result<FirstReport, Refusal>
    ensures { result ≡ first_report values.now level dx dy }
{
    grid_fit(values.len(), dx, dy)?;
    let mut marks = [0u8; TILES];
    let counts = scan(Grid { values, dx, dy }, level, &mut marks);
    Ok(FirstReport {
        segments: counts.segments,
        peak: counts.peak,
    })
}
