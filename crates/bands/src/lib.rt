// A band of two thresholds: which refusals come before any room is asked for, both reports, and the stitching passes and the packing that isobands is built on.
// Kept: the parameters of both reports one by one, as the calls of `contour` have them.
#![tactic(auto)]

ghost use Rattle.std.specs.Prelude.{◌≡◌, suc, max, ◌+◌, ◌^◌, ◌≤◌, ◌<◌, ltb, length};
ghost use Rattle.scope.specs.Room.{band_point_words};
ghost use Rattle.machine.specs.Walk.{walk_points, walk_records};
ghost use Rattle.scan.specs.Rows.{sheet_of, Marked};
ghost use Rattle.scan.specs.Scanned.{scanned};
ghost use Rattle.bands.specs.Bands.{band_fit, fit_pair, band_room_of, band_first_report, ReportedOver, BandReported};
ghost use Rattle.bands.specs.Passing.{BandPassed, stored_from, BandPacked};

use error::Refusal;
use grid::{Grid, grid_fit};
use isoringbuilder::{SecondReport, link_words, open_words, point_words};
use limits::{RECORD_STRIDE, SHORT_STRIDE};
use packing::{clear, write_rings};
use scan::{Counts, FirstReport, TILES, scan};
use scope::{Level, Rule};
use stitching::stitch;

// The levels that a band lies between.
#[derive(Clone, Copy)]
pub struct BandLevels {
    pub lower: Level,
    pub upper: Level,
}

// What a band's stitching passes leave to be written: the counts of both sets, the larger peak, and the first link of the upper set's first ring.
#[derive(Clone, Copy)]
pub struct BandDrawing {
    pub lower_segments: u32,
    pub lower_rings: u32,
    pub upper_segments: u32,
    pub upper_rings: u32,
    pub peak: u32,
    pub head: u32,
}

// Whether k + 1 is a place among so many thresholds.
fn has_pair(thresholds: usize, k: usize) -> bool
    ensures { result ≡ ltb (suc k) thresholds }
{
    if thresholds <= k {
        return false;
    }
    1 < thresholds - k
}

// Whether a band can be drawn: the grid fits, there are two thresholds or more, and k + 1 is a place among them. Else the lowest refusal that applies.
fn band_fit(count: usize, dx: usize, dy: usize, thresholds: usize, k: usize) -> Result<(), Refusal>
    ensures { result ≡ band_fit count dx dy thresholds k }
{
    grid_fit(count, dx, dy)?;
    if thresholds < 2 {
        return Err(Refusal::FewThresholds);
    }
    if has_pair(thresholds, k) {
        return Ok(());
    }
    Err(Refusal::NoPair)
}

// The levels of the thresholds k and k + 1 under a rule, where a band can be drawn. Else the lowest refusal that applies.
pub fn band_pair(
    count: usize,
    dx: usize,
    dy: usize,
    thresholds: &[f64],
    rule: Rule,
    k: usize,
) -> Result<BandLevels, Refusal>
    ensures { result ≡ fit_pair (band_fit count dx dy (length thresholds.now) k) thresholds.now rule k }
{
    band_fit(count, dx, dy, thresholds.len(), k)?;
    let lower = Level {
        threshold: thresholds[k],
        rule,
    };
    let upper = Level {
        threshold: thresholds[k + 1],
        rule,
    };
    Ok(BandLevels { lower, upper })
}

// The counts of a grid that fits at one level.
fn counts_of(grid: Grid, level: Level) -> Counts
    ensures { result ≡ scanned (sheet_of grid.entry level) grid.entry.dx grid.entry.dy }
{
    let mut marks = [0u8; TILES];
    scan(grid, level, &mut marks)
}

// The larger segment count and the larger peak of two levels, for a grid that fits.
#[tactic(auto, unfolding(crate::specs::Bands::band_room_of, scan::specs::Scanned::scanned))]
fn room_of(grid: Grid, levels: BandLevels) -> FirstReport
    ensures { result ≡ band_room_of (sheet_of grid.entry levels.lower) (sheet_of grid.entry levels.upper) grid.entry.dx grid.entry.dy }
{
    let below = counts_of(grid, levels.lower);
    let above = counts_of(grid, levels.upper);
    FirstReport {
        segments: below.segments.max(above.segments),
        peak: below.peak.max(above.peak),
    }
}

// The larger segment count and the larger peak of the thresholds k and k + 1 of a list under a rule, or the lowest refusal that applies, alone.
pub fn band_first_report(
    values: &[f64],
    thresholds: &[f64],
    rule: Rule,
    k: usize,
    dx: usize,
    dy: usize,
) -> Result<FirstReport, Refusal>
    ensures { result ≡ band_first_report values.now thresholds.now rule k dx dy }
{
    let levels = band_pair(values.len(), dx, dy, thresholds, rule, k)?;
    Ok(room_of(Grid { values, dx, dy }, levels))
}

// The stitching passes of a band over a grid that fits, the lower set and then the upper: both work tables are tested for the larger need, and nothing is
// touched where one is short. The marks are those of the lower set.
pub fn band_pass(
    grid: Grid,
    levels: BandLevels,
    marks: &mut [u8; TILES],
    lines: &mut [u32],
    links: &mut [u32],
) -> Result<BandDrawing, Refusal>
    requires { length marks.old ≡ 4096 }
    ensures { BandPassed grid.entry.values.now levels.lower levels.upper grid.entry.dx grid.entry.dy lines.old links.old result
        lines.new links.new marks.new }
{
    let BandLevels { lower, upper } = levels;
    let mut upper_marks = [0u8; TILES];
    let below = scan(grid, lower, marks);
    let above = scan(grid, upper, &mut upper_marks);
    let lower_segments = below.segments;
    let upper_segments = above.segments;
    let peak = below.peak.max(above.peak);
    if lines.len() < open_words(grid.dx, peak) {
        return Err(Refusal::OpenShort);
    }
    if links.len() < link_words(lower_segments.max(upper_segments)) {
        return Err(Refusal::LinksShort);
    }
    let first = stitch(grid, lower, marks, lines, links);
    let lower_rings = first.rings;
    let second = stitch(grid, upper, &upper_marks, lines, links);
    let upper_rings = second.rings;
    let head = second.head;
    Ok(BandDrawing {
        lower_segments,
        lower_rings,
        upper_segments,
        upper_rings,
        peak,
        head,
    })
}

// The second report of a band between two levels, for a grid that fits.
fn report_over(
    grid: Grid,
    levels: BandLevels,
    lines: &mut [u32],
    links: &mut [u32],
) -> Result<SecondReport, Refusal>
    ensures { ReportedOver (Ok tt) (sheet_of grid.entry levels.lower) (sheet_of grid.entry levels.upper) grid.entry.dx grid.entry.dy
        lines.old links.old result lines.new links.new }
{
    let mut marks = [0u8; TILES];
    let drawing = band_pass(grid, levels, &mut marks, lines, links)?;
    let peak = drawing.peak;
    let segments = drawing.lower_segments.max(drawing.upper_segments);
    let rings = drawing.lower_rings + drawing.upper_rings;
    let points = drawing.lower_segments + drawing.upper_segments + rings;
    clear(lines, open_words(grid.dx, peak));
    clear(links, link_words(segments));
    Ok(SecondReport {
        segments,
        rings,
        peak,
        points,
    })
}

// All room for the band of the thresholds k and k + 1 of a list under a rule: the larger segment count and peak, and the sums of rings and points. On success
// the needed words of both work tables are zero; a refusal changes nothing.
pub fn band_second_report(
    values: &[f64],
    thresholds: &[f64],
    rule: Rule,
    k: usize,
    dx: usize,
    dy: usize,
    lines: &mut [u32],
    links: &mut [u32],
) -> Result<SecondReport, Refusal>
    ensures { BandReported values.now thresholds.now rule k dx dy lines.old links.old result lines.new links.new }
{
    let levels = band_pair(values.len(), dx, dy, thresholds, rule, k)?;
    report_over(Grid { values, dx, dy }, levels, lines, links)
}

// The words that the points of both sets need: the sum of the two.
#[tactic(auto, unfolding(scope::specs::Room::point_words, scope::specs::Room::point_count, scope::specs::Room::band_point_words))]
pub fn band_point_words(drawing: BandDrawing) -> usize
    ensures { result ≡ band_point_words drawing.lower_segments drawing.lower_rings drawing.upper_segments drawing.upper_rings }
{
    point_words(drawing.lower_segments, drawing.lower_rings)
        + point_words(drawing.upper_segments, drawing.upper_rings)
}

// The points and the bare records of the rings in the links, without areas, stored from a word of each output on.
fn write_behind(
    links: &[u32],
    dx: u32,
    head: u32,
    count: u32,
    points: &mut [u16],
    words: usize,
    directory: &mut [u32],
    records: usize,
)
    requires { (words ≤ length points.old) × (records ≤ length directory.old) }
    ensures points_after { points.new ≡ stored_from words (walk_points dx links.now head head count) points.old }
    ensures directory_after { directory.new ≡ stored_from records (walk_records links.now 0 0 head count) directory.old }
{
    write_rings(
        links,
        dx,
        head,
        count,
        &mut points[words..],
        &mut directory[records..],
    );
}

// The points and the bare records of both sets, without areas, where both outputs have room for all; all is spared where one has not. The upper set, which was
// stitched last, goes behind the room of the lower; then the lower set is stitched again and goes in front.
pub fn band_pack(
    drawing: BandDrawing,
    grid: Grid,
    lower: Level,
    marks: &[u8; TILES],
    lines: &mut [u32],
    links: &mut [u32],
    points: &mut [u16],
    directory: &mut [u32],
) -> Result<u32, Refusal>
    requires { Marked (sheet_of grid lower) (suc grid.dy) marks.now
        × (drawing.lower_rings + drawing.upper_rings < 2 ^ 32) }
    ensures { BandPacked (sheet_of grid.entry lower) grid.entry.dx grid.entry.dy drawing lines.old links.old points.old directory.old result
        lines.new links.new points.new directory.new }
{
    let lower_segments = drawing.lower_segments;
    let lower_rings = drawing.lower_rings;
    let upper_segments = drawing.upper_segments;
    let upper_rings = drawing.upper_rings;
    let head = drawing.head;
    let dx = grid.dx as u32;
    let words = point_words(lower_segments, lower_rings);
    if points.len() < band_point_words(drawing) {
        return Err(Refusal::PointsShort);
    }
    let rings = lower_rings + upper_rings;
    if directory.len() < RECORD_STRIDE * (rings as usize) {
        return Err(Refusal::DirectoryShort);
    }
    let records = SHORT_STRIDE * (lower_rings as usize);
    write_behind(
        links,
        dx,
        head,
        upper_segments,
        points,
        words,
        directory,
        records,
    );
    let again = stitch(grid, lower, marks, lines, links);
    let first = again.head;
    write_rings(links, dx, first, lower_segments, points, directory);
    Ok(rings)
}
