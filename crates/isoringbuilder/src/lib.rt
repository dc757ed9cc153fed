// The rings of a grid at one level, over tables that the caller lends: the second report, which gives all room, and contour_rings, which gives every
// ring or none. Neither asks anything of the caller: bad sides, lengths or room draw the lowest refusal that applies.
// Kept: the parameters of `second_report` and `contour_rings` one by one, as the calls of `contour` have them.
#![tactic(auto)]

ghost use Rattle.std.specs.Prelude.{◌≡◌, ◌≤◌};
ghost use Rattle.scope.specs.Limits.{side_limit};
ghost use Rattle.scope.specs.Room.{open_words, link_words, point_words, directory_words};
ghost use Rattle.isoringbuilder.specs.Answers.{SecondReported, RingsBuilt};
ghost use Rattle.isoringbuilder.specs.Verdict.{room_verdict};
ghost use Rattle.isoringbuilder.specs.Pass.{packed, Passed, Packed, PackedWhole};

use error::Refusal;
use grid::{Grid, grid_fit};
use limits::RECORD_STRIDE;
use packing::{clear, write_rings};
use scan::{TILES, scan};
use scope::Level;
use spreading::spread;
use stitching::stitch;

// What the second report says of a grid: segments S, rings R, the peak of open lines H, and points S + R.
#[derive(Clone, Copy)]
pub struct SecondReport {
    pub segments: u32,
    pub rings: u32,
    pub peak: u32,
    pub points: u32,
}

// What a stitching pass leaves to be written: its counts, and the first ring's first link.
#[derive(Clone, Copy)]
pub struct Drawing {
    pub segments: u32,
    pub peak: u32,
    pub rings: u32,
    pub head: u32,
}

// The words that the open table needs for this peak: 4H + dx + 2.
#[tactic(auto, unfolding(scope::specs::Limits::side_limit, scope::specs::Room::open_words))]
pub fn open_words(dx: usize, peak: u32) -> usize
    requires { dx ≤ side_limit }
    ensures { result ≡ open_words dx peak }
{
    4 * (peak as usize) + dx + 2
}

// The words that the link table needs for this many segments: 2S.
#[tactic(auto, unfolding(scope::specs::Room::link_words))]
pub fn link_words(segments: u32) -> usize
    ensures { result ≡ link_words segments }
{
    2 * (segments as usize)
}

// The words that the points need for this many segments and rings: 2(S + R).
#[tactic(auto, unfolding(scope::specs::Room::point_words, scope::specs::Room::point_count))]
pub fn point_words(segments: u32, rings: u32) -> usize
    ensures { result ≡ point_words segments rings }
{
    2 * (segments as usize + rings as usize)
}

// The stitching pass over the lent work tables, where the grid and both tables fit; nothing is touched where they do not.
pub fn run_pass(
    values: &[f64],
    level: Level,
    dx: usize,
    dy: usize,
    lines: &mut [u32],
    links: &mut [u32],
) -> Result<Drawing, Refusal>
    ensures { Passed values.now level dx dy lines.old links.old result lines.new links.new }
{
    grid_fit(values.len(), dx, dy)?;
    let grid = Grid { values, dx, dy };
    let mut marks = [0u8; TILES];
    let counts = scan(grid, level, &mut marks);
    let segments = counts.segments;
    let peak = counts.peak;
    if lines.len() < open_words(dx, peak) {
        return Err(Refusal::OpenShort);
    }
    if links.len() < link_words(segments) {
        return Err(Refusal::LinksShort);
    }
    let progress = stitch(grid, level, &marks, lines, links);
    Ok(Drawing {
        segments,
        peak,
        rings: progress.rings,
        head: progress.head,
    })
}

// All room for the rings of a grid at one level. On success the needed words of both work tables are zero; a refusal changes nothing.
pub fn second_report(
    values: &[f64],
    level: Level,
    dx: usize,
    dy: usize,
    lines: &mut [u32],
    links: &mut [u32],
) -> Result<SecondReport, Refusal>
    ensures { SecondReported values.now level dx dy lines.old links.old result lines.new links.new }
{
    let drawing = run_pass(values, level, dx, dy, lines, links)?;
    let points = drawing.segments + drawing.rings;
    clear(lines, open_words(dx, drawing.peak));
    clear(links, link_words(drawing.segments));
    Ok(SecondReport {
        segments: drawing.segments,
        rings: drawing.rings,
        peak: drawing.peak,
        points,
    })
}

// How many rings are built, or why none is: the points have so many words, and there is room for so many records.
pub fn answer_for(segments: u32, rings: u32, points: usize, room: usize) -> Result<u32, Refusal>
    ensures { result ≡ packed (room_verdict segments rings points (directory_words room)) rings }
{
    if points < point_words(segments, rings) {
        return Err(Refusal::PointsShort);
    }
    if room < rings as usize {
        return Err(Refusal::DirectoryShort);
    }
    Ok(rings)
}

// The points of the rings that a pass has drawn, and their records without areas, where points and whole records fit; both are spared where one does not.
pub fn pack(
    drawing: Drawing,
    dx: u32,
    links: &[u32],
    points: &mut [u16],
    directory: &mut [u32],
) -> Result<u32, Refusal>
    ensures { Packed drawing dx links.now points.old directory.old result points.new directory.new }
{
    let segments = drawing.segments;
    let room = directory.len() / RECORD_STRIDE;
    let count = answer_for(segments, drawing.rings, points.len(), room)?;
    write_rings(links, dx, drawing.head, segments, points, directory);
    Ok(count)
}

// The points and the directory of the rings that a pass has drawn, where both fit; both are spared where one does not.
fn pack_whole(
    drawing: Drawing,
    dx: u32,
    links: &[u32],
    points: &mut [u16],
    directory: &mut [u32],
) -> Result<u32, Refusal>
    ensures { PackedWhole drawing dx links.now points.old directory.old result points.new directory.new }
{
    let count = pack(drawing, dx, links, points, directory)?;
    spread(points, directory, count as usize);
    Ok(count)
}

// Every ring of a grid at one level, in the crate's order, vertex order and first vertex, as bare rings: points packed by ring number, and a directory
// record a ring. On success, and where points or directory are short, the needed words of both work tables are zero; any refusal spares the outputs.
pub fn contour_rings(
    values: &[f64],
    level: Level,
    dx: usize,
    dy: usize,
    lines: &mut [u32],
    links: &mut [u32],
    points: &mut [u16],
    directory: &mut [u32],
) -> Result<u32, Refusal>
    ensures { RingsBuilt values.now level dx dy lines.old links.old points.old directory.old result
        lines.new links.new points.new directory.new }
{
    let drawing = run_pass(values, level, dx, dy, lines, links)?;
    let answer = pack_whole(drawing, dx as u32, links, points, directory);
    clear(lines, open_words(dx, drawing.peak));
    clear(links, link_words(drawing.segments));
    answer
}
