// Contours and isobands of a grid, over tables that the caller lends: every ring with its class and its owner, or none. Neither asks anything of the caller.
// Kept: the parameters of `contours` and `isobands` one by one, as the calls of `contour` have them.
#![tactic(auto)]

ghost use Rattle.std.specs.Prelude.{◌≡◌, Bool, true, false, ◌≤◌, length};
ghost use Rattle.scope.specs.Room.{directory_words};
ghost use Rattle.scope.specs.Tables.{written, short_of, record_of};
ghost use Rattle.scan.specs.Rows.{sheet_of};
ghost use Rattle.bands.specs.Bands.{BuiltOver, BandBuilt};
ghost use Rattle.regions.specs.Regions.{counted_rings, Workable};
ghost use Rattle.contourbuilder.specs.Contours.{ContoursBuilt};
ghost use Rattle.contourbuilder.specs.Owning.{records_by, Ownable, OwnersFound};

use bands::{BandLevels, band_pack, band_pair, band_pass, band_point_words};
use error::Refusal;
use grid::Grid;
use isoringbuilder::{link_words, open_words, pack, point_words, run_pass};
use packing::clear;
use regions::{own_band, own_contour};
use scan::TILES;
use scope::{Level, Rule};
use spreading::spread;

// Which records rings are given: those of a contour, or those of a band.
trait Records {
    ghost band: { Bool };

    // The records of `n` rings without areas.
    fn own_short(points: &[u16], directory: &mut [u32], n: usize, scratch: &mut [u32])
        requires { Workable points.now directory.old scratch.old n }
        ensures { directory.new ≡ written (records_by short_of band (counted_rings points.now directory.old 0 n)) directory.old };
}

// By ring number.
struct Contour;

impl Records for Contour {
    ghost band = { false };

    #[tactic(auto, unfolding(crate::specs::Owning::records_by))]
    fn own_short(points: &[u16], directory: &mut [u32], n: usize, scratch: &mut [u32]) {
        own_contour(points, directory, n, scratch);
    }
}

// In the band's sorted order.
struct Band;

impl Records for Band {
    ghost band = { true };

    #[tactic(auto, unfolding(crate::specs::Owning::records_by))]
    fn own_short(points: &[u16], directory: &mut [u32], n: usize, scratch: &mut [u32]) {
        own_band(points, directory, n, scratch);
    }
}

// The records of `n` rings, with areas.
fn own_whole<R: Records>(points: &[u16], directory: &mut [u32], n: usize, scratch: &mut [u32])
    requires { Workable points.now directory.old scratch.old n × (directory_words n ≤ length directory.old) }
    ensures { directory.new ≡ written (records_by record_of R.band (counted_rings points.now directory.old 0 n)) directory.old }
{
    R::own_short(points, directory, n, scratch);
    spread(points, directory, n);
}

// The records of the rings that were written, where any were. The first `words` words of the
// link table are worked in, and the first `filled` words of the points are read.
fn own_rings<R: Records>(
    answer: Result<u32, Refusal>,
    words: usize,
    links: &mut [u32],
    filled: usize,
    points: &[u16],
    directory: &mut [u32],
)
    requires { Ownable answer words links.old filled points.now directory.old }
    ensures { OwnersFound R.band answer words links.old links.new filled points.now directory.old directory.new }
{
    if let Ok(rings) = answer {
        let drawn = &points[..filled];
        own_whole::<R>(drawn, directory, rings as usize, &mut links[..words]);
    }
}

// Every ring of a grid at one level, as contour_rings has them, with classes and owners: a directory record a ring, by ring number. On success, and where
// points or directory are short, the needed words of both work tables are zero; any refusal spares the outputs.
pub fn contours(
    values: &[f64],
    level: Level,
    dx: usize,
    dy: usize,
    lines: &mut [u32],
    links: &mut [u32],
    points: &mut [u16],
    directory: &mut [u32],
) -> Result<u32, Refusal>
    ensures { ContoursBuilt values.now level dx dy lines.old links.old points.old directory.old result
        lines.new links.new points.new directory.new }
{
    let drawing = run_pass(values, level, dx, dy, lines, links)?;
    let answer = pack(drawing, dx as u32, links, points, directory);
    let segments = drawing.segments;
    let words = link_words(segments);
    let filled = point_words(segments, drawing.rings);
    own_rings::<Contour>(answer, words, links, filled, points, directory);
    clear(lines, open_words(dx, drawing.peak));
    clear(links, words);
    answer
}

// The band between two levels, for a grid that fits.
fn band_over(
    grid: Grid,
    levels: BandLevels,
    lines: &mut [u32],
    links: &mut [u32],
    points: &mut [u16],
    directory: &mut [u32],
) -> Result<u32, Refusal>
    ensures { BuiltOver (Ok tt) (sheet_of grid.entry levels.lower) (sheet_of grid.entry levels.upper) grid.entry.dx grid.entry.dy
        lines.old links.old points.old directory.old result
        lines.new links.new points.new directory.new }
{
    let mut marks = [0u8; TILES];
    let drawing = band_pass(grid, levels, &mut marks, lines, links)?;
    let answer = band_pack(
        drawing,
        grid,
        levels.lower,
        &marks,
        lines,
        links,
        points,
        directory,
    );
    let segments = drawing.lower_segments.max(drawing.upper_segments);
    let words = link_words(segments);
    let filled = band_point_words(drawing);
    own_rings::<Band>(answer, words, links, filled, points, directory);
    clear(lines, open_words(grid.dx, drawing.peak));
    clear(links, words);
    answer
}

// The band of the thresholds k and k + 1 of a list: the points of the lower set's rings, then of the upper's, each by ring number, and a directory record a ring
// in the band's sorted order, with class and owner. On success, and where points or directory are short, the needed words of both work tables are zero; any
// refusal spares the outputs.
pub fn isobands(
    values: &[f64],
    thresholds: &[f64],
    rule: Rule,
    k: usize,
    dx: usize,
    dy: usize,
    lines: &mut [u32],
    links: &mut [u32],
    points: &mut [u16],
    directory: &mut [u32],
) -> Result<u32, Refusal>
    ensures { BandBuilt values.now thresholds.now rule k dx dy lines.old links.old points.old directory.old result
        lines.new links.new points.new directory.new }
{
    let levels = band_pair(values.len(), dx, dy, thresholds, rule, k)?;
    band_over(
        Grid { values, dx, dy },
        levels,
        lines,
        links,
        points,
        directory,
    )
}
