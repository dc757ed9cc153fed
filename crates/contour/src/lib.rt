// The public face: the two reports, the rings of a grid, the rings of a terrain that comes row by row, a grid's lines, contours and isobands, the reports of a band,
// the area of a ring, a ring against a ring, the check of a ring set, the length of its text and the text, and why a ring or a vertex is what it is.
// None asks anything of the caller.
#![tactic(auto)]

ghost use Rattle.std.specs.Prelude.{◌≡◌};
ghost use Rattle.area.specs.Answers.{area_answer, contains_answer};
ghost use Rattle.bands.specs.Bands.{band_first_report, BandReported, BandBuilt};
ghost use Rattle.contourbuilder.specs.Contours.{ContoursBuilt};
ghost use Rattle.explaining.specs.Fates.{FateFound, polygon_answer};
ghost use Rattle.explaining.specs.Vertices.{vertex_answer};
ghost use Rattle.geojson.specs.Written.{length_answer, written_answer, text_after};
ghost use Rattle.isoringbuilder.specs.Answers.{SecondReported, RingsBuilt};
ghost use Rattle.linebuilder.specs.Lines.{LinesBuilt};
ghost use Rattle.rows.specs.Called.{begun_state, begun_answer, row_called, end_called};
ghost use Rattle.rows.specs.Values.{outcome_of};
ghost use Rattle.scan.specs.Report.{first_report};
ghost use Rattle.scope.specs.GeoJson.{ring_set_refused};
ghost use Rattle.smoothing.specs.Values.{placing_of};

use area::Containment;
use deciding::Decision;
use error::Refusal;
use explaining::RingFate;
use isoringbuilder::SecondReport;
use rows::{Rows, Step};
use scan::FirstReport;
use scope::{Level, Rule};
use smoothing::{Placement, VertexMoves};

// Kept: in all these calls tables and numbers one by one, since they ask nothing, users name them, and C hands its own so.

// The segments that a grid draws at a level and the peak of its open lines, or the lowest refusal that applies, alone.
pub fn first_report(
    values: &[f64],
    level: Level,
    dx: usize,
    dy: usize,
) -> Result<FirstReport, Refusal>
    ensures { result ≡ first_report values.now level dx dy }
{
    scan::first_report(values, level, dx, dy)
}

// All room for the rings of a grid at one level. On success the needed words of both work tables are zero; a refusal changes nothing.
pub fn second_report(
    values: &[f64],
    level: Level,
    dx: usize,
    dy: usize,
    lines: &mut [u32],
    links: &mut [u32],
) -> Result<SecondReport, Refusal>
    ensures { SecondReported values.now level dx dy lines.old links.old result lines.new links.new }
{
    isoringbuilder::second_report(values, level, dx, dy, lines, links)
}

// Every ring of a grid at one level, in the crate's order, vertex order and first vertex, as bare rings: points packed by ring number, and a directory
// record a ring. On success, and where points or directory are short, the needed words of both work tables are zero; any refusal spares the outputs.
pub fn contour_rings(
    values: &[f64],
    level: Level,
    dx: usize,
    dy: usize,
    lines: &mut [u32],
    links: &mut [u32],
    points: &mut [u16],
    directory: &mut [u32],
) -> Result<u32, Refusal>
    ensures { RingsBuilt values.now level dx dy lines.old links.old points.old directory.old result
        lines.new links.new points.new directory.new }
{
    isoringbuilder::contour_rings(values, level, dx, dy, lines, links, points, directory)
}

// The state before the first row of a terrain that comes row by row. Number 1 where a side is not within the limit, and then no row is taken.
pub fn rows_begin(level: Level, dx: usize, dy: usize) -> Step
    ensures { result ≡ record { state = begun_state level dx dy; answer = begun_answer dx dy } }
{
    rows::begin(level, dx, dy)
}

// The next row of values. It draws a row of cells and gives out the rings that close in it, as bare rings: points packed from the first word on, and a directory
// record a ring. Between two calls the work tables hold the unfinished lines. A refusal changes nothing.
pub fn rows_row(
    state: Rows,
    values: &[f64],
    lines: &mut [u32],
    links: &mut [u32],
    points: &mut [u16],
    directory: &mut [u32],
) -> Step
    ensures { outcome_of result lines.new links.new points.new directory.new
        ≡ row_called state values.now lines.old links.old points.old directory.old }
{
    rows::row(state, values, lines, links, points, directory)
}

// The last row of cells, below the last row of values. Afterwards the words of the work tables that the calls have used are zero. A refusal changes nothing.
pub fn rows_end(
    state: Rows,
    lines: &mut [u32],
    links: &mut [u32],
    points: &mut [u16],
    directory: &mut [u32],
) -> Step
    ensures { outcome_of result lines.new links.new points.new directory.new
        ≡ end_called state lines.old links.old points.old directory.old }
{
    rows::end(state, lines, links, points, directory)
}

// Every ring of a grid at one level as a line, as contour_rings gives them, with points that are smoothed where that is asked, then placed: points packed by
// ring number, and a directory record a ring. On success, and where points or directory are short, the needed words of both work tables are zero; any refusal
// spares the outputs.
pub fn contour_lines(
    values: &[f64],
    level: Level,
    dx: usize,
    dy: usize,
    smooth: bool,
    placement: Placement,
    lines: &mut [u32],
    links: &mut [u32],
    points: &mut [f64],
    directory: &mut [u32],
) -> Result<u32, Refusal>
    ensures { LinesBuilt values.now level dx dy smooth (placing_of placement) lines.old links.old points.old directory.old result
        lines.new links.new points.new directory.new }
{
    linebuilder::contour_lines(
        values, level, dx, dy, smooth, placement, lines, links, points, directory,
    )
}

// Every ring of a grid at one level, as contour_rings gives them, with classes and owners: points packed by ring number, and a directory record a ring, with
// its class and its owner. On success, and where points or directory are short, the needed words of both work tables are zero; any refusal spares the outputs.
pub fn contours(
    values: &[f64],
    level: Level,
    dx: usize,
    dy: usize,
    lines: &mut [u32],
    links: &mut [u32],
    points: &mut [u16],
    directory: &mut [u32],
) -> Result<u32, Refusal>
    ensures { ContoursBuilt values.now level dx dy lines.old links.old points.old directory.old result
        lines.new links.new points.new directory.new }
{
    contourbuilder::contours(values, level, dx, dy, lines, links, points, directory)
}

// The larger segment count and the larger peak of the thresholds k and k + 1 of a list under a rule, or the lowest refusal that applies, alone.
pub fn band_first_report(
    values: &[f64],
    thresholds: &[f64],
    rule: Rule,
    k: usize,
    dx: usize,
    dy: usize,
) -> Result<FirstReport, Refusal>
    ensures { result ≡ band_first_report values.now thresholds.now rule k dx dy }
{
    bands::band_first_report(values, thresholds, rule, k, dx, dy)
}

// All room for the band of thresholds k and k + 1 of a list under a rule. On success the needed words of both work tables are zero; a refusal changes nothing.
pub fn band_second_report(
    values: &[f64],
    thresholds: &[f64],
    rule: Rule,
    k: usize,
    dx: usize,
    dy: usize,
    lines: &mut [u32],
    links: &mut [u32],
) -> Result<SecondReport, Refusal>
    ensures { BandReported values.now thresholds.now rule k dx dy lines.old links.old result lines.new links.new }
{
    bands::band_second_report(values, thresholds, rule, k, dx, dy, lines, links)
}

// Every ring of the band of thresholds k and k + 1 of a list under a rule, with classes and owners: points packed by ring number, the lower set's first, and a
// directory record a ring in the band's sorted order. On success, and where points or directory are short, the needed words of both work tables are zero; any
// refusal spares the outputs.
pub fn isobands(
    values: &[f64],
    thresholds: &[f64],
    rule: Rule,
    k: usize,
    dx: usize,
    dy: usize,
    lines: &mut [u32],
    links: &mut [u32],
    points: &mut [u16],
    directory: &mut [u32],
) -> Result<u32, Refusal>
    ensures { BandBuilt values.now thresholds.now rule k dx dy lines.old links.old points.old directory.old result
        lines.new links.new points.new directory.new }
{
    contourbuilder::isobands(
        values, thresholds, rule, k, dx, dy, lines, links, points, directory,
    )
}

// The signed area of a ring, or the refusal of words that are no ring.
pub fn area(ring: &[u16]) -> Result<i64, Refusal>
    ensures { result ≡ area_answer ring.now }
{
    area::area(ring)
}

// The tested ring against the outer ring: the first tested vertex that lies on no pair of the outer ring decides.
pub fn contains(outer: &[u16], tested: &[u16]) -> Result<Containment, Refusal>
    ensures { result ≡ contains_answer outer.now tested.now }
{
    area::contains(outer, tested)
}

// Whether the writer refuses a ring set: points and a directory of as many rings as are stated.
pub fn ring_set_faulty(points: &[u16], directory: &[u32], rings: u32) -> bool
    ensures { result ≡ ring_set_refused points.now directory.now rings }
{
    ringset::ring_set_faulty(points, directory, rings)
}

// The number of bytes that the text of a ring set needs, or the refusal of a set that the writer does not take.
pub fn geojson_length(points: &[u16], directory: &[u32], rings: u32) -> Result<u64, Refusal>
    ensures { result ≡ length_answer points.now directory.now rings }
{
    geojson::geojson_length(points, directory, rings)
}

// Writes the text of a ring set, one GeoJSON MultiPolygon, and answers its number of bytes. Bytes past the text stay, and a refusal changes nothing.
pub fn write_geojson(
    points: &[u16],
    directory: &[u32],
    rings: u32,
    text: &mut [u8],
) -> Result<u64, Refusal>
    ensures value { result ≡ written_answer points.now directory.now rings text.old }
    ensures text_after { text.new ≡ text_after points.now directory.now rings text.old }
{
    geojson::write_geojson(points, directory, rings, text)
}

// What becomes of a ring of a contour, by the points of a ring set and not by the words of its records: polygon, hole of a polygon with what that answers, or
// dropped. Every polygon numbered lower than an owner answers -1.
pub fn ring_fate(
    points: &[u16],
    directory: &[u32],
    rings: u32,
    ring: u32,
) -> Result<RingFate, Refusal>
    ensures { FateFound points.now directory.now rings ring result }
{
    explaining::ring_fate(points, directory, rings, ring)
}

// What one ring of a ring set, called the polygon whatever its class, answers for another, with the vertex that decides.
pub fn polygon_answer(
    points: &[u16],
    directory: &[u32],
    rings: u32,
    polygon: u32,
    ring: u32,
) -> Result<Decision, Refusal>
    ensures { result ≡ polygon_answer points.now directory.now rings polygon ring }
{
    explaining::polygon_answer(points, directory, rings, polygon, ring)
}

// What smoothing does to a vertex of a ring of a ring set, at a level of a grid: each coordinate stays, moves by a fraction, or the fraction is not a number.
pub fn smoothed_vertex(
    values: &[f64],
    level: Level,
    dx: usize,
    dy: usize,
    points: &[u16],
    directory: &[u32],
    rings: u32,
    ring: u32,
    vertex: u32,
) -> Result<VertexMoves, Refusal>
    ensures { result ≡ vertex_answer values.now level.threshold dx dy points.now directory.now rings ring vertex }
{
    explaining::smoothed_vertex(
        values, level, dx, dy, points, directory, rings, ring, vertex,
    )
}
