// The library for C and Rust. Each entry answers on every input: it returns 0 and sets the outputs, or returns the refusal's number and leaves the outputs as
// they were. A rule passes as its number. A slice passes as a pointer, then a length; the words of a state, whose number is fixed, as a pointer alone.
// Kept: names and parameters one by one, numbers for rules and kinds: the C interface.
#![tactic(auto)]

ghost use Rattle.std.specs.Prelude.{◌≡◌};
ghost use Rattle.scope.specs.Area.{area_refused};
ghost use Rattle.scope.specs.Containment.{contains_refused};
ghost use Rattle.scope.specs.GeoJson.{ring_set_refused};
ghost use Rattle.cells.specs.Rules.{rule_of, level_of};
ghost use Rattle.scan.specs.Report.{first_report};
ghost use Rattle.isoringbuilder.specs.Answers.{SecondReported, RingsBuilt};
ghost use Rattle.bands.specs.Bands.{band_first_report, BandReported, BandBuilt};
ghost use Rattle.contourbuilder.specs.Contours.{ContoursBuilt};
ghost use Rattle.linebuilder.specs.Lines.{LinesBuilt};
ghost use Rattle.geojson.specs.Written.{length_answer, written_answer, text_after};
ghost use Rattle.explaining.specs.Fates.{FateFound, polygon_answer};
ghost use Rattle.explaining.specs.Vertices.{vertex_answer};
ghost use Rattle.telling.specs.Outputs.{answer_status, answer_output, answer_vertex};
ghost use Rattle.rows.specs.Called.{begun_state, begun_answer, row_called, end_called};
ghost use Rattle.rowstate.specs.Words.{state_in};
ghost use Rattle.contour_c.specs.ByRow.{state_words, RowEntry};
ghost use Rattle.contour_c.specs.Entries.{status_of, area_output, place_number, contains_output};
ghost use Rattle.contour_c.specs.Told.{told_status, told_output};
ghost use Rattle.contour_c.specs.Rings.{first_status, first_segments, first_peak, second_status, second_segments, second_rings, second_peak, second_points, built_status, built_rings, SecondEntry, RingsEntry, asked};
ghost use Rattle.contour_c.specs.Texts.{check_status, text_status, text_length};
ghost use Rattle.contour_c.specs.Why.{FateEntry, VertexEntry};

use area::Containment;
use cells::{level_of, rule_of};
use error::Refusal;
use isoringbuilder::SecondReport;
use rows::Step;
use rowstate::{STATE_WORDS, state_of, store_state};
use scan::FirstReport;
use smoothing::Placement;
use telling::{tell_answer, tell_fate, tell_vertex};

// Sets an output where a call has succeeded, and leaves it as it was where one was refused. Answers the status: 0, or the refusal's number.
#[tactic(auto, unfolding(crate::specs::Told::told_status, crate::specs::Told::told_output))]
fn told<T: Copy>(answer: Result<T, Refusal>, output: &mut T) -> u32
    ensures value { result ≡ told_status answer }
    ensures output_after { output.new ≡ told_output output.old answer }
{
    match answer {
        Ok(value) => {
            *output = value;
            0
        }
        Err(refusal) => error::number(refusal),
    }
}

// The same of a first report, with an output for each of its numbers.
#[tactic(auto, unfolding(crate::specs::Rings::first_status, crate::specs::Rings::first_segments, crate::specs::Rings::first_peak))]
fn told_first(answer: Result<FirstReport, Refusal>, segments: &mut u32, peak: &mut u32) -> u32
    ensures value { result ≡ first_status answer }
    ensures segments_after { segments.new ≡ first_segments segments.old answer }
    ensures peak_after { peak.new ≡ first_peak peak.old answer }
{
    match answer {
        Ok(report) => {
            *segments = report.segments;
            *peak = report.peak;
            0
        }
        Err(refusal) => error::number(refusal),
    }
}

// The same of a second report.
#[tactic(auto, unfolding(crate::specs::Rings::second_status, crate::specs::Rings::second_segments, crate::specs::Rings::second_rings, crate::specs::Rings::second_peak, crate::specs::Rings::second_points))]
fn told_second(
    answer: Result<SecondReport, Refusal>,
    segments: &mut u32,
    rings: &mut u32,
    peak: &mut u32,
    points: &mut u32,
) -> u32
    ensures value { result ≡ second_status answer }
    ensures segments_after { segments.new ≡ second_segments segments.old answer }
    ensures rings_after { rings.new ≡ second_rings rings.old answer }
    ensures peak_after { peak.new ≡ second_peak peak.old answer }
    ensures points_after { points.new ≡ second_points points.old answer }
{
    match answer {
        Ok(report) => {
            *segments = report.segments;
            *rings = report.rings;
            *peak = report.peak;
            *points = report.points;
            0
        }
        Err(refusal) => error::number(refusal),
    }
}

// The area of a ring of words X, Y, X, Y, and so on: the crate's undivided one times 4, above 0 for a polygon.
#[unsafe(no_mangle)]
pub extern "C" fn contour_area(ring: &[u16], area: &mut i64) -> u32
    ensures value { result ≡ status_of (area_refused ring.now) }
    ensures area_after { area.new ≡ area_output ring.now area.old }
{
    let found = area::area(ring);
    told(found, area)
}

// The number of a place: 1 for inside, 0 for the boundary, -1 for outside.
fn place_number(place: Containment) -> i32
    ensures { result ≡ place_number place }
{
    match place {
        Containment::Inside => 1,
        Containment::Boundary => 0,
        Containment::Outside => -1,
    }
}

// The tested ring against the outer ring: 1 for inside, 0 for the boundary, -1 for outside.
#[unsafe(no_mangle)]
pub extern "C" fn contour_contains(outer: &[u16], tested: &[u16], answer: &mut i32) -> u32
    ensures value { result ≡ status_of (contains_refused outer.now tested.now) }
    ensures answer_after { answer.new ≡ contains_output outer.now tested.now answer.old }
{
    match area::contains(outer, tested) {
        Ok(place) => {
            *answer = place_number(place);
            0
        }
        Err(refusal) => error::number(refusal),
    }
}

// The segments that a grid draws at a threshold under a rule and the peak of its open lines, with no table at all.
#[unsafe(no_mangle)]
pub extern "C" fn contour_first_report(
    values: &[f64],
    threshold: f64,
    rule: u32,
    dx: usize,
    dy: usize,
    segments: &mut u32,
    peak: &mut u32,
) -> u32
    ensures value { result ≡ first_status (first_report values.now (level_of threshold rule) dx dy) }
    ensures segments_after { segments.new ≡ first_segments segments.old (first_report values.now (level_of threshold rule) dx dy) }
    ensures peak_after { peak.new ≡ first_peak peak.old (first_report values.now (level_of threshold rule) dx dy) }
{
    let level = level_of(threshold, rule);
    let report = scan::first_report(values, level, dx, dy);
    told_first(report, segments, peak)
}

// The segments, the rings, the peak of open lines and the points of a grid at a threshold under a rule, over both work tables.
#[unsafe(no_mangle)]
pub extern "C" fn contour_second_report(
    values: &[f64],
    threshold: f64,
    rule: u32,
    dx: usize,
    dy: usize,
    lines: &mut [u32],
    links: &mut [u32],
    segments: &mut u32,
    rings: &mut u32,
    peak: &mut u32,
    points: &mut u32,
) -> u32
    ensures { SecondEntry (SecondReported values.now (level_of threshold rule) dx dy lines.old links.old)
        segments.old rings.old peak.old points.old result
        lines.new links.new segments.new rings.new peak.new points.new }
{
    let level = level_of(threshold, rule);
    let report = isoringbuilder::second_report(values, level, dx, dy, lines, links);
    told_second(report, segments, rings, peak, points)
}

// Every ring of a grid at a threshold under a rule, in the crate's order, as packed points and directory records.
#[unsafe(no_mangle)]
pub extern "C" fn contour_rings(
    values: &[f64],
    threshold: f64,
    rule: u32,
    dx: usize,
    dy: usize,
    lines: &mut [u32],
    links: &mut [u32],
    points: &mut [u16],
    directory: &mut [u32],
    rings: &mut u32,
) -> u32
    ensures { RingsEntry (RingsBuilt values.now (level_of threshold rule) dx dy lines.old links.old points.old directory.old) rings.old result
        lines.new links.new points.new directory.new rings.new }
{
    let level = level_of(threshold, rule);
    let built = isoringbuilder::contour_rings(
        values, level, dx, dy, lines, links, points, directory,
    );
    told(built, rings)
}

// The status of a call for a terrain that comes row by row. Where the call is taken its state is stored in the state's words, and the number of its rings is set.
fn settle(step: Step, state: &mut [u32; STATE_WORDS], rings: &mut u32) -> u32
    ensures value { result ≡ built_status step.answer }
    ensures state_after { state.new ≡ state_words state.old step.state step.answer }
    ensures rings_after { rings.new ≡ built_rings rings.old step.answer }
{
    let answer = step.answer;
    match answer {
        Ok(count) => {
            store_state(step.state, state);
            *rings = count;
            0
        }
        Err(why) => error::number(why),
    }
}

// The state before the first row of a terrain that comes row by row. A refusal leaves the state's words as they were.
#[unsafe(no_mangle)]
pub extern "C" fn contour_rows_begin(
    threshold: f64,
    rule: u32,
    dx: usize,
    dy: usize,
    state: &mut [u32; STATE_WORDS],
) -> u32
    ensures value { result ≡ built_status (begun_answer dx dy) }
    ensures state_after { state.new ≡ state_words state.old (begun_state (level_of threshold rule) dx dy) (begun_answer dx dy) }
{
    let step = rows::begin(level_of(threshold, rule), dx, dy);
    let mut none = 0;
    settle(step, state, &mut none)
}

// The next row of values: the rings that close in its row of cells, as packed points and directory records, both from the first word on.
#[unsafe(no_mangle)]
pub extern "C" fn contour_rows_row(
    state: &mut [u32; STATE_WORDS],
    values: &[f64],
    lines: &mut [u32],
    links: &mut [u32],
    points: &mut [u16],
    directory: &mut [u32],
    rings: &mut u32,
) -> u32
    ensures { RowEntry (row_called (state_in state.old) values.now lines.old links.old points.old directory.old)
        state.old rings.old result
        state.new lines.new links.new points.new directory.new rings.new }
{
    let step = rows::row(state_of(state), values, lines, links, points, directory);
    settle(step, state, rings)
}

// The last row of cells, below the last row of values. Afterwards the words that the calls have used are zero.
#[unsafe(no_mangle)]
pub extern "C" fn contour_rows_end(
    state: &mut [u32; STATE_WORDS],
    lines: &mut [u32],
    links: &mut [u32],
    points: &mut [u16],
    directory: &mut [u32],
    rings: &mut u32,
) -> u32
    ensures { RowEntry (end_called (state_in state.old) lines.old links.old points.old directory.old)
        state.old rings.old result
        state.new lines.new links.new points.new directory.new rings.new }
{
    let step = rows::end(state_of(state), lines, links, points, directory);
    settle(step, state, rings)
}

// Every ring of a grid at a threshold under a rule as a line, as contour_rings gives them, with points that are smoothed unless `smooth` is 0, then placed by
// the origin and the step.
#[unsafe(no_mangle)]
pub extern "C" fn contour_lines(
    values: &[f64],
    threshold: f64,
    rule: u32,
    dx: usize,
    dy: usize,
    smooth: u32,
    x_origin: f64,
    y_origin: f64,
    x_step: f64,
    y_step: f64,
    lines: &mut [u32],
    links: &mut [u32],
    points: &mut [f64],
    directory: &mut [u32],
    rings: &mut u32,
) -> u32
    ensures { RingsEntry (LinesBuilt values.now (level_of threshold rule) dx dy (asked smooth) (record { x_origin = x_origin; y_origin = y_origin; x_step = x_step; y_step = y_step })
        lines.old links.old points.old directory.old) rings.old result
        lines.new links.new points.new directory.new rings.new }
{
    let level = level_of(threshold, rule);
    let placement = Placement {
        x_origin,
        y_origin,
        x_step,
        y_step,
    };
    let built = linebuilder::contour_lines(
        values,
        level,
        dx,
        dy,
        smooth != 0,
        placement,
        lines,
        links,
        points,
        directory,
    );
    told(built, rings)
}

// Every ring of a grid at a threshold under a rule, as contour_rings gives them, with its class and its owner in its directory record.
#[unsafe(no_mangle)]
pub extern "C" fn contour_contours(
    values: &[f64],
    threshold: f64,
    rule: u32,
    dx: usize,
    dy: usize,
    lines: &mut [u32],
    links: &mut [u32],
    points: &mut [u16],
    directory: &mut [u32],
    rings: &mut u32,
) -> u32
    ensures { RingsEntry (ContoursBuilt values.now (level_of threshold rule) dx dy lines.old links.old points.old directory.old) rings.old result
        lines.new links.new points.new directory.new rings.new }
{
    let level = level_of(threshold, rule);
    let built = contourbuilder::contours(values, level, dx, dy, lines, links, points, directory);
    told(built, rings)
}

// The larger segment count and the larger peak of the thresholds k and k + 1 of a list under a rule, with no table at all.
#[unsafe(no_mangle)]
pub extern "C" fn contour_band_first_report(
    values: &[f64],
    thresholds: &[f64],
    rule: u32,
    k: usize,
    dx: usize,
    dy: usize,
    segments: &mut u32,
    peak: &mut u32,
) -> u32
    ensures value { result ≡ first_status (band_first_report values.now thresholds.now (rule_of rule) k dx dy) }
    ensures segments_after { segments.new ≡ first_segments segments.old (band_first_report values.now thresholds.now (rule_of rule) k dx dy) }
    ensures peak_after { peak.new ≡ first_peak peak.old (band_first_report values.now thresholds.now (rule_of rule) k dx dy) }
{
    let report = bands::band_first_report(values, thresholds, rule_of(rule), k, dx, dy);
    told_first(report, segments, peak)
}

// What a band of the thresholds k and k + 1 of a list under a rule needs, over both work tables: the larger segment count, the rings of both sets, the larger
// peak of open lines, and the points of both sets.
#[unsafe(no_mangle)]
pub extern "C" fn contour_band_second_report(
    values: &[f64],
    thresholds: &[f64],
    rule: u32,
    k: usize,
    dx: usize,
    dy: usize,
    lines: &mut [u32],
    links: &mut [u32],
    segments: &mut u32,
    rings: &mut u32,
    peak: &mut u32,
    points: &mut u32,
) -> u32
    ensures { SecondEntry (BandReported values.now thresholds.now (rule_of rule) k dx dy lines.old links.old)
        segments.old rings.old peak.old points.old result
        lines.new links.new segments.new rings.new peak.new points.new }
{
    let report = bands::band_second_report(
        values,
        thresholds,
        rule_of(rule),
        k,
        dx,
        dy,
        lines,
        links,
    );
    told_second(report, segments, rings, peak, points)
}

// Every ring of the band of thresholds k and k + 1 of a list under a rule, with its class and its owner: points of the lower set first, and records in the
// band's sorted order.
#[unsafe(no_mangle)]
pub extern "C" fn contour_isobands(
    values: &[f64],
    thresholds: &[f64],
    rule: u32,
    k: usize,
    dx: usize,
    dy: usize,
    lines: &mut [u32],
    links: &mut [u32],
    points: &mut [u16],
    directory: &mut [u32],
    rings: &mut u32,
) -> u32
    ensures { RingsEntry (BandBuilt values.now thresholds.now (rule_of rule) k dx dy lines.old links.old points.old directory.old) rings.old result
        lines.new links.new points.new directory.new rings.new }
{
    let built = contourbuilder::isobands(
        values,
        thresholds,
        rule_of(rule),
        k,
        dx,
        dy,
        lines,
        links,
        points,
        directory,
    );
    told(built, rings)
}

// Whether the writer takes a ring set: 0, or 9.
#[unsafe(no_mangle)]
pub extern "C" fn contour_check(points: &[u16], directory: &[u32], rings: u32) -> u32
    ensures { result ≡ check_status (ring_set_refused points.now directory.now rings) }
{
    if ringset::ring_set_faulty(points, directory, rings) {
        return error::number(Refusal::BadRingSet);
    }
    0
}

// The number of bytes that the text of a ring set needs.
#[unsafe(no_mangle)]
pub extern "C" fn contour_geojson_length(
    points: &[u16],
    directory: &[u32],
    rings: u32,
    length: &mut u64,
) -> u32
    ensures value { result ≡ text_status (length_answer points.now directory.now rings) }
    ensures length_after { length.new ≡ text_length length.old (length_answer points.now directory.now rings) }
{
    let needed = geojson::geojson_length(points, directory, rings);
    told(needed, length)
}

// The text of a ring set, one GeoJSON MultiPolygon, and its number of bytes. Bytes past the text stay.
#[unsafe(no_mangle)]
pub extern "C" fn contour_geojson(
    points: &[u16],
    directory: &[u32],
    rings: u32,
    text: &mut [u8],
    length: &mut u64,
) -> u32
    ensures value { result ≡ text_status (written_answer points.now directory.now rings text.old) }
    ensures text_after { text.new ≡ text_after points.now directory.now rings text.old }
    ensures length_after { length.new ≡ text_length length.old (written_answer points.now directory.now rings text.old) }
{
    let written = geojson::write_geojson(points, directory, rings, text);
    told(written, length)
}

// What becomes of a ring of a contour, by the points of a ring set: its class and its owner as a record has them, and the vertex that decided it for its owner.
#[unsafe(no_mangle)]
pub extern "C" fn contour_ring_fate(
    points: &[u16],
    directory: &[u32],
    rings: u32,
    ring: u32,
    ring_class: &mut u32,
    owner: &mut u32,
    vertex: &mut u32,
) -> u32
    ensures { FateEntry (FateFound points.now directory.now rings ring) ring ring_class.old owner.old vertex.old result
        ring_class.new owner.new vertex.new }
{
    let fate = explaining::ring_fate(points, directory, rings, ring);
    tell_fate(fate, ring, ring_class, owner, vertex)
}

// What one ring of a ring set answers for another, -1, 0 or 1, and the vertex that decides.
#[unsafe(no_mangle)]
pub extern "C" fn contour_polygon_answer(
    points: &[u16],
    directory: &[u32],
    rings: u32,
    polygon: u32,
    ring: u32,
    answer: &mut i32,
    vertex: &mut u32,
) -> u32
    ensures value { result ≡ answer_status (polygon_answer points.now directory.now rings polygon ring) }
    ensures answer_after { answer.new ≡ answer_output answer.old (polygon_answer points.now directory.now rings polygon ring) }
    ensures vertex_after { vertex.new ≡ answer_vertex vertex.old (polygon_answer points.now directory.now rings polygon ring) }
{
    let answered = explaining::polygon_answer(points, directory, rings, polygon, ring);
    tell_answer(answered, answer, vertex)
}

// What smoothing does to a vertex of a ring set, coordinate by coordinate: 0 where it stays, 1 where it moves by the fraction, 2 where the fraction is not a number.
#[unsafe(no_mangle)]
pub extern "C" fn contour_smoothed_vertex(
    values: &[f64],
    threshold: f64,
    rule: u32,
    dx: usize,
    dy: usize,
    points: &[u16],
    directory: &[u32],
    rings: u32,
    ring: u32,
    vertex: u32,
    x_kind: &mut u32,
    x_fraction: &mut f64,
    y_kind: &mut u32,
    y_fraction: &mut f64,
) -> u32
    ensures { VertexEntry (vertex_answer values.now threshold dx dy points.now directory.now rings ring vertex)
        x_kind.old x_fraction.old y_kind.old y_fraction.old result
        x_kind.new x_fraction.new y_kind.new y_fraction.new }
{
    let level = level_of(threshold, rule);
    let answered = explaining::smoothed_vertex(
        values, level, dx, dy, points, directory, rings, ring, vertex,
    );
    tell_vertex(answered, x_kind, x_fraction, y_kind, y_fraction)
}
