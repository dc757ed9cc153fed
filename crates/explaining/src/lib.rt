// Why a ring is what it is: its fate by the points of a ring set, what one ring of the set answers for another, and what smoothing does to a vertex. Nothing is
// asked of the caller, no table is lent but the set itself, and nothing changes.
// Kept: the parameters of the three public calls one by one, as the calls of `contour` have them.
#![tactic(auto)]

ghost use Rattle.std.specs.Prelude.{◌≡◌, ◌<◌};
ghost use Rattle.scope.specs.Containment.{not_outside};
ghost use Rattle.scope.specs.GeoJson.{first_at, count_at, ring_at};
ghost use Rattle.deciding.specs.Decisions.{decision_of, answer_in};
ghost use Rattle.explaining.specs.Fates.{rings_in, hole_told, is_polygon_by, FateFound, polygon_answer};
ghost use Rattle.explaining.specs.Vertices.{in_grid, midway, vertex_of_ring, vertex_told, vertex_answer};

use cells::Point;
use deciding::{Decision, decide};
use error::Refusal;
use extents::Span;
use grid::grid_fit;
use noting::area_at;
use ringset::{RingSet, record_at};
use scope::Level;
use smoothing::{VertexMoves, vertex_moves};

// What becomes of a ring of a contour.
#[derive(Clone, Copy)]
pub enum RingFate {
    // its area is above 0
    Polygon,
    // it is a hole of the polygon of this number, by what that answers: a vertex of the ring lies inside, or every vertex answers 0
    Hole(u32, Decision),
    // it is a hole, and every polygon answers -1
    Dropped,
}

// Where the points of ring `k` of a checked set stand among the points.
fn span_at(set: RingSet, k: u32) -> Span
    ensures { (result.first ≡ first_at set.entry.directory.now k) × (result.count ≡ count_at set.entry.directory.now k) }
{
    let ring = record_at(set.directory, k);
    Span {
        first: ring.first as usize,
        count: ring.count as usize,
    }
}

// Whether a ring of a checked set is a polygon by its points.
fn polygon_at(set: RingSet, k: u32) -> bool
    requires { k < set.rings }
    ensures { result ≡ is_polygon_by set.entry.points.now set.entry.directory.now k }
{
    let span = span_at(set, k);
    let area = area_at(set.points, span);
    0 < area
}

// What ring `outer` of a checked set answers for ring `k`.
fn decision_at(set: RingSet, outer: u32, k: u32) -> Decision
    requires { (outer < set.rings) × (k < set.rings) }
    ensures { result ≡ decision_of (ring_at set.entry.points.now set.entry.directory.now outer) (ring_at set.entry.points.now set.entry.directory.now k) }
{
    let outer_span = span_at(set, outer);
    let span = span_at(set, k);
    decide(set.points, outer_span, span)
}

// Whether the answer is not -1.
#[tactic(auto, unfolding(scope::specs::Containment::not_outside, deciding::specs::Decisions::answer_in))]
fn holds(answer: Decision) -> bool
    ensures { result ≡ not_outside (answer_in answer) }
{
    match answer {
        Decision::Inside(_) => true,
        Decision::Outside(_) => false,
        Decision::Undecided => true,
    }
}

// The fate of a ring of a checked set that is no polygon: the first polygon whose answer is not -1 is its owner.
fn hole_told(set: RingSet, ring: u32) -> RingFate
    requires { ring < set.rings }
    ensures { result ≡ hole_told (rings_in set.entry.points.now set.entry.directory.now set.entry.rings) (ring_at set.entry.points.now set.entry.directory.now ring) }
{
    for k in 0..set.rings {
        if !polygon_at(set, k) {
            continue;
        }
        let answer = decision_at(set, k, ring);
        if holds(answer) {
            return RingFate::Hole(k, answer);
        }
    }
    RingFate::Dropped
}

// What becomes of a ring of a contour, by the points of the ring set and not by the words of its records: what `contours` would have written for these rings. Number 9
// where the ring set is faulty, and 15 where there is no ring of this number.
#[tactic(auto, using(crate::proofs::Owners::fate_found, crate::proofs::Owners::fate_of), unfolding(crate::specs::Fates::fate_answer))]
pub fn ring_fate(
    points: &[u16],
    directory: &[u32],
    rings: u32,
    ring: u32,
) -> Result<RingFate, Refusal>
    ensures { FateFound points.now directory.now rings ring result }
{
    let contour = RingSet::check(points, directory, rings)?;
    if rings <= ring {
        return Err(Refusal::NotThere);
    }
    if polygon_at(contour, ring) {
        return Ok(RingFate::Polygon);
    }
    Ok(hole_told(contour, ring))
}

// What one ring of a ring set, called the polygon whatever its class, answers for another, with the vertex that decides: what the vertices of the other ring come to.
// Number 9 where the ring set is faulty, and 15 where there is no ring of such a number.
#[tactic(auto, unfolding(crate::specs::Fates::polygon_answer))]
pub fn polygon_answer(
    points: &[u16],
    directory: &[u32],
    rings: u32,
    polygon: u32,
    ring: u32,
) -> Result<Decision, Refusal>
    ensures { result ≡ polygon_answer points.now directory.now rings polygon ring }
{
    let set = RingSet::check(points, directory, rings)?;
    if rings <= polygon {
        return Err(Refusal::NotThere);
    }
    if rings <= ring {
        return Err(Refusal::NotThere);
    }
    Ok(decision_at(set, polygon, ring))
}

// Whether the sample in a column and a row, both counted from one outside, is in the grid.
#[tactic(auto, unfolding(crate::specs::Vertices::in_grid))]
fn in_grid(dx: u32, dy: u32, column: u32, row: u32) -> bool
    ensures { result ≡ in_grid dx dy column row }
{
    (1 <= column) & (column <= dx) & (1 <= row) & (row <= dy)
}

// Whether a point of doubled coordinates stands midway between two neighbouring samples of which at least one is in the grid.
#[tactic(auto, unfolding(crate::specs::Vertices::midway, crate::specs::Vertices::midway_in_row, crate::specs::Vertices::midway_in_column))]
fn midway(dx: u32, dy: u32, point: Point) -> bool
    ensures { result ≡ midway dx dy (record { x = point.x; y = point.y }) }
{
    let x = point.x;
    let y = point.y;
    let below = in_grid(dx, dy, x / 2 + 1, y / 2 + 1);
    let in_row = (x % 2 == 0) & (y % 2 == 1) & (in_grid(dx, dy, x / 2, y / 2 + 1) | below);
    let in_column = (x % 2 == 1) & (y % 2 == 0) & (in_grid(dx, dy, x / 2 + 1, y / 2) | below);
    in_row | in_column
}

// A vertex of a ring of a checked set.
fn vertex_at(set: RingSet, ring: u32, vertex: u32) -> Point
    requires { (ring < set.rings) × (vertex < count_at set.directory.now ring) }
    ensures { record { x = result.x; y = result.y } ≡ vertex_of_ring set.entry.points.now set.entry.directory.now ring vertex }
{
    let record = record_at(set.directory, ring);
    let at = 2 * (record.first as usize + vertex as usize);
    Point {
        x: u32::from(set.points[at]),
        y: u32::from(set.points[at + 1]),
    }
}

// What smoothing does to a vertex of a checked set, or number 15.
#[tactic(auto, unfolding(crate::specs::Vertices::vertex_told, crate::specs::Vertices::vertex_there))]
fn vertex_told(
    values: &[f64],
    level: Level,
    dx: u32,
    dy: u32,
    set: RingSet,
    ring: u32,
    vertex: u32,
) -> Result<VertexMoves, Refusal>
    ensures { result ≡ vertex_told values.now level.threshold dx dy set.entry.points.now set.entry.directory.now set.entry.rings ring vertex }
{
    if set.rings <= ring {
        return Err(Refusal::NotThere);
    }
    let record = record_at(set.directory, ring);
    if record.count <= vertex {
        return Err(Refusal::NotThere);
    }
    let point = vertex_at(set, ring, vertex);
    if !midway(dx, dy, point) {
        return Err(Refusal::NotThere);
    }
    Ok(vertex_moves(values, level, dx, dy, point))
}

// What smoothing does to each coordinate of a vertex of a ring of a ring set, at a level of a grid. Numbers 1 and 2 where the grid does not fit, 9 where the ring set is
// faulty, and 15 where there is no such vertex midway between two samples.
#[tactic(auto, unfolding(crate::specs::Vertices::vertex_answer, crate::specs::Vertices::on_grid))]
pub fn smoothed_vertex(
    values: &[f64],
    level: Level,
    dx: usize,
    dy: usize,
    points: &[u16],
    directory: &[u32],
    rings: u32,
    ring: u32,
    vertex: u32,
) -> Result<VertexMoves, Refusal>
    ensures { result ≡ vertex_answer values.now level.threshold dx dy points.now directory.now rings ring vertex }
{
    grid_fit(values.len(), dx, dy)?;
    let ring_set = RingSet::check(points, directory, rings)?;
    vertex_told(values, level, dx as u32, dy as u32, ring_set, ring, vertex)
}
