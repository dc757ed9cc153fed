// A line's vertex as f64: smoothed or not, then placed. Each operation is rounded once, left to right, and every function is total.
#![tactic(auto)]

ghost use Rattle.std.specs.Prelude.{◌≡◌, cond, Some, None, ◌-◌, ◌/◌};
ghost use Rattle.scope.specs.Smoothing.{moved, sample_at, moves, real_of, placing, placed_at, line_vertex};
ghost use Rattle.smoothing.specs.Coordinates.{fraction, moved_by, coordinate_moves, vertex_moves};
ghost use Rattle.smoothing.specs.Values.{placing_of, vertex_of};

use cells::Point;
use lent::value_or;
use scope::Level;

// Where a line is to stand: the place of the point (0, 0), and how far apart neighbouring columns and rows are.
#[derive(Clone, Copy, PartialEq)]
pub struct Placement {
    pub x_origin: f64,
    pub y_origin: f64,
    pub x_step: f64,
    pub y_step: f64,
}

// A vertex of a line.
#[derive(Clone, Copy)]
pub struct Vertex {
    pub x: f64,
    pub y: f64,
}

// What smoothing does to a coordinate.
#[derive(Clone, Copy)]
pub enum Coordinate {
    // it is a half, or no less than the side, or 0, and stays
    Stayed,
    // x becomes x + fraction - 0.5, by this fraction
    Moved(f64),
    // the fraction is not a number, and what the coordinate becomes is none either
    NotANumber,
}

// What smoothing does to a vertex.
#[derive(Clone, Copy)]
pub struct VertexMoves {
    pub x: Coordinate,
    pub y: Coordinate,
}

// The real coordinate of a doubled one.
fn real_of(doubled: u32) -> f64
    ensures { result ≡ real_of doubled }
{
    f64::from(doubled) * 0.5
}

// The sample in column `x` and row `y`; not a number where there is none at its place.
fn sample_at(values: &[f64], dx: u32, x: u32, y: u32) -> f64
    ensures { result ≡ sample_at values.now dx x y }
{
    let i = (y as usize) * (dx as usize) + (x as usize);
    value_or(values, i, f64::NAN)
}

// Whether smoothing moves a doubled coordinate: it is whole, above 0 and below the side.
#[tactic(auto, unfolding(scope::specs::Smoothing::moves))]
fn moves(side: u32, doubled: u32) -> bool
    ensures { result ≡ moves side doubled }
{
    doubled % 2 == 0 && 0 < doubled && u64::from(doubled) < 2 * u64::from(side)
}

// The column and the row that a point of doubled coordinates lies in.
fn place_of(point: Point) -> Point
    ensures { (result.x ≡ point.x / 2) × (result.y ≡ point.y / 2) }
{
    Point {
        x: point.x / 2,
        y: point.y / 2,
    }
}

// The place before one in its row, or the first.
fn before_in_row(place: Point) -> Point
    ensures { (result.x ≡ place.x - 1) × (result.y ≡ place.y) }
{
    Point {
        x: place.x.saturating_sub(1),
        ..place
    }
}

// The place before one in its column, or the first.
fn before_in_column(place: Point) -> Point
    ensures { (result.x ≡ place.x) × (result.y ≡ place.y - 1) }
{
    Point {
        y: place.y.saturating_sub(1),
        ..place
    }
}

// How far the threshold lies on the way from one sample to the next.
#[tactic(auto, unfolding(crate::specs::Coordinates::fraction))]
fn fraction(threshold: f64, v0: f64, v1: f64) -> f64
    ensures { result ≡ fraction threshold v0 v1 }
{
    (threshold - v0) / (v1 - v0)
}

// The fraction by which smoothing moves a doubled coordinate, between the sample at `from` and the one at `to`; none where the coordinate stays.
fn fraction_at(
    values: &[f64],
    level: Level,
    dx: u32,
    side: u32,
    doubled: u32,
    from: Point,
    to: Point,
) -> Option<f64>
    ensures { result ≡ cond (moves side doubled) (Some (fraction level.threshold (sample_at values.now dx from.x from.y) (sample_at values.now dx to.x to.y))) None }
{
    if moves(side, doubled) {
        let v0 = sample_at(values, dx, from.x, from.y);
        let v1 = sample_at(values, dx, to.x, to.y);
        Some(fraction(level.threshold, v0, v1))
    } else {
        None
    }
}

// A coordinate of a smoothed vertex: where it moves it lies between the sample at `from` and the one at `to`.
fn smoothed(
    values: &[f64],
    level: Level,
    dx: u32,
    side: u32,
    doubled: u32,
    from: Point,
    to: Point,
) -> f64
    ensures { result ≡ cond (moves side doubled) (moved level.threshold (sample_at values.now dx from.x from.y) (sample_at values.now dx to.x to.y) (real_of doubled)) (real_of doubled) }
{
    let x = real_of(doubled);
    match fraction_at(values, level, dx, side, doubled, from, to) {
        Some(fraction) => x + fraction - 0.5,
        None => x,
    }
}

// The placement that moves nothing.
const IN_PLACE: Placement = Placement {
    x_origin: 0.0,
    y_origin: 0.0,
    x_step: 1.0,
    y_step: 1.0,
};

// Whether a placement moves anything: its origin differs from (0, 0) or its step from (1, 1).
fn places(placement: Placement) -> bool
    ensures { result ≡ placing (placing_of placement) }
{
    placement != IN_PLACE
}

// A vertex in its place.
#[tactic(auto, unfolding(scope::specs::Smoothing::placed_at, crate::specs::Values::placing_of, crate::specs::Values::vertex_of))]
fn placed_at(placement: Placement, vertex: Vertex) -> Vertex
    ensures { vertex_of result ≡ placed_at (placing_of placement) (vertex_of vertex) }
{
    if places(placement) {
        Vertex {
            x: vertex.x * placement.x_step + placement.x_origin,
            y: vertex.y * placement.y_step + placement.y_origin,
        }
    } else {
        vertex
    }
}

// The vertex of a line at a point of doubled coordinates: smoothed where that is asked, then placed.
#[tactic(auto, unfolding(scope::specs::Smoothing::line_vertex, scope::specs::Smoothing::smoothed, scope::specs::Smoothing::unsmoothed, crate::specs::Values::vertex_of))]
pub fn line_vertex(
    values: &[f64],
    level: Level,
    dx: u32,
    dy: u32,
    smooth: bool,
    placement: Placement,
    point: Point,
) -> Vertex
    ensures { vertex_of result ≡ line_vertex smooth values.now level.threshold dx dy (placing_of placement) (record { x = point.x; y = point.y }) }
{
    if smooth {
        let at = place_of(point);
        let in_row = before_in_row(at);
        let in_column = before_in_column(at);
        placed_at(
            placement,
            Vertex {
                x: smoothed(values, level, dx, dx, point.x, in_row, at),
                y: smoothed(values, level, dx, dy, point.y, in_column, at),
            },
        )
    } else {
        placed_at(
            placement,
            Vertex {
                x: real_of(point.x),
                y: real_of(point.y),
            },
        )
    }
}

// A coordinate that moves by a fraction, if that is a number.
#[tactic(auto, unfolding(crate::specs::Coordinates::moved_by))]
fn moved_by(fraction: f64) -> Coordinate
    ensures { result ≡ moved_by fraction }
{
    if fraction.is_nan() {
        Coordinate::NotANumber
    } else {
        Coordinate::Moved(fraction)
    }
}

// What smoothing does to a doubled coordinate: where it moves it lies between the sample at `from` and the one at `to`.
#[tactic(auto, unfolding(crate::specs::Coordinates::coordinate_moves))]
fn coordinate_moves(
    values: &[f64],
    level: Level,
    dx: u32,
    side: u32,
    doubled: u32,
    from: Point,
    to: Point,
) -> Coordinate
    ensures { result ≡ coordinate_moves side doubled (fraction level.threshold (sample_at values.now dx from.x from.y) (sample_at values.now dx to.x to.y)) }
{
    match fraction_at(values, level, dx, side, doubled, from, to) {
        Some(fraction) => moved_by(fraction),
        None => Coordinate::Stayed,
    }
}

// What smoothing does to the vertex at a point of doubled coordinates.
#[tactic(auto, unfolding(crate::specs::Coordinates::vertex_moves))]
pub fn vertex_moves(values: &[f64], level: Level, dx: u32, dy: u32, point: Point) -> VertexMoves
    ensures { result ≡ vertex_moves values.now level.threshold dx dy (record { x = point.x; y = point.y }) }
{
    let at = place_of(point);
    let in_row = before_in_row(at);
    let in_column = before_in_column(at);
    VertexMoves {
        x: coordinate_moves(values, level, dx, dx, point.x, in_row, at),
        y: coordinate_moves(values, level, dx, dy, point.y, in_column, at),
    }
}
