// What the library answers of a ring's fate, of an answer or of a vertex, told to a caller in C: 0 or the refusal's number, and the outputs, which a refusal leaves
// as they were.
#![tactic(auto)]

ghost use Rattle.std.specs.Prelude.{◌≡◌};
ghost use Rattle.telling.specs.Outputs.{vertex_word, fate_status, fate_class, fate_owner, fate_vertex, answer_status, answer_output, answer_vertex, kind_of, fraction_of, vertex_status, x_kind_of, x_fraction_of, y_kind_of, y_fraction_of};

use deciding::Decision;
use error::Refusal;
use explaining::RingFate;
use limits::{HOLE, NO_OWNER, POLYGON};
use smoothing::{Coordinate, VertexMoves};

// The number of a vertex where none decides.
// Kept: numbers, here and in what follows, since C is told no enum.
const NO_VERTEX: u32 = 4294967295;

// The vertex that decides.
fn vertex_word(decision: Decision) -> u32
    ensures { result ≡ vertex_word decision }
{
    match decision {
        Decision::Inside(vertex) => vertex,
        Decision::Outside(vertex) => vertex,
        Decision::Undecided => NO_VERTEX,
    }
}

// The fate of ring `ring`: its class and its owner as a record has them, and the vertex that decided it for its owner.
pub fn tell_fate(
    fate: Result<RingFate, Refusal>,
    ring: u32,
    ring_class: &mut u32,
    owner: &mut u32,
    vertex: &mut u32,
) -> u32
    ensures value { result ≡ fate_status fate }
    ensures ring_class_after { ring_class.new ≡ fate_class ring_class.old fate }
    ensures owner_after { owner.new ≡ fate_owner ring owner.old fate }
    ensures vertex_after { vertex.new ≡ fate_vertex vertex.old fate }
{
    match fate {
        Ok(told) => match told {
            RingFate::Polygon => {
                *ring_class = POLYGON;
                *owner = ring;
                *vertex = NO_VERTEX;
                0
            }
            RingFate::Hole(polygon, decision) => {
                *ring_class = HOLE;
                *owner = polygon;
                *vertex = vertex_word(decision);
                0
            }
            RingFate::Dropped => {
                *ring_class = HOLE;
                *owner = NO_OWNER;
                *vertex = NO_VERTEX;
                0
            }
        },
        Err(refusal) => error::number(refusal),
    }
}

// The answer of a polygon, -1, 0 or 1, and the vertex that decides.
pub fn tell_answer(answered: Result<Decision, Refusal>, answer: &mut i32, vertex: &mut u32) -> u32
    ensures value { result ≡ answer_status answered }
    ensures answer_after { answer.new ≡ answer_output answer.old answered }
    ensures vertex_after { vertex.new ≡ answer_vertex vertex.old answered }
{
    match answered {
        Ok(decision) => {
            *vertex = vertex_word(decision);
            match decision {
                Decision::Inside(_) => {
                    *answer = 1;
                    0
                }
                Decision::Outside(_) => {
                    *answer = -1;
                    0
                }
                Decision::Undecided => {
                    *answer = 0;
                    0
                }
            }
        }
        Err(refusal) => error::number(refusal),
    }
}

// What smoothing does to a coordinate; the fraction is set where it moves.
fn tell_coordinate(coordinate: Coordinate, kind: &mut u32, fraction: &mut f64)
    ensures kind_after { kind.new ≡ kind_of coordinate }
    ensures fraction_after { fraction.new ≡ fraction_of fraction.old coordinate }
{
    match coordinate {
        Coordinate::Stayed => *kind = 0,
        Coordinate::Moved(moved) => {
            *kind = 1;
            *fraction = moved;
        }
        Coordinate::NotANumber => *kind = 2,
    }
}

// What smoothing does to a vertex.
pub fn tell_vertex(
    answered: Result<VertexMoves, Refusal>,
    x_kind: &mut u32,
    x_fraction: &mut f64,
    y_kind: &mut u32,
    y_fraction: &mut f64,
) -> u32
    ensures value { result ≡ vertex_status answered }
    ensures x_kind_after { x_kind.new ≡ x_kind_of x_kind.old answered }
    ensures x_fraction_after { x_fraction.new ≡ x_fraction_of x_fraction.old answered }
    ensures y_kind_after { y_kind.new ≡ y_kind_of y_kind.old answered }
    ensures y_fraction_after { y_fraction.new ≡ y_fraction_of y_fraction.old answered }
{
    match answered {
        Ok(moves) => {
            let x = moves.x;
            let y = moves.y;
            tell_coordinate(x, x_kind, x_fraction);
            tell_coordinate(y, y_kind, y_fraction);
            0
        }
        Err(refusal) => error::number(refusal),
    }
}
