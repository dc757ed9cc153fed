// Which vertex of a ring decides where the ring lies to another, over the points of all rings in packed order. The outer ring is closed, so every vertex in the
// row of its first point answers 0.
#![tactic(auto)]

ghost use Rattle.std.specs.Prelude.{◌≡◌};
ghost use Rattle.extents.specs.Points.{ring_in};
ghost use Rattle.deciding.specs.Decisions.{decision_of, RingLies, RingCloses};

use area::{Containment, point_at};
use extents::Span;
use taking::along;

// What the vertices of a ring come to against another ring, the outer one.
#[derive(Clone, Copy)]
pub enum Decision {
    // the vertex of this number lies inside the outer ring, and every vertex before it answers 0
    Inside(u32),
    // the vertex of this number lies outside the outer ring, and every vertex before it answers 0
    Outside(u32),
    // every vertex answers 0
    Undecided,
}

// What the vertices of a ring come to against the outer ring. A vertex in the row of the outer ring's first point is passed over at once.
#[tactic(auto, unfolding(scope::specs::Limits::point_limit))]
pub fn decide(points: &[u16], outer: Span, ring: Span) -> Decision
    requires { RingCloses points.now outer.first outer.count × RingLies points.now ring.first ring.count }
    ensures { result ≡ decision_of (ring_in points.now outer.first outer.count) (ring_in points.now ring.first ring.count) }
{
    let last = outer.first + (outer.count - 1);
    let row = point_at(points, outer.first).y;
    for v in 0..ring.count {
        let p = point_at(points, ring.first + v);
        if p.y == row {
            continue;
        }
        let place = along(points, outer.first, last, p, false);
        match place {
            Containment::Boundary => continue,
            Containment::Inside => return Decision::Inside(v as u32),
            Containment::Outside => return Decision::Outside(v as u32),
        }
    }
    Decision::Undecided
}
