// Whether a ring takes another, which is that its answer for it is not -1, over the points of all rings in packed order.
#![tactic(auto)]

ghost use Rattle.std.specs.Prelude.{◌≡◌, ◌+◌, ◌*◌, ◌≤◌, length};
ghost use Rattle.scope.specs.Containment.{signed, point_against};
ghost use Rattle.scope.specs.Contour.{takes};
ghost use Rattle.area.specs.Points.{meant};
ghost use Rattle.area.specs.Answers.{place_of};
ghost use Rattle.extents.specs.Points.{ring_in, RingThere};
ghost use Rattle.extents.specs.Ladders.{Raised, Chunked};
ghost use Rattle.taking.specs.Places.{walk_to, beside};
ghost use Rattle.taking.specs.Stretches.{StretchThere, PassedOver, first_items, StopsAt};

use area::{Containment, Point, flips, on_pair, point_at};
use extents::{Extent, Ladder, Span, next_near};

// The points of all rings in packed order, and a ladder over them in a table.
#[derive(Clone, Copy)]
struct Packed<'a> {
    points: &'a [u16],
    table: &'a [u32],
    chunks: Ladder,
    ghost chunked: { Chunked points.now table.now chunks },
}

// Whether both rows lie before the row y, or both after it.
#[tactic(auto, unfolding(crate::specs::Places::beside))]
fn beside(ay: u16, by: u16, y: u16) -> bool
    ensures { result ≡ beside ay by y }
{
    (ay < y && by < y) || (y < ay && y < by)
}

// Where a point on no pair lies, by the sign.
#[tactic(auto, unfolding(area::specs::Answers::place_of, scope::specs::Containment::signed))]
fn by_sign(within: bool) -> Containment
    ensures { result ≡ place_of (signed within) }
{
    if within {
        Containment::Inside
    } else {
        Containment::Outside
    }
}

// The point p against the pairs of neighbours from the point of number `from` to that of number `to`, with the sign `inside` so far: `Boundary` where it is on a
// pair, and else inside or outside by the sign. A pair beside the point's row is passed over.
pub fn along(points: &[u16], from: usize, to: usize, p: Point, inside: bool) -> Containment
    requires { (from ≤ to) × (2 * to + 2 ≤ length points.now) }
    ensures { result ≡ place_of (walk_to points.now from to (meant p) inside) }
{
    let mut within = inside;
    for k in from..to {
        let a = point_at(points, k);
        let b = point_at(points, k + 1);
        if beside(a.y, b.y, p.y) {
            continue;
        }
        if on_pair(a, b, p) {
            return Containment::Boundary;
        }
        within = flips(a, b, p) != within;
    }
    by_sign(within)
}

// A ladder's first items, and its groups and blocks that are whole among them.
#[tactic(auto, unfolding(crate::specs::Stretches::first_items))]
fn first_items(ladder: Ladder, count: usize) -> Ladder
    ensures { result ≡ first_items ladder count }
{
    let item_count = ladder.item_count.min(count);
    let group_count = ladder.group_count.min(item_count / 64);
    let block_count = ladder.block_count.min(group_count / 64);
    Ladder {
        item_count,
        group_count,
        block_count,
        ..ladder
    }
}

// The point up to which every chunk from that of point k on is apart from what lies right of p in its row: k itself where its chunk is not, and at most `last`.
fn near_from(table: &[u32], chunks: Ladder, k: usize, last: usize, p: Point) -> usize
    requires { Raised table.now chunks × (k ≤ last) }
    ensures { PassedOver table.now chunks (meant p) k last result }
{
    let chunk = k / 64;
    if chunks.item_count <= chunk {
        return k;
    }
    let ray = Extent {
        left: p.x,
        right: 65535,
        top: p.y,
        bottom: p.y,
    };
    next_near(table, chunks, chunk, ray)
        .saturating_mul(64)
        .clamp(k, last)
}

// The end of the chunk of point k, at most `last`.
fn stop_after(k: usize, last: usize) -> usize
    requires { k ≤ last }
    ensures { StopsAt k last result }
{
    k + (64 - k % 64).min(last - k)
}

impl Packed<'_> {
    // As `along`, where the ladder passes over the chunks that are apart from what lies right of the point in its row.
    fn along_near(&self, from: usize, last: usize, p: Point, inside: bool) -> Containment
        requires { StretchThere self.now.points.now from last }
        ensures { result ≡ place_of (walk_to self.now.points.now from last (meant p) inside) }
    {
        let ladder = first_items(self.chunks, last / 64 + 1);
        let mut within = inside;
        let mut k = from;
        // Kept: a turn goes on behind the chunks that are passed over and the one that is walked, which no range counts.
        while k < last {
            let near = near_from(self.table, ladder, k, last, p);
            k = stop_after(near, last);
            let place = along(self.points, near, k, p, within);
            match place {
                Containment::Boundary => return Containment::Boundary,
                Containment::Inside => within = true,
                Containment::Outside => within = false,
            }
        }
        by_sign(within)
    }

    // The point p against a ring. A ring of few points is walked straight.
    fn against(&self, ring: Span, p: Point) -> Containment
        requires { RingThere self.now.points.now ring.first ring.count }
        ensures { result ≡ place_of (point_against (ring_in self.now.points.now ring.first ring.count) (meant p)) }
    {
        let Span { first, count } = ring;
        let last = first + (count - 1);
        let a = point_at(self.points, last);
        let b = point_at(self.points, first);
        if on_pair(a, b, p) {
            return Containment::Boundary;
        }
        let inside = flips(a, b, p);
        if count <= 64 {
            return along(self.points, first, last, p, inside);
        }
        self.along_near(first, last, p, inside)
    }
}

// Whether the outer ring takes the tested ring. The ladder passes over points of the outer ring that can neither hold a vertex nor flip its sign.
pub fn takes(points: &[u16], outer: Span, tested: Span, table: &[u32], chunks: Ladder) -> bool
    requires { RingThere points.now outer.first outer.count × RingThere points.now tested.first tested.count × Chunked points.now table.now chunks }
    ensures { result ≡ takes (ring_in points.now outer.first outer.count) (ring_in points.now tested.first tested.count) }
{
    let packed = Packed {
        points,
        table,
        chunks,
    };
    for v in tested.first..tested.first + tested.count {
        let p = point_at(points, v);
        let place = packed.against(outer, p);
        match place {
            Containment::Boundary => continue,
            Containment::Inside => return true,
            Containment::Outside => return false,
        }
    }
    true
}
