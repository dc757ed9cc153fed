// What a build of lines writes once all rings are closed: the points as f64 and the directory, by one walk along the links. Every function is total: a word
// past a table's end reads as 0 and is not stored.
#![tactic(auto)]

ghost use Rattle.std.specs.Prelude.{◌≡◌, [], ◌∷◌, ◌++◌, ◌+◌, ◌*◌, ◌/◌, ◌%◌, ◌^◌, ◌<◌, pos};
ghost use Rattle.std.proofs.lemmas.List.Edits.{sets};
ghost use Rattle.scope.specs.Smoothing.{line_vertex};
ghost use Rattle.scope.specs.Tables.{vertex_words};
ghost use Rattle.machine.specs.Walk.{start_point, walk_words, record_words, walk_measured};
ghost use Rattle.measuring.specs.Ringed.{Turned};
ghost use Rattle.smoothing.specs.Values.{placing_of};
ghost use Rattle.plotting.specs.Plot.{point_of, vertex_at};

use cells::{Point, indexed_point};
use lent::{MARK, put};
use limits::{RECORD_STRIDE, SHORT_STRIDE};
use lines::tables::{link_point, next_link};
use measuring::{put_area, turned};
use packing::{Walk, put_record};
use scope::Level;
use smoothing::{Placement, line_vertex};

// What the vertices of a build of lines are made of: the samples with their level and their sides, whether a vertex is smoothed, and where it is placed.
#[derive(Clone, Copy)]
pub struct Plot<'a> {
    pub values: &'a [f64],
    pub level: Level,
    pub dx: u32,
    pub dy: u32,
    pub smooth: bool,
    pub placement: Placement,
    pub ghost narrow: { 2 * (dx + 1) < 2 ^ 32 },
}

impl Plot<'_> {
    // The start point of link `k`.
    #[tactic(auto, unfolding(machine::specs::Walk::start_point))]
    fn start_of(self, links: &[u32], k: u32) -> Point
        ensures { point_of result ≡ start_point self.entry.dx links.now k }
    {
        indexed_point(link_point(links, k), self.dx)
    }

    // Stores the line's vertex at a point as two words, from word `at` on: x, then y.
    #[tactic(auto, unfolding(scope::specs::Tables::vertex_words, smoothing::specs::Values::vertex_of))]
    fn put_vertex(self, point: Point, points: &mut [f64], at: usize)
        ensures { points.new ≡ sets points.old at (vertex_words (line_vertex self.entry.smooth self.entry.values.now self.entry.level.threshold self.entry.dx self.entry.dy (placing_of self.entry.placement) (point_of point) ∷ [])) }
    {
        let vertex = line_vertex(
            self.values,
            self.level,
            self.dx,
            self.dy,
            self.smooth,
            self.placement,
            point,
        );
        if at < points.len() {
            put(points, at, vertex.x);
            put(points, at + 1, vertex.y);
        }
    }
}

// An area in two's complement with what the step from one point to the next adds to it.
fn stepped(area: u64, from: Point, to: Point) -> u64
    ensures { Turned area (point_of from) (point_of to) result }
{
    turned(area, from.x, from.y, to.x, to.y)
}

// Stores the record of a line as six words, from word `at` on: the number of its first point, how many points it has, its class, no owner, and the area of its
// ring.
// Kept: words of a lent table and no struct, as `put_record` of `packing` says.
#[tactic(auto, unfolding(machine::specs::Walk::record_words))]
fn put_line(directory: &mut [u32], at: usize, first: u64, count: u64, area: u64)
    requires { at < 2 ^ 35 }
    ensures { directory.new ≡ sets directory.old at (record_words first count ++ (area % 2 ^ 32 ∷ area / 2 ^ 32 ∷ [])) }
{
    put_record(directory, at, first, count);
    put_area(directory, at + SHORT_STRIDE, area);
}

// Walks `count` links from link `head` on. The vertices of the lines are stored one after the other from word 0 on, two words a vertex: one for each link,
// and at a ring's end its first again. There the ring's record is stored too, one record after the other from word 0 on, with the area of the ring as its
// links have it, before any vertex was smoothed. Past the end of a table nothing is stored.
// Kept: `write_rings` of `packing` has this loop too, and says there why one walk for both is no plainer.
pub fn write_lines(
    plot: Plot,
    links: &[u32],
    head: u32,
    count: u32,
    points: &mut [f64],
    directory: &mut [u32],
)
    ensures points_after { points.new ≡ sets points.old 0 (walk_words (vertex_at plot.entry.smooth plot.entry.values.now plot.entry.level.threshold plot.entry.dx plot.entry.dy (placing_of plot.entry.placement) links.now) links.now head head count) }
    ensures directory_after { directory.new ≡ sets directory.old 0 (walk_measured plot.entry.dx links.now head 0 0 (pos 0) head count) }
{
    let mut walk = Walk::begin(head);
    let mut point = plot.start_of(links, head);
    let mut area: u64 = 0;
    for _ in 0..count {
        plot.put_vertex(point, points, walk.at);
        let next = next_link(links, walk.k);
        if next < MARK {
            let to = plot.start_of(links, next);
            area = stepped(area, point, to);
            point = to;
            walk = walk.along(next);
        } else {
            let begin = plot.start_of(links, walk.first);
            plot.put_vertex(begin, points, walk.at + 2);
            let whole = stepped(area, point, begin);
            put_line(
                directory,
                walk.record_at,
                walk.first_point,
                walk.size + 2,
                whole,
            );
            walk = walk.around(next - MARK, RECORD_STRIDE);
            point = plot.start_of(links, walk.k);
            area = 0;
        }
    }
}
