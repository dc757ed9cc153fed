// What a build writes once all rings are closed: the points and the directory, by one walk along the links, and the zeros that the work tables are left
// with. Every function is total: a word past a table's end reads as 0 and is not stored.
#![tactic(auto)]

ghost use Rattle.std.specs.Prelude.{◌≡◌, ◌+◌, ◌*◌, ◌%◌, ◌^◌, ◌<◌};
ghost use Rattle.std.proofs.lemmas.List.Edits.{sets};
ghost use Rattle.machine.specs.Walk.{index_words, point_words, walk_points, record_words, walk_records};
ghost use Rattle.packing.specs.Cleared.{cleared};

use lent::{MARK, low_word, put};
use limits::{LINE, NO_OWNER, SHORT_STRIDE};
use lines::tables::{link_point, next_link};

// Stores the point of an index as two words, from word `at` on: X, then Y.
#[tactic(auto, unfolding(machine::specs::Walk::index_words, scope::specs::Cells::indexed_point))]
pub fn put_index(points: &mut [u16], dx: u32, index: u32, at: usize)
    ensures { points.new ≡ sets points.old at (index_words dx index) }
{
    let stride = 2 * (u64::from(dx) + 1);
    let x = (u64::from(index) % stride & 0xffff) as u16;
    let y = (u64::from(index) / stride & 0xffff) as u16;
    if at < points.len() {
        put(points, at, x);
        put(points, at + 1, y);
    }
}

// Stores the start point of link `k`, from word `at` on.
#[tactic(auto, unfolding(machine::specs::Walk::point_words))]
fn put_point(links: &[u32], dx: u32, k: u32, points: &mut [u16], at: usize)
    ensures { points.new ≡ sets points.old at (point_words dx links.now k) }
{
    put_index(points, dx, link_point(links, k), at);
}

// Stores the record of a ring without its area as four words, from word `at` on: the number of its first point, how many points it has, its class, and no
// owner.
// Kept: a record is words of a lent table and no struct, since the library allocates nothing and the C interface lends words.
#[tactic(auto, unfolding(machine::specs::Walk::record_words, scope::specs::Limits::no_owner))]
pub fn put_record(directory: &mut [u32], at: usize, first: u64, count: u64)
    ensures { directory.new ≡ sets directory.old at (record_words first count) }
{
    if at < directory.len() {
        put(directory, at, low_word(first));
        put(directory, at + 1, low_word(count));
        put(directory, at + 2, LINE);
        put(directory, at + 3, NO_OWNER);
    }
}

// How far a walk along the links has come: the ring's first link and the link that is next, the word that the next point goes to and the word that the ring's
// record goes to, the number of the ring's first point, and how many links of the ring are behind.
#[derive(Clone, Copy)]
pub struct Walk {
    pub first: u32,
    pub k: u32,
    pub at: usize,
    pub record_at: usize,
    pub first_point: u64,
    pub size: u64,
}

impl Walk {
    // A walk that begins at link `head`.
    pub fn begin(head: u32) -> Walk
        ensures { result ≡ record { first = head; k = head; at = 0; record_at = 0; first_point = 0; size = 0 } }
    {
        Walk {
            first: head,
            k: head,
            at: 0,
            record_at: 0,
            first_point: 0,
            size: 0,
        }
    }

    // Past a link with its point, on to the next link of its ring.
    pub fn along(self, next: u32) -> Walk
        requires { (self.at + 2 < 2 ^ 64) × (self.size + 1 < 2 ^ 64) }
        ensures { result ≡ record self { k = next; at = self.at + 2; size = self.size + 1 } }
    {
        Walk {
            k: next,
            at: self.at + 2,
            size: self.size + 1,
            ..self
        }
    }

    // Past the last link of a ring, with its point and the closing one and a record of `stride` words, on to the first link of the next ring.
    pub fn around(self, next: u32, stride: usize) -> Walk
        requires { (self.at + 4 < 2 ^ 64) × (self.record_at + stride < 2 ^ 64) × (self.first_point + (self.size + 2) < 2 ^ 64) }
        ensures { result ≡ record { first = next; k = next; at = self.at + 4; record_at = self.record_at + stride; first_point = self.first_point + (self.size + 2); size = 0 } }
    {
        Walk {
            first: next,
            k: next,
            at: self.at + 4,
            record_at: self.record_at + stride,
            first_point: self.first_point + (self.size + 2),
            size: 0,
        }
    }
}

// Walks `count` links from link `head` on. The points of the rings are stored one after the other from word 0 on, two words a point: a point for each link,
// and at a ring's end its first point again. There the ring's record is stored too, without its area, one record after the other from word 0 on, four words a
// record. Past the end of a table nothing is stored.
// Kept: `write_lines` of `plotting` has this loop too; a closure that stores would hide from its caller what it stored, a trait needs a struct and laws a walk.
pub fn write_rings(
    links: &[u32],
    dx: u32,
    head: u32,
    count: u32,
    points: &mut [u16],
    directory: &mut [u32],
)
    ensures points_after { points.new ≡ sets points.old 0 (walk_points dx links.now head head count) }
    ensures directory_after { directory.new ≡ sets directory.old 0 (walk_records links.now 0 0 head count) }
{
    let mut walk = Walk::begin(head);
    for _ in 0..count {
        put_point(links, dx, walk.k, points, walk.at);
        let next = next_link(links, walk.k);
        if next < MARK {
            walk = walk.along(next);
        } else {
            put_point(links, dx, walk.first, points, walk.at + 2);
            put_record(directory, walk.record_at, walk.first_point, walk.size + 2);
            walk = walk.around(next - MARK, SHORT_STRIDE);
        }
    }
}

// Sets the first `words` words of a table to 0, or all where there are fewer. The rest stay.
#[tactic(auto, using(std::proofs::lemmas::List::drop_min), unfolding(crate::specs::Cleared::cleared))]
pub fn clear(table: &mut [u32], words: usize)
    ensures { table.new ≡ cleared table.old words }
{
    let end = words.min(table.len());
    table[..end].fill(0);
}
