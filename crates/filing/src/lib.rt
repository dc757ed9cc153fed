// The table that a search for classes and owners goes by: the extents of the rings by number, the record of each, and the ladders over rings and points.
#![tactic(auto)]

ghost use Rattle.std.specs.Prelude.{◌≡◌, ◌*◌, ◌^◌, ◌≤◌, ◌<◌, length};
ghost use Rattle.extents.specs.Records.{RingsThere, Permutes, record_number, Filed};
ghost use Rattle.filing.specs.Steps.{Rankable, Ranked, Measurable, MeasuredOne, Measured, ladder_end};

use extents::{Ladder, Span};
use limits::SHORT_STRIDE;

// The ladder over the rings and the ladder over the points.
#[derive(Clone, Copy)]
pub struct Filing {
    pub rings: Ladder,
    pub chunks: Ladder,
}

// Stores the record of each ring by the ring's number, behind the room for the extents.
fn rank_rings(directory: &[u32], n: usize, table: &mut [u32])
    requires { Rankable directory.now table.old n }
    ensures { Ranked directory.now table.old table.new n }
{
    let ranks = 2 * n;
    for r in 0..n {
        let number = directory[SHORT_STRIDE * r + 3] as usize;
        table[ranks + number] = r as u32;
    }
}

// Stores the extent of the ring of number `i`, whose record stands among the ranks.
#[tactic(auto, using(crate::proofs::Measures::record_there), unfolding(extents::specs::Records::rank_of))]
fn measure_ring(points: &[u16], directory: &[u32], n: usize, i: usize, table: &mut [u32])
    requires { Measurable points.now directory.now table.old n × (i < n) }
    ensures { MeasuredOne points.now directory.now table.old table.new n i }
{
    let r = table[2 * n + i] as usize;
    let first = directory[SHORT_STRIDE * r] as usize;
    let count = directory[SHORT_STRIDE * r + 1] as usize;
    let extent = extents::extent_of(points, Span { first, count });
    extents::put_extent(table, 2 * i, extent);
}

// Stores the extents of the rings by number, from word 0 on.
fn measure_rings(points: &[u16], directory: &[u32], n: usize, table: &mut [u32])
    requires { Measurable points.now directory.now table.old n }
    ensures { Measured points.now directory.now table.old table.new n }
{
    for i in 0..n {
        measure_ring(points, directory, n, i, table);
    }
}

// The first word behind the groups and the blocks of a ladder.
#[tactic(auto, unfolding(crate::specs::Steps::ladder_end))]
fn ladder_end(ladder: Ladder) -> usize
    requires { ladder_end ladder < 2 ^ 64 }
    ensures { result ≡ ladder_end ladder }
{
    let groups_end = ladder.groups + 2 * ladder.group_count;
    let blocks_end = ladder.blocks + 2 * ladder.block_count;
    groups_end.max(blocks_end)
}

// Fills the table for the first `n` records of a directory. Whatever room is left behind extents and ranks goes to the ladders.
pub fn file(points: &[u16], directory: &[u32], n: usize, table: &mut [u32]) -> Filing
    requires { RingsThere points.now directory.now n × (3 * n ≤ length table.old) × (n < 2 ^ 32) × Permutes (record_number directory.now) n }
    ensures { Filed points.now directory.now table.new n result.rings result.chunks }
{
    rank_rings(directory, n, table);
    measure_rings(points, directory, n, table);
    let rings = extents::raise(table, 0, n, 3 * n);
    let free = ladder_end(rings);
    let chunks = extents::chunk(points, table, free);
    Filing { rings, chunks }
}
