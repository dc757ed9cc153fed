// Extents of points, and ladders of extents in a table of words, by which a search passes over what lies apart.
#![tactic(auto)]

ghost use Rattle.std.specs.Prelude.{◌≡◌, true, ◌+◌, ◌*◌, ◌-◌, ◌/◌, ◌≤◌, ◌<◌, min, max, length, set};
ghost use Rattle.area.specs.Points.{meant};
ghost use Rattle.extents.specs.Points.{ring_in};
ghost use Rattle.extents.specs.Extents.{apart, grown, Inside, extent_at, extent_of};
ghost use Rattle.extents.specs.Ladders.{Raised, NextNear, RaisedOver, ChunkedOver};
ghost use Rattle.extents.specs.Filling.{Filled, HoldsItems, HoldsGroup, HoldsChunk};

use area::{Point, point_at};

// So many points in packed order, from the point of number `first` on.
#[derive(Clone, Copy, PartialEq, Eq)]
pub struct Span {
    pub first: usize,
    pub count: usize,
}

// The smallest and largest X and Y of some points.
#[derive(Clone, Copy)]
pub struct Extent {
    pub left: u16,
    pub right: u16,
    pub top: u16,
    pub bottom: u16,
}

// Where the extents of a ladder stand in its table, two words each, and how many: of the items, of every 64 items, and of every 64 of these.
// Kept: places in a lent table and no slices, since the table is written while a ladder in it is raised.
#[derive(Clone, Copy)]
pub struct Ladder {
    pub items: usize,
    pub item_count: usize,
    pub groups: usize,
    pub group_count: usize,
    pub blocks: usize,
    pub block_count: usize,
}

// Whether no point can lie in both extents.
#[tactic(auto, unfolding(crate::specs::Extents::apart))]
fn apart(e: Extent, f: Extent) -> bool
    ensures { result ≡ apart e f }
{
    e.right < f.left || f.right < e.left || e.bottom < f.top || f.bottom < e.top
}

// The extent in the two words at a place.
#[tactic(auto, unfolding(crate::specs::Extents::extent_at))]
pub fn extent_at(table: &[u32], at: usize) -> Extent
    requires { at + 2 ≤ length table.now }
    ensures { result ≡ extent_at table.now at }
{
    let across = table[at];
    let down = table[at + 1];
    Extent {
        left: (across % 65536) as u16,
        right: (across / 65536) as u16,
        top: (down % 65536) as u16,
        bottom: (down / 65536) as u16,
    }
}

// Stores an extent in two words.
pub fn put_extent(table: &mut [u32], at: usize, e: Extent)
    requires { at + 2 ≤ length table.old }
    ensures { table.new ≡ set (set table.old at (e.left + 65536 * e.right)) (at + 1) (e.top + 65536 * e.bottom) }
{
    table[at] = u32::from(e.left) + 65536 * u32::from(e.right);
    table[at + 1] = u32::from(e.top) + 65536 * u32::from(e.bottom);
}

// The extent with one point more.
#[tactic(auto, unfolding(crate::specs::Extents::grown))]
fn with_point(e: Extent, p: Point) -> Extent
    ensures { result ≡ grown e (meant p) }
{
    Extent {
        left: e.left.min(p.x),
        right: e.right.max(p.x),
        top: e.top.min(p.y),
        bottom: e.bottom.max(p.y),
    }
}

// The extent of a span's points.
pub fn extent_of(points: &[u16], span: Span) -> Extent
    requires { 2 * (span.first + span.count) ≤ length points.now }
    ensures { result ≡ extent_of (ring_in points.now span.first span.count) }
{
    let mut e = Extent {
        left: 65535,
        right: 0,
        top: 65535,
        bottom: 0,
    };
    for k in span.first..span.first + span.count {
        e = with_point(e, point_at(points, k));
    }
    e
}

// Whether the extent in the two words at a place is apart from another.
fn apart_at(table: &[u32], at: usize, query: Extent) -> bool
    requires { at + 2 ≤ length table.now }
    ensures { result ≡ apart (extent_at table.now at) query }
{
    apart(extent_at(table, at), query)
}

// Whether of so many extents, one after the other from a place on, there is one of number `k`, and it is apart from another.
fn whole_apart(table: &[u32], place: usize, count: usize, k: usize, query: Extent) -> bool
    requires { place + 2 * count ≤ length table.now }
    ensures { result ≡ true → (k < count) × (apart (extent_at table.now (place + 2 * k)) query ≡ true) }
{
    k < count && apart_at(table, place + 2 * k, query)
}

// The first item from `from` on that is not apart from an extent, or the number of items where there is none.
pub fn next_near(table: &[u32], ladder: Ladder, from: usize, query: Extent) -> usize
    requires { Raised table.now ladder × (from ≤ ladder.item_count) }
    ensures { NextNear table.now ladder from query result }
{
    // Kept: read in the loop, these make the compiler test all four sides of each extent, and contours of noise three quarters above took 1.23 times as long.
    let items = ladder.items;
    let item_count = ladder.item_count;
    let groups = ladder.groups;
    let group_count = ladder.group_count;
    let blocks = ladder.blocks;
    let block_count = ladder.block_count;
    let mut i = from;
    // Kept: a turn goes on by an item, a group or a block, which no range counts.
    while i < item_count {
        if i % 64 == 0 {
            if i % 4096 == 0 {
                if whole_apart(table, blocks, block_count, i / 4096, query) {
                    i += 4096;
                    continue;
                }
            }
            if whole_apart(table, groups, group_count, i / 64, query) {
                i += 64;
                continue;
            }
        }
        if !apart_at(table, items + 2 * i, query) {
            return i;
        }
        i += 1;
    }
    i
}

// The extent that holds two.
fn joined(e: Extent, f: Extent) -> Extent
    ensures { Inside e result × Inside f result }
{
    Extent {
        left: e.left.min(f.left),
        right: e.right.max(f.right),
        top: e.top.min(f.top),
        bottom: e.bottom.max(f.bottom),
    }
}

// The extent that holds the 64 extents from a place on.
fn group_at(table: &[u32], at: usize) -> Extent
    requires { at + 128 ≤ length table.now }
    ensures { HoldsItems table.now at 64 result }
{
    let mut e = extent_at(table, at);
    for i in 1..64 {
        e = joined(e, extent_at(table, at + 2 * i));
    }
    e
}

// Stores the extents of so many groups of 64 extents that stand from word `items` on, one after the other from word `place` on.
fn fill_groups(table: &mut [u32], items: usize, count: usize, place: usize)
    requires { (items + 128 * count ≤ place) × (place + 2 * count ≤ length table.old) }
    ensures { Filled (HoldsGroup table.old items) table.old table.new place count }
{
    for j in 0..count {
        let e = group_at(table, items + 128 * j);
        put_extent(table, place + 2 * j, e);
    }
}

// A ladder over `count` items whose extents stand from word `items` on. The extents of its groups and blocks are stored from word `free` on, as many as there
// is room for.
pub fn raise(table: &mut [u32], items: usize, count: usize, free: usize) -> Ladder
    requires { (items + 2 * count ≤ free) × (free ≤ length table.old) }
    ensures { RaisedOver table.old table.new items count free result }
{
    let room = (table.len() - free) / 2;
    let group_count = room.min(count / 64);
    fill_groups(table, items, group_count, free);
    let blocks = free + 2 * group_count;
    let block_count = (room - group_count).min(group_count / 64);
    fill_groups(table, free, block_count, blocks);
    Ladder {
        items,
        item_count: count,
        groups: free,
        group_count,
        blocks,
        block_count,
    }
}

// Stores the extents of so many chunks of 65 points, each of which begins with the last point of the one before, one after the other from word `place` on.
fn fill_chunks(points: &[u16], table: &mut [u32], count: usize, place: usize)
    requires { (64 * count ≤ length points.now / 2 - 1) × (place + 2 * count ≤ length table.old) }
    ensures { Filled (HoldsChunk points.now) table.old table.new place count }
{
    for j in 0..count {
        let chunk = Span {
            first: 64 * j,
            count: 65,
        };
        let e = extent_of(points, chunk);
        put_extent(table, place + 2 * j, e);
    }
}

// A ladder over the points in packed order, 64 points an item, with all its extents from word `free` on: as many items as two thirds of the room there hold, so
// that groups and blocks find room too. The points behind the last whole item have none.
pub fn chunk(points: &[u16], table: &mut [u32], free: usize) -> Ladder
    requires { free ≤ length table.old }
    ensures { ChunkedOver points.now table.old table.new free result }
{
    let last = (points.len() / 2).saturating_sub(1);
    let room = (table.len() - free) / 3;
    let item_count = room.min(last / 64);
    fill_chunks(points, table, item_count, free);
    raise(table, free, item_count, free + 2 * item_count)
}
