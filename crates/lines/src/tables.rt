// The words of the open table and of the link table: a word, a slot, a link, and the release of a slot.
ghost use Rattle.std.specs.Prelude.{◌≡◌};
ghost use Rattle.machine.specs.Machine.{slot_word, column_word, link_point, link_next, with_next, with_link, moved, released};
ghost use Rattle.lines.specs.Values.{slot_at, slot_put};

use lent::{put, word};

// What a slot of the open table holds of its line: the first link, the last link, the index of the end point, and the number of links.
// Kept: slots and links are words of two lent tables, since the library allocates nothing and the C interface lends words.
#[derive(Clone, Copy)]
pub struct Slot {
    pub first: u32,
    pub last: u32,
    pub end: u32,
    pub size: u32,
}

impl Slot {
    // The slot of a line of one link.
    pub fn of_link(link: u32, end: u32) -> Slot
        ensures { result ≡ record { first = link; last = link; end = end; size = 1 } }
    {
        Slot {
            first: link,
            last: link,
            end,
            size: 1,
        }
    }
}

// Where a part of a slot stands in the open table of a grid with `dx` columns.
#[tactic(auto, unfolding(machine::specs::Machine::slot_word))]
pub fn slot_word(dx: u32, slot: u32, part: u8) -> usize
    ensures { result ≡ slot_word dx slot part }
{
    dx as usize + 2 + 4 * (slot as usize) + part as usize
}

// Where the horizontal edge of a point's column stands in the open table, by the point's index.
#[tactic(auto, unfolding(machine::specs::Machine::column_word))]
pub fn column_word(dx: u32, index: u32) -> usize
    ensures { result ≡ column_word dx index }
{
    let stride = 2 * (dx as usize + 1);
    index as usize % stride / 2
}

// What a slot holds.
#[tactic(auto, unfolding(machine::specs::Machine::first_link, machine::specs::Machine::last_link, machine::specs::Machine::end_point, machine::specs::Machine::link_count))]
pub fn slot_at(lines: &[u32], dx: u32, i: u32) -> Slot
    ensures { result ≡ slot_at dx lines.now i }
{
    Slot {
        first: word(lines, slot_word(dx, i, 0)),
        last: word(lines, slot_word(dx, i, 1)),
        end: word(lines, slot_word(dx, i, 2)),
        size: word(lines, slot_word(dx, i, 3)),
    }
}

// Stores all four words of a slot.
#[tactic(auto, unfolding(machine::specs::Machine::with_slot))]
pub fn put_slot(lines: &mut [u32], dx: u32, i: u32, slot: Slot)
    ensures { lines.new ≡ slot_put dx lines.old i slot }
{
    put(lines, slot_word(dx, i, 0), slot.first);
    put(lines, slot_word(dx, i, 1), slot.last);
    put(lines, slot_word(dx, i, 2), slot.end);
    put(lines, slot_word(dx, i, 3), slot.size);
}

// The index of the point at which a link starts.
#[tactic(auto, unfolding(machine::specs::Machine::link_point))]
pub fn link_point(links: &[u32], k: u32) -> u32
    ensures { result ≡ link_point links.now k }
{
    word(links, 2 * (k as usize))
}

// The link after link `k`, and the mark with it where `k` is the last of its ring.
#[tactic(auto, unfolding(machine::specs::Machine::link_next))]
pub fn next_link(links: &[u32], k: u32) -> u32
    ensures { result ≡ link_next links.now k }
{
    word(links, 2 * (k as usize) + 1)
}

// Stores which link comes after link `k`.
#[tactic(auto, unfolding(machine::specs::Machine::with_next))]
pub fn put_next(links: &mut [u32], k: u32, next: u32)
    ensures { links.new ≡ with_next links.old k next }
{
    put(links, 2 * (k as usize) + 1, next);
}

// Stores link `k`: the index of its start point, and the link after it.
#[tactic(auto, unfolding(machine::specs::Machine::with_link))]
pub fn put_link(links: &mut [u32], k: u32, point: u32, next: u32)
    ensures { links.new ≡ with_link links.old k point next }
{
    put(links, 2 * (k as usize), point);
    put_next(links, k, next);
}

// The line of slot `last` moves into slot `i`, and its two ends are filed there.
#[tactic(auto, unfolding(machine::specs::Machine::moved))]
fn move_line(lines: &mut [u32], links: &[u32], dx: u32, last: u32, i: u32)
    ensures { lines.new ≡ moved dx lines.old links.now last i }
{
    let line = slot_at(lines, dx, last);
    let start = link_point(links, line.first);
    put_slot(lines, dx, i, line);
    put(lines, column_word(dx, start), i);
    put(lines, column_word(dx, line.end), i);
}

// The line of slot `i` goes: where it is not the last one, the line of slot `last` moves into its slot.
#[tactic(auto, unfolding(machine::specs::Machine::released))]
pub fn release(lines: &mut [u32], links: &[u32], dx: u32, last: u32, i: u32)
    ensures { lines.new ≡ released dx lines.old links.now last i }
{
    if i != last {
        move_line(lines, links, dx, last, i);
    }
}
