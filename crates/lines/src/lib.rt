// The code of stitching over two lent slices of words, the open table and the link table: the five rules, and the lines that a cell meets. Every function
// is total, as the table machine is, which each contract cites: a word past a table's end reads as 0 and is not stored.
#![tactic(auto)]

ghost use Rattle.std.specs.Prelude.{◌≡◌, cond, ◌+◌, eqb};
ghost use Rattle.machine.specs.Machine.{mark, word_of, with_next, started, appended, prepended, joined, closed, entry_of};
ghost use Rattle.lines.specs.Values.{tables_of, edges_of, connected};

use lent::{MARK, put, word};
use tables::{Slot, column_word, put_link, put_next, put_slot, release, slot_at};

pub mod tables;

// How far stitching has come: the open lines, the rings, the first ring's first link, and the last ring's last link.
#[derive(Clone, Copy)]
pub struct Progress {
    pub count: u32,
    pub rings: u32,
    pub head: u32,
    pub tail: u32,
}

// The slots of the lines at a cell's left and top edge, as the frontier has them before the cell is drawn.
#[derive(Clone, Copy)]
pub struct Entry {
    pub left: u32,
    pub top: u32,
}

// A new line of one link, `k`, from the point of index `s` to that of index `e`, filed at the frontier words of both.
// Kept: `lines`, `links`, `p`, `dx` beside each other, since a struct of `&mut` asks a clause a table more of each function, that it holds the same table.
#[tactic(auto, unfolding(machine::specs::Machine::started, machine::specs::Machine::word_of))]
pub fn start(
    lines: &mut [u32],
    links: &mut [u32],
    p: Progress,
    dx: u32,
    k: u32,
    s: u32,
    e: u32,
    ws: usize,
    we: usize,
) -> Progress
    ensures { tables_of lines.new links.new result
        ≡ started dx (tables_of lines.old links.old p) k s e ws we }
{
    let count = p.count;
    put_link(links, k, s, 0);
    put_slot(lines, dx, count, Slot::of_link(k, e));
    put(lines, ws, count);
    put(lines, we, count);
    Progress {
        count: count.wrapping_add(1),
        ..p
    }
}

// Link `k`, from `s` to `e`, goes to the end of line `f`, which is filed at the frontier word of `e`.
#[tactic(auto, unfolding(machine::specs::Machine::appended, machine::specs::Machine::word_of))]
pub fn append(
    lines: &mut [u32],
    links: &mut [u32],
    p: Progress,
    dx: u32,
    k: u32,
    s: u32,
    f: u32,
    e: u32,
    we: usize,
) -> Progress
    ensures { tables_of lines.new links.new result
        ≡ appended dx (tables_of lines.old links.old p) k s f e we }
{
    let line = slot_at(lines, dx, f);
    put_link(links, k, s, 0);
    put_next(links, line.last, k);
    let longer = Slot {
        last: k,
        end: e,
        size: line.size.wrapping_add(1),
        ..line
    };
    put_slot(lines, dx, f, longer);
    put(lines, we, f);
    p
}

// Link `k`, from `s` to the start of line `g`, goes in front of that line, which is filed at the frontier word of `s`.
#[tactic(auto, unfolding(machine::specs::Machine::prepended, machine::specs::Machine::word_of))]
pub fn prepend(
    lines: &mut [u32],
    links: &mut [u32],
    p: Progress,
    dx: u32,
    k: u32,
    s: u32,
    g: u32,
    ws: usize,
) -> Progress
    ensures { tables_of lines.new links.new result
        ≡ prepended dx (tables_of lines.old links.old p) k s g ws }
{
    let line = slot_at(lines, dx, g);
    put_link(links, k, s, line.first);
    let longer = Slot {
        first: k,
        size: line.size.wrapping_add(1),
        ..line
    };
    put_slot(lines, dx, g, longer);
    put(lines, ws, g);
    p
}

// Link `k`, from `s`, joins line `f` to line `g`: `f` is followed by `g`, whose end is filed under `f`, and slot `g` is released.
#[tactic(auto, unfolding(machine::specs::Machine::joined, machine::specs::Machine::joined_lines, machine::specs::Machine::joined_links, machine::specs::Machine::word_of))]
pub fn join(
    lines: &mut [u32],
    links: &mut [u32],
    p: Progress,
    dx: u32,
    k: u32,
    s: u32,
    f: u32,
    g: u32,
) -> Progress
    ensures { tables_of lines.new links.new result ≡ joined dx (tables_of lines.old links.old p) k s f g }
{
    let front = slot_at(lines, dx, f);
    let back = slot_at(lines, dx, g);
    put_link(links, k, s, back.first);
    put_next(links, front.last, k);
    let both = Slot {
        first: front.first,
        size: front.size.wrapping_add(back.size).wrapping_add(1),
        ..back
    };
    put_slot(lines, dx, f, both);
    put(lines, column_word(dx, back.end), f);
    let count = p.count.saturating_sub(1);
    release(lines, links, dx, count, g);
    Progress { count, ..p }
}

// The ring before, if there is one, learns the first link of the next ring.
#[tactic(auto, unfolding(machine::specs::Machine::mark, machine::specs::Machine::word_of))]
fn tell_ring_before(links: &mut [u32], p: Progress, first: u32)
    ensures { links.new
        ≡ cond (eqb p.rings 0) links.old (with_next links.old p.tail (word_of (mark + first))) }
{
    if p.rings != 0 {
        put_next(links, p.tail, MARK.wrapping_add(first));
    }
}

// The first ring's first link, once a ring whose first link this is has closed.
fn head_after(p: Progress, first: u32) -> u32
    ensures { result ≡ cond (eqb p.rings 0) first p.head }
{
    if p.rings == 0 { first } else { p.head }
}

// Link `k`, from `s`, closes line `f` to a ring: `k` is the ring's last link, and slot `f` is released.
#[tactic(auto, unfolding(machine::specs::Machine::mark, machine::specs::Machine::closed, machine::specs::Machine::closed_links, machine::specs::Machine::word_of))]
pub fn close(
    lines: &mut [u32],
    links: &mut [u32],
    p: Progress,
    dx: u32,
    k: u32,
    s: u32,
    f: u32,
) -> Progress
    ensures { tables_of lines.new links.new result ≡ closed dx (tables_of lines.old links.old p) k s f }
{
    let line = slot_at(lines, dx, f);
    put_link(links, k, s, MARK);
    put_next(links, line.last, k);
    tell_ring_before(links, p, line.first);
    let count = p.count.saturating_sub(1);
    release(lines, links, dx, count, f);
    Progress {
        count,
        rings: p.rings.wrapping_add(1),
        head: head_after(p, line.first),
        tail: k,
    }
}

// Link `k`, from the end of line `f` to the start of line `g`: a line that meets itself closes, and two lines are joined.
pub fn connect(
    lines: &mut [u32],
    links: &mut [u32],
    p: Progress,
    dx: u32,
    k: u32,
    s: u32,
    f: u32,
    g: u32,
) -> Progress
    ensures { tables_of lines.new links.new result
        ≡ connected dx (tables_of lines.old links.old p) k s f g }
{
    if f == g {
        close(lines, links, p, dx, k, s, f)
    } else {
        join(lines, links, p, dx, k, s, f, g)
    }
}

// The slots at the left and the top edge of a cell of column `c`.
#[tactic(auto, unfolding(machine::specs::Machine::entry_of))]
pub fn entry_of(lines: &[u32], dx: u32, c: u32) -> Entry
    ensures { edges_of result ≡ entry_of dx lines.now c }
{
    Entry {
        left: word(lines, dx as usize + 1),
        top: word(lines, c as usize),
    }
}
