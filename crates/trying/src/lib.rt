// The trial of a row: what the row's cells come to, in lines, segments, rings and points, played over the frontier's words alone. A frontier word notes the
// word of its line's other tip and half of the digits of the line's number of links, so that no slot and no link is touched, and the frontier can be noted
// anew from the slots. Every function is total: a word past the table's end reads as 0 and is not stored.
#![tactic(auto)]

ghost use Rattle.std.specs.Prelude.{◌≡◌, ◌^◌, ◌≤◌, ◌<◌};
ghost use Rattle.scope.specs.Limits.{side_limit};
ghost use Rattle.scope.specs.Cells.{◌⟶◌};
ghost use Rattle.words.specs.Panes.{Shows, changes_in};
ghost use Rattle.sweep.specs.Sweep.{between, swept};
ghost use Rattle.trying.specs.Notes.{note_of, place_in, half_in, size_between, noted, frontier_noted};
ghost use Rattle.trying.specs.Trying.{grown, ringed, reached, open_tried, end_tried, start_tried, meet_tried, cross_tried, stroke_tried, number_tried, cell_tried, row_tried};
ghost use Rattle.trying.specs.Values.{tried_of};

use cells::{Stroke, stroke_at};
use drawing::{first_stroke, meets, word_at};
use lent::{put, word};
use lines::tables::{column_word, link_point, slot_at};
use packing::clear;
use scan::ROW_WORDS;
use words::{Pane, SAMPLES, bit_at, changes_in, number_in, pane_of, set_bits};

// What a trial has counted: the open lines and the most after any cell, the segments in no closed ring and the most after any cell, and the rings that closed
// with their points.
#[derive(Clone, Copy)]
pub struct Trial {
    pub lines: u32,
    pub peak: u32,
    pub held: u32,
    pub most: u32,
    pub rings: u32,
    pub points: u32,
}

// A place and fifteen bits as one word.
#[tactic(auto, unfolding(crate::specs::Notes::note_of))]
fn note_of(place: u32, half: u32) -> u32
    ensures { result ≡ note_of place half }
{
    place % 131072 * 32768 + half % 32768
}

// The place that a note has.
#[tactic(auto, unfolding(crate::specs::Notes::place_in))]
fn place_in(note: u32) -> u32
    ensures { result ≡ place_in note }
{
    note / 32768
}

// The fifteen bits that a note has.
#[tactic(auto, unfolding(crate::specs::Notes::half_in))]
fn half_in(note: u32) -> u32
    ensures { (result ≡ half_in note) × (result < 2 ^ 15) }
{
    note % 32768
}

// The number of links of the line that starts at one word and ends at another.
#[tactic(auto, unfolding(crate::specs::Notes::size_between))]
fn size_between(words: &[u32], start: u32, end: u32) -> u32
    ensures { (result ≡ size_between words.now start end) × (result < 2 ^ 30) }
{
    half_in(word(words, start as usize)) + 32768 * half_in(word(words, end as usize))
}

// Notes a line of that many links at both its words.
#[tactic(auto, unfolding(crate::specs::Notes::noted))]
fn note(words: &mut [u32], start: u32, end: u32, size: u32)
    ensures { words.new ≡ noted words.old start end size }
{
    put(words, start as usize, note_of(end, size));
    put(words, end as usize, note_of(start, size / 32768));
}

// The counts with a segment more in an open line.
#[tactic(auto, unfolding(machine::specs::Machine::word_of))]
fn with_segment(t: Trial) -> Trial
    ensures { result ≡ grown t }
{
    Trial {
        held: t.held.wrapping_add(1),
        ..t
    }
}

// The counts with a ring that closes a line of that many links.
#[tactic(auto, unfolding(machine::specs::Machine::word_of))]
fn with_ring(t: Trial, size: u32) -> Trial
    ensures { result ≡ ringed t size }
{
    Trial {
        lines: t.lines.saturating_sub(1),
        held: t.held.saturating_sub(size),
        rings: t.rings.wrapping_add(1),
        points: t.points.wrapping_add(size).wrapping_add(2),
        ..t
    }
}

// The counts after a cell.
fn after_cell(t: Trial) -> Trial
    ensures { result ≡ reached t }
{
    Trial {
        peak: t.peak.max(t.lines),
        most: t.most.max(t.held),
        ..t
    }
}

// A new line from word `s` to word `e`.
#[tactic(auto, unfolding(machine::specs::Machine::word_of))]
fn try_open(words: &mut [u32], t: Trial, s: u32, e: u32) -> Trial
    ensures { tried_of words.new result ≡ open_tried (tried_of words.old t) s e }
{
    note(words, s, e, 1);
    Trial {
        lines: t.lines.wrapping_add(1),
        held: t.held.wrapping_add(1),
        ..t
    }
}

// The line that ends at word `s` ends at word `e` now.
fn try_end(words: &mut [u32], t: Trial, s: u32, e: u32) -> Trial
    ensures { tried_of words.new result ≡ end_tried (tried_of words.old t) s e }
{
    let start = place_in(word(words, s as usize));
    let size = size_between(words, start, s) + 1;
    note(words, start, e, size);
    with_segment(t)
}

// The line that starts at word `e` starts at word `s` now.
fn try_start(words: &mut [u32], t: Trial, s: u32, e: u32) -> Trial
    ensures { tried_of words.new result ≡ start_tried (tried_of words.old t) s e }
{
    let end = place_in(word(words, e as usize));
    let size = size_between(words, e, end) + 1;
    note(words, s, end, size);
    with_segment(t)
}

// The line that ends at word `s` meets the one that starts at word `e`: one line closes, and two are joined.
#[tactic(auto, unfolding(machine::specs::Machine::word_of))]
fn try_meet(words: &mut [u32], t: Trial, s: u32, e: u32) -> Trial
    ensures { tried_of words.new result ≡ meet_tried (tried_of words.old t) s e }
{
    let start = place_in(word(words, s as usize));
    if start == e {
        let size = size_between(words, e, s);
        return with_ring(t, size);
    }
    let end = place_in(word(words, e as usize));
    let size = size_between(words, start, s) + size_between(words, e, end) + 1;
    note(words, start, end, size);
    Trial {
        lines: t.lines.saturating_sub(1),
        held: t.held.wrapping_add(1),
        ..t
    }
}

// Saddle 5: the line that starts at word `v` starts at word `c` now, and the one that ended there ends at word `v`. Both are read before either is noted.
fn try_cross(words: &mut [u32], t: Trial, v: u32, c: u32) -> Trial
    ensures { tried_of words.new result ≡ cross_tried (tried_of words.old t) v c }
{
    let start = place_in(word(words, c as usize));
    if start == v {
        let size = size_between(words, v, c) + 2;
        note(words, c, v, size);
        return with_segment(with_segment(t));
    }
    let end = place_in(word(words, v as usize));
    let left = size_between(words, v, end) + 1;
    let top = size_between(words, start, c) + 1;
    note(words, c, end, left);
    note(words, start, v, top);
    with_segment(with_segment(t))
}

// A stroke of a cell in column `c`.
fn try_stroke(words: &mut [u32], t: Trial, dx: u32, c: u32, stroke: Stroke) -> Trial
    requires { (dx ≤ side_limit) × (c < 2 ^ 16) }
    ensures { tried_of words.new result ≡ stroke_tried dx c (tried_of words.old t) (stroke.from ⟶ stroke.to) }
{
    let s = word_at(dx, c, stroke.from) as u32;
    let e = word_at(dx, c, stroke.to) as u32;
    if meets(stroke.from) {
        if meets(stroke.to) {
            return try_meet(words, t, s, e);
        }
        return try_end(words, t, s, e);
    }
    if meets(stroke.to) {
        return try_start(words, t, s, e);
    }
    try_open(words, t, s, e)
}

// The cell of this number in column `c`.
fn try_cell(words: &mut [u32], t: Trial, dx: u32, c: u32, number: usize) -> Trial
    requires { (dx ≤ side_limit) × (c < 2 ^ 16) }
    ensures { tried_of words.new result ≡ number_tried dx (tried_of words.old t) number c }
{
    match number {
        5 => after_cell(try_cross(words, t, dx + 1, c)),
        10 => {
            let one = try_stroke(words, t, dx, c, stroke_at(10, 0));
            after_cell(try_stroke(words, one, dx, c, stroke_at(10, 1)))
        }
        1..=14 => after_cell(try_stroke(words, t, dx, c, first_stroke(number))),
        _ => t,
    }
}

// Sixty-four cells from cell `c` on. Only the active ones are tried, by the bits of `changes`. The two rows of samples say whose cells these are.
fn try_changes(
    upper: &[u64; ROW_WORDS],
    lower: &[u64; ROW_WORDS],
    dx: u32,
    c: u32,
    pane: Pane,
    changes: u64,
    words: &mut [u32],
    t: Trial,
) -> Trial
    requires dx_le_side_limit { (dx ≤ side_limit) × (c ≤ dx) }
    requires shows { Shows (between upper.now lower.now) 0 c pane }
    requires changes_value { changes ≡ changes_in pane }
    ensures { tried_of words.new result ≡ swept (cell_tried (between upper.now lower.now) dx) (tried_of words.old t) c 64 }
{
    let mut trial = t;
    for j in set_bits(changes) {
        let number = number_in(pane, j);
        trial = try_cell(words, trial, dx, c + j, number);
    }
    trial
}

// The cells between two rows of samples, of `dx` columns, tried over the frontier's words.
// Kept: `give_row` of `giving` has this loop too; one walk for both needs a trait for the step, with a struct of each one's tables and laws, and is no plainer.
#[tactic(auto, unfolding(scope::specs::Limits::side_limit))]
pub fn try_row(
    upper: &[u64; ROW_WORDS],
    lower: &[u64; ROW_WORDS],
    dx: u32,
    words: &mut [u32],
    t: Trial,
) -> Trial
    requires { dx ≤ side_limit }
    ensures { tried_of words.new result ≡ row_tried upper.now lower.now dx (tried_of words.old t) }
{
    let mut trial = t;
    let mut upper_left = false;
    let mut lower_left = false;
    for w in 0..dx as usize / SAMPLES + 1 {
        let upper_word = upper[w];
        let lower_word = lower[w];
        let pane = pane_of(upper_word, lower_word, upper_left, lower_left);
        let changes = changes_in(pane);
        trial = try_changes(
            upper,
            lower,
            dx,
            (SAMPLES * w) as u32,
            pane,
            changes,
            words,
            trial,
        );
        upper_left = bit_at(upper_word, 63);
        lower_left = bit_at(lower_word, 63);
    }
    trial
}

// Notes the frontier anew from the slots of the first `count` lines: each line at the columns of its tips, and 0 elsewhere.
pub fn note_lines(lines: &mut [u32], links: &[u32], dx: u32, count: u32)
    requires { dx ≤ side_limit }
    ensures { lines.new ≡ frontier_noted dx links.now lines.old count }
{
    clear(lines, dx as usize + 2);
    for i in 0..count {
        let line = slot_at(lines, dx, i);
        let start = column_word(dx, link_point(links, line.first)) as u32;
        let end = column_word(dx, line.end) as u32;
        note(lines, start, end, line.size);
    }
}
