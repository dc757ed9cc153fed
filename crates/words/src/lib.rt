// Rows of samples as the bits of words: sixty-four samples a word, the first of them lowest, and sixty-four cells by the words of their samples.
#![tactic(auto)]

ghost use Rattle.std.specs.Prelude.{◌≡◌, ◌+◌, ◌≤◌, ◌<◌, length};
ghost use Rattle.std.specs.Int.Count.{ones};
ghost use Rattle.scope.specs.Terrain.{above_at};
ghost use Rattle.scope.specs.Cells.{when};
ghost use Rattle.cells.specs.Rules.{level_of};
ghost use Rattle.words.specs.Bits.{packed, samples_from, bit_at, set_bits, moved_in};
ghost use Rattle.words.specs.Panes.{pane_of, changes_in, number_in, saddles_in, opening_in, closing_in};

use cells::{above, cell_number, rule_number};
use scope::Level;
use std::marker::Model;

// How many samples a word holds.
pub const SAMPLES: usize = 64;

// Eight samples from value `i` on, at the level of a threshold and a rule's number.
fn eight_known(values: &[f64], threshold: f64, number: u32, i: usize) -> u64
    requires { i + 8 ≤ length values.now }
    ensures { result ≡ packed (samples_from (above_at (level_of threshold number)) values.now i) 8 }
{
    u64::from(above(threshold, number, values[i]))
        + u64::from(above(threshold, number, values[i + 1])) * 2
        + u64::from(above(threshold, number, values[i + 2])) * 4
        + u64::from(above(threshold, number, values[i + 3])) * 8
        + u64::from(above(threshold, number, values[i + 4])) * 16
        + u64::from(above(threshold, number, values[i + 5])) * 32
        + u64::from(above(threshold, number, values[i + 6])) * 64
        + u64::from(above(threshold, number, values[i + 7])) * 128
}

// The same. The rule is decided once for all of them: in each arm the compiler knows it, and tests several samples at once.
// Kept: two arms that differ in a literal, since with one body for both rules the first report of a cone took 1.7 times as long (docs/DECISIONS.md).
fn eight(values: &[f64], threshold: f64, number: u32, i: usize) -> u64
    requires { i + 8 ≤ length values.now }
    ensures { result ≡ packed (samples_from (above_at (level_of threshold number)) values.now i) 8 }
{
    if number == 0 {
        eight_known(values, threshold, 0, i)
    } else {
        eight_known(values, threshold, 1, i)
    }
}

// Sixteen samples from value `i` on.
// Kept: halves of halves, here and twice below, since a loop over eight eights took 1.14 times as long for the first report of a cone.
fn sixteen(values: &[f64], threshold: f64, number: u32, i: usize) -> u64
    requires { i + 16 ≤ length values.now }
    ensures { result ≡ packed (samples_from (above_at (level_of threshold number)) values.now i) 16 }
{
    eight(values, threshold, number, i) + eight(values, threshold, number, i + 8) * 256
}

// Thirty-two samples from value `i` on.
fn thirty_two(values: &[f64], threshold: f64, number: u32, i: usize) -> u64
    requires { i + 32 ≤ length values.now }
    ensures { result ≡ packed (samples_from (above_at (level_of threshold number)) values.now i) 32 }
{
    sixteen(values, threshold, number, i) + sixteen(values, threshold, number, i + 16) * 65536
}

// Sixty-four samples from value `i` on.
fn sixty_four(values: &[f64], threshold: f64, number: u32, i: usize) -> u64
    requires { i + 64 ≤ length values.now }
    ensures { result ≡ packed (samples_from (above_at (level_of threshold number)) values.now i) 64 }
{
    thirty_two(values, threshold, number, i)
        + thirty_two(values, threshold, number, i + 32) * 4294967296
}

// A whole word of samples from value `i` on. The rule is decided once for all of them, as in `eight`.
// Kept: two arms that differ in a literal, for the time that `eight` names.
pub fn whole_word(values: &[f64], level: Level, i: usize) -> u64
    requires { i + 64 ≤ length values.now }
    ensures { result ≡ packed (samples_from (above_at level) values.now i) 64 }
{
    let threshold = level.threshold;
    let rule = level.rule;
    if rule_number(rule) == 0 {
        sixty_four(values, threshold, 0, i)
    } else {
        sixty_four(values, threshold, 1, i)
    }
}

// The samples of `n` values from value `i` on, at most a word's. Eight at a time, but for those past the last whole eight.
pub fn word_of(values: &[f64], level: Level, i: usize, n: usize) -> u64
    requires { (n ≤ 64) × (i + n ≤ length values.now) }
    ensures { result ≡ packed (samples_from (above_at level) values.now i) n }
{
    let threshold = level.threshold;
    let rule = level.rule;
    let number = rule_number(rule);
    let eights = n / 8;
    let mut word: u64 = 0;
    for j in (eights * 8..n).rev() {
        word = word * 2 + u64::from(above(threshold, number, values[i + j]));
    }
    for k in (0..eights).rev() {
        word = word * 256 + eight(values, threshold, number, i + k * 8);
    }
    word
}

// Bit `j` of a word.
pub fn bit_at(word: u64, j: u32) -> bool
    requires { j < 64 }
    ensures { result ≡ bit_at word j }
{
    (word >> j) % 2 == 1
}

// The places of the bits of a word that are set, from the lowest to the highest, seen as the list of those that are left: `rest` has the bits from place
// `at` on.
#[derive(Drop)]
pub struct SetBits {
    rest: u64,
    at: u32,
}

impl Model for SetBits {
    ghost use Rattle.std.specs.Prelude.{ℕ, List, ◌-◌, ◌^◌, ◌≤◌, ◌<◌};
    ghost use Rattle.words.specs.Bits.{set_from};

    ghost Value = { List ℕ };

    ghost view = { λ it. set_from it.rest it.at };

    ghost invariant = { λ it. (it.at ≤ 64) × (it.rest < 2 ^ (64 - it.at)) };
}

impl Iterator for SetBits {
    ghost use Rattle.std.specs.Iterator.{YieldsFirst, item_count};

    type Item = u32;

    ghost next_gives = { YieldsFirst (λ left. left) };

    ghost remaining = { item_count (λ left. left) };

    #[inline]
    fn next(&mut self) -> Option<u32> {
        if self.rest == 0 {
            return None;
        }
        let skipped = self.rest.trailing_zeros();
        let place = self.at + skipped;
        self.rest = (self.rest >> skipped) / 2;
        self.at = place + 1;
        Some(place)
    }
}

// The places of the bits of `word` that are set.
#[inline]
pub fn set_bits(word: u64) -> SetBits
    ensures { result ≡ set_bits word }
{
    SetBits { rest: word, at: 0 }
}

// Sixty-four neighbouring cells of a row, by their four samples: bit `j` of each word is a sample of cell `j`.
#[derive(Clone, Copy)]
pub struct Pane {
    pub lower_left: u64,
    pub lower_right: u64,
    pub upper_right: u64,
    pub upper_left: u64,
}

// A word whose samples are each one further left: `before` comes first, and the last goes.
fn one_left(word: u64, before: bool) -> u64
    ensures { result ≡ moved_in word before }
{
    word % 9223372036854775808 * 2 + u64::from(before)
}

// The cells whose right samples these are, with the samples on the left of the first.
pub fn pane_of(upper: u64, lower: u64, upper_before: bool, lower_before: bool) -> Pane
    ensures { result ≡ pane_of upper lower upper_before lower_before }
{
    Pane {
        lower_left: one_left(lower, lower_before),
        lower_right: lower,
        upper_right: upper,
        upper_left: one_left(upper, upper_before),
    }
}

// The cells whose samples do not agree, by their bits: only these draw anything.
pub fn changes_in(pane: Pane) -> u64
    ensures { result ≡ changes_in pane }
{
    (pane.upper_right ^ pane.lower_right)
        | (pane.upper_left ^ pane.lower_left)
        | (pane.upper_right ^ pane.upper_left)
}

// The number of cell `j`.
pub fn number_in(pane: Pane, j: u32) -> usize
    requires { j < 64 }
    ensures { result ≡ number_in pane j }
{
    cell_number(
        bit_at(pane.lower_left, j),
        bit_at(pane.lower_right, j),
        bit_at(pane.upper_right, j),
        bit_at(pane.upper_left, j),
    )
}

// What the cells of a pane come to: the segments they draw, and how many of them leave one open line more, and one fewer.
#[derive(Clone, Copy)]
pub struct Tally {
    pub segments: u32,
    pub opened: u32,
    pub closed: u32,
}

// The tally of a pane whose changes these are. A cell leaves one line more where its lower right sample alone is apart from the others, one fewer where its
// upper left one is, and draws two segments where each sample is apart from both its neighbours.
pub fn tally_of(pane: Pane, changes: u64) -> Tally
    ensures { (result.segments ≡ ones changes + ones (saddles_in pane)) × (result.opened ≡ ones (opening_in pane)) × (result.closed ≡ ones (closing_in pane)) }
{
    let below = pane.lower_left ^ pane.lower_right;
    let right = pane.lower_right ^ pane.upper_right;
    let above = pane.upper_right ^ pane.upper_left;
    let left = pane.upper_left ^ pane.lower_left;
    let lower = below & right;
    let upper = above & left;
    let opening = lower ^ (lower & (above | left));
    let closing = upper ^ (upper & (below | right));
    Tally {
        segments: changes.count_ones() + (lower & upper).count_ones(),
        opened: opening.count_ones(),
        closed: closing.count_ones(),
    }
}
