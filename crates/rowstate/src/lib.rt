// The state of a terrain that comes row by row as a fixed number of words, for a caller who is lent none of our structs: eight numbers, the threshold by its
// bits, the rule by its number, and the samples of the last row, two words for sixty-four of them.
#![tactic(auto)]

ghost use Rattle.std.specs.Prelude.{◌≡◌};
ghost use Rattle.std.specs.Float.{binary64};
ghost use Rattle.std.specs.Float.Ieee.{of_bits, to_bits};
ghost use Rattle.rowstate.specs.Words.{sample_words, paired, low_half, high_half, samples_in, samples_out, state_in, state_out};

use cells::{level_of, rule_number};
use rows::Rows;
use scan::ROW_WORDS;
use words::SAMPLES;

// How many words a state has.
pub const STATE_WORDS: usize = 141;

// Where the samples of the last row begin.
const SAMPLES_AT: usize = 11;

// What a word of samples or of bits is split by.
const HALF: u64 = 4294967296;

// A float's bits are those of no number where they are above those of infinity, the sign left out.
const SIGN: u64 = 9223372036854775808;

const INFINITE: u64 = 9218868437227405312;

// The bits that stand for every threshold that is not a number.
const NAN: u64 = 9221120237041090560;

// Two words as one, the low one first.
#[tactic(auto, unfolding(crate::specs::Words::paired))]
fn paired(low: u32, high: u32) -> u64
    ensures { result ≡ paired low high }
{
    u64::from(low) + HALF * u64::from(high)
}

// The low word of two that are one, and the high one.
#[tactic(auto, unfolding(crate::specs::Words::low_half))]
fn low_half(n: u64) -> u32
    ensures { result ≡ low_half n }
{
    (n % HALF) as u32
}

#[tactic(auto, unfolding(crate::specs::Words::high_half))]
fn high_half(n: u64) -> u32
    ensures { result ≡ high_half n }
{
    (n / HALF) as u32
}

// The float of these bits. The bits of any float that is not a number give one that is not.
fn float_of(bits: u64) -> f64
    ensures { result ≡ of_bits binary64 bits }
{
    if INFINITE < bits % SIGN {
        f64::NAN
    } else {
        f64::from_bits(bits)
    }
}

// The bits of a float.
fn bits_of(x: f64) -> u64
    ensures { result ≡ to_bits binary64 x }
{
    if x.is_nan() { NAN } else { x.to_bits() }
}

// How many words the samples of that many columns have, at most those of a row.
#[tactic(auto, unfolding(crate::specs::Words::sample_words))]
fn sample_words(dx: u32) -> usize
    ensures { result ≡ sample_words dx }
{
    (dx as usize).div_ceil(SAMPLES).min(ROW_WORDS)
}

// The samples that words hold, of that many columns.
fn samples_in(words: &[u32; STATE_WORDS], dx: u32) -> [u64; ROW_WORDS]
    ensures { result ≡ samples_in words.now dx }
{
    let count = sample_words(dx);
    let mut above = [0u64; ROW_WORDS];
    for w in 0..count {
        let at = SAMPLES_AT + 2 * w;
        above[w] = paired(words[at], words[at + 1]);
    }
    above
}

// The state that words hold. Of the samples only those of the columns are read.
// Kept: a function and no `From<&[u32; STATE_WORDS]>`, since `Rows` is of another crate, and only its own crate may write an impl of `From` for it.
pub fn state_of(words: &[u32; STATE_WORDS]) -> Rows
    ensures { result ≡ state_in words.now }
{
    let threshold = float_of(paired(words[8], words[9]));
    Rows {
        level: level_of(threshold, words[10]),
        dx: words[0],
        dy: words[1],
        drawn: words[2],
        count: words[3],
        peak: words[4],
        spare: words[5],
        fresh: words[6],
        held: words[7],
        above: samples_in(words, words[0]),
    }
}

// Stores the samples of that many columns in words. Words past them stay as they are.
fn store_samples(above: &[u64; ROW_WORDS], dx: u32, words: &mut [u32; STATE_WORDS])
    ensures { words.new ≡ samples_out above.now dx words.old }
{
    let count = sample_words(dx);
    for w in 0..count {
        let samples = above[w];
        let at = SAMPLES_AT + 2 * w;
        words[at] = low_half(samples);
        words[at + 1] = high_half(samples);
    }
}

// Stores a state in words. Words past the samples of the columns stay as they are.
pub fn store_state(state: Rows, words: &mut [u32; STATE_WORDS])
    ensures { words.new ≡ state_out state words.old }
{
    words[0] = state.dx;
    words[1] = state.dy;
    words[2] = state.drawn;
    words[3] = state.count;
    words[4] = state.peak;
    words[5] = state.spare;
    words[6] = state.fresh;
    words[7] = state.held;
    let bits = bits_of(state.level.threshold);
    words[8] = low_half(bits);
    words[9] = high_half(bits);
    words[10] = rule_number(state.level.rule);
    store_samples(&state.above, state.dx, words);
}
