// The tables that are lent and looked at: words, points and floats, parts of them, and whether they hold what is wanted. A word past the end of a table reads 0,
// and where a table is shorter than a part that is asked for, the whole table is handed out.
ghost use Rattle.std.specs.Prelude.{◌<◌};

use lent::{put, value_or, word};

// The words of a table: enough for a grid of the longest side all above, in generous room.
pub const WORDS: usize = 16394;

// What the words of a table hold before a call. No point and no record has it.
pub const SOIL: u32 = 65535;

pub const SOILED: u16 = 65535;

pub const FLOAT_SOIL: f64 = -6.5535e77;

// A float's pattern is a NaN's where it is above that of infinity, the sign left out.
const SIGN: u64 = 9223372036854775808;

const INFINITE: u64 = 9218868437227405312;

// The pattern that stands for every NaN's.
const NAN: u64 = 9221120237041090560;

// Stores this many values, each as it is given for its number. Past the end nothing is stored.
pub fn fill<T: Copy, F: Fn(usize) -> T>(table: &mut [T], count: usize, value: F)
    requires { F.IsAlwaysCallable value }
{
    for i in 0..count {
        put(table, i, value(i));
    }
}

// A part of 16 bits of a pattern.
fn piece(table: &[u32], i: usize) -> u64
    ensures { result < 65536 }
{
    u64::from(word(table, i) % 65536)
}

// The float whose pattern a table begins with: four parts of 16 bits, the highest first.
pub fn listed_float(table: &[u32]) -> f64 {
    let high = piece(table, 0) * 65536 + piece(table, 1);
    let low = piece(table, 2) * 65536 + piece(table, 3);
    float_of(high * 4294967296 + low)
}

// The float of a pattern. All patterns of NaN give one NaN.
fn float_of(pattern: u64) -> f64 {
    if INFINITE < pattern % SIGN {
        f64::NAN
    } else {
        f64::from_bits(pattern)
    }
}

// The pattern of a float. All NaNs have one.
fn pattern_of(x: f64) -> u64 {
    if x.is_nan() { NAN } else { x.to_bits() }
}

// A table from word n on.
pub fn after(table: &[u32], n: usize) -> &[u32] {
    table.get(n..).unwrap_or(table)
}

// The first n items of a table.
pub fn front<T>(table: &[T], n: usize) -> &[T] {
    table.get(..n).unwrap_or(table)
}

// The floats from number `from` to before number `to`.
pub fn floats_part(values: &[f64], from: usize, to: usize) -> &[f64] {
    values.get(from..to).unwrap_or(values)
}

// The first n items of a table, to be lent.
pub fn front_mut<T>(table: &mut [T], n: usize) -> &mut [T] {
    let end = n.min(table.len());
    &mut table[..end]
}

// Whether a word with this number is as wanted: below `written` the listed one, or another where none is listed, and soil from there on.
fn is_wanted(x: u32, i: usize, written: usize, wanted: &[u32], otherwise: u32) -> bool {
    if i < written {
        x == value_or(wanted, i, otherwise)
    } else {
        x == SOIL
    }
}

// The same of a float, by its pattern: below `written` the one that the rest of the list begins with.
fn is_float_wanted(x: f64, i: usize, written: usize, rest: &[u32], otherwise: f64) -> bool {
    if written <= i {
        x == FLOAT_SOIL
    } else if 4 <= rest.len() {
        pattern_of(x) == pattern_of(listed_float(rest))
    } else {
        x == otherwise
    }
}

// Whether of the first words of a table, as many as were lent, those that are written are as wanted, all one word where no more are listed, and the others soil.
pub fn words_hold(
    table: &[u32; WORDS],
    lent: usize,
    written: usize,
    wanted: &[u32],
    otherwise: u32,
) -> bool {
    (0..lent).all(|i| is_wanted(word(table, i), i, written, wanted, otherwise))
}

// The same of points. Those that are not listed are not looked at.
pub fn points_hold(points: &[u16; WORDS], lent: usize, written: usize, wanted: &[u32]) -> bool {
    (0..lent).all(|i| {
        let x = u32::from(value_or(points, i, 0));
        is_wanted(x, i, written, wanted, x)
    })
}

// The same of floats, all one float where no more are listed.
pub fn floats_hold(
    values: &[f64; WORDS],
    lent: usize,
    written: usize,
    wanted: &[u32],
    otherwise: f64,
) -> bool {
    let mut rest = wanted;
    for i in 0..lent {
        if !is_float_wanted(value_or(values, i, 0.0), i, written, rest, otherwise) {
            return false;
        }
        rest = after(rest, 4);
    }
    true
}
