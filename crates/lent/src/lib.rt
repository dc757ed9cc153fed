// A value of a lent table, which may be of any length: past the end it reads as 0 and is not stored. And the mark by which the links of rings end.
#![tactic(auto)]

ghost use Rattle.std.specs.Prelude.{◌≡◌, ◌/◌, ◌%◌, ◌^◌, get_or, set};

// The last link of a ring holds this number, with the first link of the next ring added. No link has this number or a larger one.
pub const MARK: u32 = 2147483648;

// The value of a table at an index, and `absent` past the end.
pub fn value_or<T: Copy>(table: &[T], i: usize, absent: T) -> T
    ensures { result ≡ get_or table.now i absent }
{
    table.get(i).copied().unwrap_or(absent)
}

// The word of a table at an index, and 0 past the end.
pub fn word(table: &[u32], i: usize) -> u32
    ensures { result ≡ get_or table.now i 0 }
{
    value_or(table, i, 0)
}

// Stores a value in a table. Past the end nothing is stored.
pub fn put<T: Copy>(table: &mut [T], i: usize, value: T)
    ensures { table.new ≡ set table.old i value }
{
    if i < table.len() {
        table[i] = value;
    }
}

// A number as a word holds it, modulo 2^32: its low word.
pub fn low_word(n: u64) -> u32
    ensures { result ≡ n % 2 ^ 32 }
{
    (n & 0xffff_ffff) as u32
}

// The word above it.
pub fn high_word(n: u64) -> u32
    ensures { result ≡ n / 2 ^ 32 }
{
    (n >> 32) as u32
}
