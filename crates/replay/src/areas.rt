// Areas, as a text lists them and as a directory holds them: two words in two's complement, low word first; and the area that two such words are.

// Stands for an area of 0 in a text, as no number of a text has a sign.
const NO_AREA: u32 = 50000;

// A word of all ones: the high word of an area below 0. That of any other is 0, since no area of a text takes more than one word.
const ONES: u32 = u32::MAX;

// The low word of the area that a number of a text stands for.
pub fn low_word(number: u32) -> u32 {
    number.wrapping_sub(NO_AREA)
}

// The high word of the area that a number of a text stands for.
pub fn high_word(number: u32) -> u32 {
    if number < NO_AREA { ONES } else { 0 }
}

// The other one of the two high words, which is one off.
pub fn other_high(high: u32) -> u32 {
    if high == 0 { ONES } else { 0 }
}

// The area of a low word and one of the two high words.
pub fn area_of(low: u32, high: u32) -> i64 {
    if high == 0 {
        i64::from(low)
    } else {
        i64::from(low) - 4294967296
    }
}
