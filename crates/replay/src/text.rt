// Standard input as numbers, a line at a time. Only digits, spaces and ends of lines are expected; a number of more than eight digits loses its front.
use lent::{put, value_or};
use limits::NO_OWNER;

// How much text is read, and how many numbers a line may have.
pub const TEXT: usize = 2097152;

pub const NUMBERS: usize = 4096;

// How many numbers a line has, and where the next begins.
#[derive(Clone, Copy)]
pub struct Line {
    pub count: usize,
    pub next: usize,
}

// A number with one more digit.
fn appended(value: u32, digit: u8) -> u32 {
    value % 10000000 * 10 + u32::from(digit % 16)
}

// What a number stands for: itself, and 99999999 for the owner of a ring that has none.
fn meant(value: u32) -> u32 {
    if value == 99999999 { NO_OWNER } else { value }
}

// Stores the numbers of the line that begins at a byte. Each ends with a space or the end of the line.
pub fn read_line(text: &[u8; TEXT], from: usize, numbers: &mut [u32; NUMBERS]) -> Line {
    let mut count: usize = 0;
    let mut value: u32 = 0;
    for i in from..TEXT {
        let b = value_or(text, i, 0);
        if b.is_ascii_digit() {
            value = appended(value, b);
        } else {
            put(numbers, count, meant(value));
            count = count.wrapping_add(1);
            value = 0;
        }
        if b == b'\n' {
            return Line {
                count,
                next: i.wrapping_add(1),
            };
        }
    }
    Line { count, next: TEXT }
}
