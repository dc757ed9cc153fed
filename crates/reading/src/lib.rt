// Reads the program's input: the text of a terrain and its threshold, as bytes. A text is read whole or not at all.
#![tactic(auto)]

ghost use Rattle.std.specs.Prelude.{◌≡◌, ◌≤◌, ◌<◌, length};
ghost use Rattle.scope.specs.Program.{number_limit};
ghost use Rattle.reading.specs.Parser.{goes_on, end_of, column_after, side_fits, sides_fit};
ghost use Rattle.reading.specs.Reads.{NumberRead, RestRead, HeadRead, ValuesRead, InputRead};

// The most columns and the most rows of a terrain that the program reads.
pub const SIDE: usize = 32;

// The most values of a terrain that the program reads.
pub const VALUES: usize = 1024;

// The largest number that the program reads.
const LIMIT: u32 = 65535;

// A terrain that a text is read as: its columns and rows, and its threshold.
#[derive(Clone, Copy)]
pub struct Terrain {
    pub dx: usize,
    pub dy: usize,
    pub threshold: f64,
}

// A number that stands at a place of a text, and the place past the number and its end.
#[derive(Clone, Copy)]
struct Number {
    value: u32,
    next: usize,
}

// What the first line of a text says: columns, rows and threshold, and the place past the line.
#[derive(Clone, Copy)]
struct Head {
    dx: usize,
    dy: usize,
    threshold: u32,
    next: usize,
}

// Whether a number goes on with a byte: it is a digit that follows no leading zero, and the number stays within the limit.
#[tactic(auto, unfolding(crate::specs::Parser::goes_on, crate::specs::Parser::is_digit, scope::specs::Program::number_limit))]
fn goes_on(value: u32, b: u8) -> bool
    requires { value ≤ number_limit }
    ensures { result ≡ goes_on value b }
{
    b.is_ascii_digit() && 0 < value && 10 * value + u32::from(b - b'0') <= LIMIT
}

// The rest of a number that begins with this value, from a place on, and its end.
fn read_rest(text: &[u8], from: usize, begun: u32, end: u8) -> Option<Number>
    requires { begun ≤ number_limit }
    ensures { RestRead text.now from begun end result }
{
    let mut value = begun;
    for at in from..text.len() {
        let b = text[at];
        if b == end {
            return Some(Number {
                value,
                next: at + 1,
            });
        }
        if !goes_on(value, b) {
            return None;
        }
        value = 10 * value + u32::from(b - b'0');
    }
    None
}

// The number at a place, and its end.
fn read_number(text: &[u8], from: usize, end: u8) -> Option<Number>
    ensures { NumberRead text.now from end result }
{
    let b = *text.get(from)?;
    if !b.is_ascii_digit() {
        return None;
    }
    read_rest(text, from + 1, u32::from(b - b'0'), end)
}

// The first line.
fn read_head(text: &[u8]) -> Option<Head>
    ensures { HeadRead text.now result }
{
    let columns = read_number(text, 0, b' ')?;
    let rows = read_number(text, columns.next, b' ')?;
    let threshold = read_number(text, rows.next, b'\n')?;
    Some(Head {
        dx: columns.value as usize,
        dy: rows.value as usize,
        threshold: threshold.value,
        next: threshold.next,
    })
}

// Whether a terrain with this side is read.
#[tactic(auto, unfolding(crate::specs::Parser::side_fits, scope::specs::Program::program_side))]
fn side_fits(side: usize) -> bool
    ensures { result ≡ side_fits side }
{
    (1..=SIDE).contains(&side)
}

// Whether a terrain of these sides is read.
#[tactic(auto, unfolding(crate::specs::Parser::sides_fit))]
fn sides_fit(dx: usize, dy: usize) -> bool
    ensures { result ≡ sides_fit dx dy }
{
    side_fits(dx) && side_fits(dy)
}

// The byte that ends the number in a column: a newline in the last column, and a space before.
#[tactic(auto, unfolding(crate::specs::Parser::end_of))]
fn end_of(dx: usize, column: usize) -> u8
    requires { column < dx }
    ensures { result ≡ end_of dx column }
{
    if column + 1 == dx { b'\n' } else { b' ' }
}

// The column of the number after the one in a column.
#[tactic(auto, unfolding(crate::specs::Parser::column_after))]
fn column_after(dx: usize, column: usize) -> usize
    requires { column < dx }
    ensures { result ≡ column_after dx column }
{
    if column + 1 == dx { 0 } else { column + 1 }
}

// Reads this many values, in rows of dx, from a place on, into the table, and answers the place past them.
fn read_values(
    text: &[u8],
    from: usize,
    dx: usize,
    count: usize,
    values: &mut [f64],
) -> Option<usize>
    requires { (0 < dx) × (count ≤ length values.old) × (from ≤ length text.now) }
    ensures { ValuesRead text.now from dx count values.old result values.new }
{
    let mut at = from;
    let mut column = 0;
    for k in 0..count {
        let number = read_number(text, at, end_of(dx, column))?;
        values[k] = f64::from(number.value);
        at = number.next;
        column = column_after(dx, column);
    }
    Some(at)
}

// Reads a terrain, its values into the table from the first place on, row after row. Where the text is faulty the table stays: the values are read into
// another table first.
pub fn read_input(text: &[u8], values: &mut [f64; VALUES]) -> Option<Terrain>
    ensures { InputRead text.now values.old result values.new }
{
    let head = read_head(text)?;
    if !sides_fit(head.dx, head.dy) {
        return None;
    }
    let count = head.dx * head.dy;
    let mut tried = [0.0f64; VALUES];
    let last = read_values(text, head.next, head.dx, count, &mut tried)?;
    if last != text.len() {
        return None;
    }
    values[..count].copy_from_slice(&tried[..count]);
    Some(Terrain {
        dx: head.dx,
        dy: head.dy,
        threshold: f64::from(head.threshold),
    })
}
