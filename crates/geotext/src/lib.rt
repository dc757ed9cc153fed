// The text of a coordinate, a point and a ring as bytes, how long each is, and how long the text of a checked ring set is.
#![tactic(auto)]

ghost use Rattle.std.specs.Prelude.{◌≡◌, ◌+◌, ◌-◌, ◌*◌, ◌^◌, ◌%◌, ◌≤◌, ◌<◌, length, false, [], ◌∷◌};
ghost use Rattle.std.proofs.lemmas.List.Edits.{sets};
ghost use Rattle.scope.specs.Limits.{point_limit};
ghost use Rattle.scope.specs.Area as Area;
ghost use Rattle.scope.specs.GeoJson.{decimal, coordinate_text, point_text, ring_text, written_order, geo_json_text};
ghost use Rattle.ringset.specs.OneRecord.{shape_refused};
ghost use Rattle.geotext.specs.Pieces.{digit_text, point_texts, next_of};
ghost use Rattle.geotext.specs.Shares.{record_share};

use limits::{NO_OWNER, POLYGON};
use ringset::{Record, RingSet, record_at};

// The bytes of a text that are no digits of a whole number.
const COMMA: u8 = b',';

const POINT: u8 = b'.';

const FIVE: u8 = b'5';

const OPENING_BRACKET: u8 = b'[';

const CLOSING_BRACKET: u8 = b']';

// The digit 0.
const ZERO: u8 = b'0';

// The bytes of a text without polygons.
const FRAME_LENGTH: u64 = 40;

// The number of bytes of a digit: 0 where the number is below its unit.
#[tactic(auto, unfolding(crate::specs::Pieces::digit_text))]
fn digit_length(n: u16, unit: u16) -> u64
    ensures { (result ≡ length (digit_text n unit)) × (result ≤ 1) }
{
    if n < unit { 0 } else { 1 }
}

// The number of bytes of a coordinate's text.
fn coordinate_length(doubled: u16) -> u64
    ensures { result ≡ length (coordinate_text doubled) }
{
    let half = doubled / 2;
    let upper = digit_length(half, 10000) + digit_length(half, 1000);
    let lower = digit_length(half, 100) + digit_length(half, 10);
    upper + lower + 1 + 2 * u64::from(doubled % 2)
}

// Writes the digit that counts a unit, where the number has one, and answers the number of the byte behind it.
#[tactic(auto, unfolding(crate::specs::Pieces::digit_text))]
fn put_digit(text: &mut [u8], at: usize, n: u16, unit: u16) -> usize
    requires unit_nonzero { 0 < unit }
    requires unit_in_bounds { at + length (digit_text n unit) ≤ length text.old }
    ensures value { result ≡ at + length (digit_text n unit) }
    ensures text_after { text.new ≡ sets text.old at (digit_text n unit) }
{
    if n < unit {
        return at;
    }
    text[at] = ZERO + (n / unit % 10) as u8;
    at + 1
}

// Writes a number's digits from byte `at` on, and answers the number of the byte behind them.
fn put_decimal(text: &mut [u8], at: usize, n: u16) -> usize
    requires { at + length (decimal n) ≤ length text.old }
    ensures value { result ≡ at + length (decimal n) }
    ensures text_after { text.new ≡ sets text.old at (decimal n) }
{
    let thousands = put_digit(text, at, n, 10000);
    let hundreds = put_digit(text, thousands, n, 1000);
    let tens = put_digit(text, hundreds, n, 100);
    let ones = put_digit(text, tens, n, 10);
    text[ones] = ZERO + (n % 10) as u8;
    ones + 1
}

// Writes a coordinate's text from byte `at` on, and answers the number of the byte behind it.
fn put_coordinate(text: &mut [u8], at: usize, doubled: u16) -> usize
    requires { at + length (coordinate_text doubled) ≤ length text.old }
    ensures value { result ≡ at + length (coordinate_text doubled) }
    ensures text_after { text.new ≡ sets text.old at (coordinate_text doubled) }
{
    let end = put_decimal(text, at, doubled / 2);
    if doubled % 2 == 0 {
        return end;
    }
    text[end] = POINT;
    text[end + 1] = FIVE;
    end + 2
}

// Writes a point's text from byte `at` on, and answers the number of the byte behind it.
fn put_point(text: &mut [u8], at: usize, x: u16, y: u16) -> usize
    requires { at + length (point_text (record { x = x; y = y })) ≤ length text.old }
    ensures value { result ≡ at + length (point_text (record { x = x; y = y })) }
    ensures text_after { text.new ≡ sets text.old at (point_text (record { x = x; y = y })) }
{
    text[at] = OPENING_BRACKET;
    let middle = put_coordinate(text, at + 1, x);
    text[middle] = COMMA;
    let end = put_coordinate(text, middle + 1, y);
    text[end] = CLOSING_BRACKET;
    end + 1
}

// The number of bytes of a ring's text, from the ring's words.
fn ring_length(ring: &[u16]) -> u64
    requires even { length ring.now % 2 ≡ 0 }
    requires few { length ring.now ≤ 2 * point_limit }
    ensures { result ≡ length (ring_text (Area.points ring.now)) }
{
    if ring.is_empty() {
        return 2;
    }
    let letters: u64 = ring.iter().map(|word| coordinate_length(*word)).sum();
    letters + 2 * (ring.len() as u64) + 1
}

// Which of a ring's points is the next, from 0, where so many of `count` are left to be written: backwards, or as stored.
#[tactic(auto, unfolding(crate::specs::Pieces::next_of))]
fn next_of(count: usize, left: usize, back: bool) -> usize
    requires left_nonzero { 0 < left }
    requires left_le_count { left ≤ count }
    ensures { result ≡ next_of count left back }
{
    if back { left - 1 } else { count - left }
}

// Writes the texts of a ring's points from its words, with commas between them, backwards or as stored, from byte `at` on, and answers the number of the byte
// behind them.
fn put_points(ring: &[u16], back: bool, text: &mut [u8], at: usize) -> usize
    requires { at + length (point_texts (written_order back (Area.points ring.now))) ≤ length text.old }
    ensures value { result ≡ at + length (point_texts (written_order back (Area.points ring.now))) }
    ensures text_after { text.new ≡ sets text.old at (point_texts (written_order back (Area.points ring.now))) }
{
    let count = ring.len() / 2;
    let mut place = at;
    for left in (0..count).rev() {
        let i = 2 * next_of(count, left + 1, back);
        place = put_point(text, place, ring[i], ring[i + 1]);
        if 0 < left {
            text[place] = COMMA;
            place += 1;
        }
    }
    place
}

// Writes a ring's text from its words, from byte `at` on, its points backwards or as stored, and answers the number of the byte behind it.
pub fn put_ring(ring: &[u16], back: bool, text: &mut [u8], at: usize) -> usize
    requires { at + length (ring_text (written_order back (Area.points ring.now))) ≤ length text.old }
    ensures value { result ≡ at + length (ring_text (written_order back (Area.points ring.now))) }
    ensures text_after { text.new ≡ sets text.old at (ring_text (written_order back (Area.points ring.now))) }
{
    text[at] = OPENING_BRACKET;
    let end = put_points(ring, back, text, at + 1);
    text[end] = CLOSING_BRACKET;
    end + 1
}

// What a record whose ring is not refused adds to the length of its set's text.
fn share_of(points: &[u16], record: Record) -> u64
    requires { shape_refused points.now «record» ≡ false }
    ensures { result ≡ record_share points.now «record» }
{
    let start = 2 * (record.first as usize);
    let ring = &points[start..start + 2 * (record.count as usize)];
    if record.class == POLYGON {
        return ring_length(ring) + 3;
    }
    if record.owner == NO_OWNER {
        return 0;
    }
    ring_length(ring) + 1
}

// The number of bytes of a text by the shares of its records: they come into the frame, and the last polygon has no comma.
fn framed(shares: u64) -> u64
    requires { shares < 2 ^ 63 }
    ensures { result ≡ 40 + (shares - 1) }
{
    FRAME_LENGTH + shares.saturating_sub(1)
}

// The number of bytes of the text of a checked ring set. It does not depend on the order of the rings, so one walk over the records gives it.
pub fn text_length(set: RingSet) -> u64
    ensures { result ≡ length (geo_json_text set.entry.points.now set.entry.directory.now set.entry.rings) }
{
    let mut sum: u64 = 0;
    for k in 0..set.rings {
        sum += share_of(set.points, record_at(set.directory, k));
    }
    framed(sum)
}
