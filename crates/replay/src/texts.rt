// The check, the length and the text of a ring set by records, held to those by words: the answers, every byte of the text, and the words that each leaves in its
// directory. They are run in exact and in generous room, with a byte, a word or a record fewer, and over a set whose first record is damaged.
ghost use Rattle.std.specs.Prelude.{◌≤◌};

use crate::areas::{area_of, other_high};
use crate::cases::one_less_if;
use crate::readers::{Answers, read_records};
use crate::tables::{SOIL, WORDS, front, front_mut, words_hold};
use crate::tried::ROOM;
use error::Refusal;
use geojson::{geojson_length, write_geojson};
use lent::{put, word};
use ringrecord::{Fate, RingRecord, class_word, owner_word};
use ringset::ring_set_faulty;

// The bytes of a text: more than any of the grids needs.
const BYTES: usize = 16384;

// What the bytes hold before a call. No text has it.
const BYTE_SOIL: u8 = 255;

// Whether the answers and the text are those by words, over these words.
fn texts_agree(
    answers: Answers,
    text: &[u8; BYTES],
    points: &[u16],
    words: &[u32],
    rings: u32,
    bytes: usize,
) -> bool {
    let mut wanted = [BYTE_SOIL; BYTES];
    let written = write_geojson(points, words, rings, front_mut(&mut wanted, bytes));
    (answers.faulty == ring_set_faulty(points, words, rings))
        & (answers.length == geojson_length(points, words, rings))
        & (answers.written == written)
        & (text == &wanted)
}

// The answer of the writer by `n` records, where directories of this many words and a text of this many bytes are lent. There is none where a reader differs
// from that by words, over the words that are to be copied, or leaves other words in its directory.
fn readers_answer(
    points: &[u16],
    words: &[u32],
    records: [RingRecord; ROOM],
    n: usize,
    rings: u32,
    room: usize,
    bytes: usize,
) -> Option<Result<u64, Refusal>> {
    let mut checked = [SOIL; WORDS];
    let mut measured = [SOIL; WORDS];
    let mut directory = [SOIL; WORDS];
    let mut text = [BYTE_SOIL; BYTES];
    let answers = read_records(
        points,
        records,
        n,
        rings,
        front_mut(&mut checked, room),
        front_mut(&mut measured, room),
        front_mut(&mut directory, room),
        front_mut(&mut text, bytes),
    );
    let copied = words.len();
    let agree = texts_agree(answers, &text, points, words, rings, bytes)
        & words_hold(&checked, room, copied, words, 0)
        & words_hold(&measured, room, copied, words, 0)
        & words_hold(&directory, room, copied, words, 0);
    if agree { Some(answers.written) } else { None }
}

// Whether a set of rings is read as by words: in exact and in generous room, and with a byte fewer.
fn set_reads(
    points: &[u16],
    words: &[u32],
    records: [RingRecord; ROOM],
    n: usize,
    rings: u32,
) -> bool {
    let room = words.len();
    let bytes = geojson_length(points, words, rings).unwrap_or(0) as usize;
    let short = one_less_if(true, bytes);
    let exact = readers_answer(points, words, records, n, rings, room, bytes);
    let generous = readers_answer(points, words, records, ROOM, rings, WORDS, BYTES);
    let refused = readers_answer(points, words, records, n, rings, room, short);
    matches!(exact, Some(Ok(_)))
        & matches!(generous, Some(Ok(_)))
        & (refused == Some(Err(Refusal::TextShort)))
}

// Whether the readers agree that a ring set is faulty.
fn is_refused(answer: Option<Result<u64, Refusal>>) -> bool {
    answer == Some(Err(Refusal::BadRingSet))
}

// Whether a set of rings, where there are any, is refused with a word or a record fewer, and nothing is copied.
fn short_set_refused(
    points: &[u16],
    words: &[u32],
    records: [RingRecord; ROOM],
    n: usize,
    rings: u32,
) -> bool {
    if n == 0 {
        return true;
    }
    let none = front(words, 0);
    let room = words.len();
    let short = one_less_if(true, room);
    is_refused(readers_answer(points, none, records, n, rings, short, BYTES))
        & is_refused(readers_answer(points, none, records, n - 1, rings, room, BYTES))
}

// Stores the words of a first record but for its area.
fn put_first(directory: &mut [u32], record: RingRecord) {
    put(directory, 0, record.first);
    put(directory, 1, record.count);
    put(directory, 2, class_word(record.fate));
    put(directory, 3, owner_word(0, record.fate));
}

// The records with another first one.
fn with_first(records: [RingRecord; ROOM], record: RingRecord) -> [RingRecord; ROOM] {
    let mut changed = records;
    changed[0] = record;
    changed
}

// The readers' answer over a set of rings whose first record is another.
fn changed_answer(
    points: &[u16],
    directory: &mut [u32],
    records: [RingRecord; ROOM],
    n: usize,
    rings: u32,
    record: RingRecord,
) -> Option<Result<u64, Refusal>> {
    put_first(directory, record);
    let changed = with_first(records, record);
    let room = directory.len();
    readers_answer(points, directory, changed, n, rings, room, BYTES)
}

// Whether a set of rings, where there are any, is read as by words where its first record has a point more, and is refused where that is a hole in itself. With a
// point more it is mostly refused, but not where the next ring begins with the same point.
fn damaged_set_holds(
    points: &[u16],
    directory: &mut [u32],
    records: [RingRecord; ROOM],
    n: usize,
    rings: u32,
) -> bool {
    if n == 0 {
        return true;
    }
    let record = records[0];
    let longer = RingRecord {
        count: record.count.wrapping_add(1),
        ..record
    };
    let hole = RingRecord {
        fate: Fate::Hole(0),
        ..record
    };
    changed_answer(points, directory, records, n, rings, longer).is_some()
        & is_refused(changed_answer(points, directory, records, n, rings, hole))
}

// The readers' answer over a set of rings whose first record has an area of these words.
fn area_answer(
    points: &[u16],
    directory: &mut [u32],
    records: [RingRecord; ROOM],
    n: usize,
    rings: u32,
    low: u32,
    high: u32,
) -> Option<Result<u64, Refusal>> {
    let changed = RingRecord {
        area: area_of(low, high),
        ..records[0]
    };
    put(directory, 4, low);
    put(directory, 5, high);
    changed_answer(points, directory, records, n, rings, changed)
}

// Whether a set of rings, where there are any, is refused where either word of its first record's area is one off.
fn damaged_area_refused(
    points: &[u16],
    directory: &mut [u32],
    records: [RingRecord; ROOM],
    n: usize,
    rings: u32,
) -> bool {
    if n == 0 {
        return true;
    }
    let low = word(directory, 4);
    let high = word(directory, 5);
    let more = low.wrapping_add(1);
    let other = other_high(high);
    is_refused(area_answer(points, directory, records, n, rings, more, high))
        & is_refused(area_answer(points, directory, records, n, rings, low, other))
}

// Whether a set of rings is read by records as by words. More rings than there are records for are a difference.
pub fn set_holds(
    points: &[u16],
    directory: &mut [u32],
    records: [RingRecord; ROOM],
    rings: u32,
) -> bool {
    let n = rings as usize;
    if ROOM < n {
        return false;
    }
    set_reads(points, directory, records, n, rings)
        & short_set_refused(points, directory, records, n, rings)
        & damaged_set_holds(points, directory, records, n, rings)
        & damaged_area_refused(points, directory, records, n, rings)
}
