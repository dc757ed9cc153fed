// The builds by records, held to the same answers as those by words: as many of the first records as there are rings stand for the directory's words, and the others
// are as they were. Each is run with as many records as rings, with more, with one fewer, and with a word fewer in the directory; and the set that a contour or a band
// writes is read by records too.
use crate::areas::area_of;
use crate::calls::{VALUES, case_holds, has_floats, outputs_hold, words_if, work_holds};
use crate::cases::{Build, Case, Lending, Room, built_agrees, lent_room, short_refusal};
use crate::tables::{FLOAT_SOIL, SOIL, SOILED, WORDS, after, floats_part, front, front_mut};
use crate::text::NUMBERS;
use crate::texts::set_holds;
use crate::tried::{ROOM, is_soiled, run_tried};
use error::Refusal;
use lent::word;
use limits::RECORD_STRIDE;
use ringrecord::{RingRecord, class_word, owner_word};

// Whether a record, which is that of number k, stands for the six words that a directory begins with.
fn same_record(record: RingRecord, k: u32, directory: &[u32]) -> bool {
    record.first == word(directory, 0)
        && record.count == word(directory, 1)
        && class_word(record.fate) == word(directory, 2)
        && owner_word(k, record.fate) == word(directory, 3)
        && record.area == area_of(word(directory, 4), word(directory, 5))
}

// Whether a record stands for the six words that a directory begins with where its number k is below that of the rings, and else is as it was.
fn record_holds(record: RingRecord, k: u32, rings: u32, directory: &[u32]) -> bool {
    if k < rings {
        same_record(record, k, directory)
    } else {
        is_soiled(record)
    }
}

// Whether the first records stand for the words of a directory, as many as there are rings, and the others are as they were.
fn records_hold(records: [RingRecord; ROOM], rings: u32, directory: &[u32]) -> bool {
    let mut rest = directory;
    for k in 0..ROOM {
        let record = records[k];
        if !record_holds(record, k as u32, rings, rest) {
            return false;
        }
        rest = after(rest, RECORD_STRIDE);
    }
    true
}

// How many rings a build that is refused so has written, where it has this many.
fn rings_written(refusal: Option<Refusal>, rings: u32) -> u32 {
    if refusal.is_none() { rings } else { 0 }
}

// Whether the build by `n` records passes, or is refused so, in tables that are lent this room, and leaves them and the records as it should.
fn tried_holds(
    case: Case,
    room: Room,
    n: usize,
    refusal: Option<Refusal>,
    grid: &[f64],
    thresholds: &[f64],
    records: &[u32],
    listed: &[u32],
) -> bool {
    let floating = has_floats(case.build);
    let mut lines = [SOIL; WORDS];
    let mut links = [SOIL; WORDS];
    let mut points = [SOILED; WORDS];
    let mut floats = [FLOAT_SOIL; WORDS];
    let mut directory = [SOIL; WORDS];
    let tried = run_tried(
        case,
        grid,
        thresholds,
        front_mut(&mut lines, room.open),
        front_mut(&mut links, room.linked),
        front_mut(&mut points, words_if(!floating, room.worded)),
        front_mut(&mut floats, words_if(floating, room.worded)),
        front_mut(&mut directory, room.recorded),
        n,
    );
    let rings = case.counts.rings;
    built_agrees(tried.answer, rings, refusal)
        & records_hold(tried.records, rings_written(refusal, rings), records)
        & work_holds(case.room, room, refusal, &lines, &links)
        & outputs_hold(
            case.room,
            room,
            refusal.is_none(),
            floating,
            records,
            listed,
            &points,
            &floats,
            &directory,
        )
}

// Whether a build's rings have a text.
fn has_text(build: Build) -> bool {
    matches!(build, Build::Contour | Build::Band)
}

// Whether the set of rings that the build by records writes is read by records as by words.
fn readers_hold(case: Case, grid: &[f64], thresholds: &[f64]) -> bool {
    let room = case.room;
    let mut lines = [SOIL; WORDS];
    let mut links = [SOIL; WORDS];
    let mut points = [SOILED; WORDS];
    let mut floats = [FLOAT_SOIL; 0];
    let mut directory = [SOIL; WORDS];
    let tried = run_tried(
        case,
        grid,
        thresholds,
        front_mut(&mut lines, room.open),
        front_mut(&mut links, room.linked),
        front_mut(&mut points, room.worded),
        &mut floats,
        front_mut(&mut directory, room.recorded),
        ROOM,
    );
    set_holds(
        front(&points, room.worded),
        front_mut(&mut directory, room.recorded),
        tried.records,
        case.counts.rings,
    )
}

// Whether the build by records answers as expected with as many records as rings, with more, with one fewer, and with a directory that is a word short; and whether
// what it writes, where it has a text, is read as by words. More rings than there are records for are a difference.
fn case_tried_holds(case: Case, records: &[u32], listed: &[u32], values: &[f64; VALUES]) -> bool {
    let rings = case.counts.rings as usize;
    if ROOM < rings {
        return false;
    }
    let room = case.room;
    let short = lent_room(room, Lending::Short(Refusal::DirectoryShort));
    let one_less = Some(Refusal::DirectoryShort);
    let pair = case.list;
    let list = [3.0, pair.lower, pair.upper];
    let thresholds = floats_part(&list, pair.from, pair.to);
    let grid = front(values, case.samples);
    tried_holds(case, room, rings, None, grid, thresholds, records, listed)
        & tried_holds(case, room, ROOM, None, grid, thresholds, records, listed)
        & tried_holds(
            case,
            short,
            rings,
            short_refusal(room, Refusal::DirectoryShort),
            grid,
            thresholds,
            records,
            listed,
        )
        & (rings == 0
            || tried_holds(
                case,
                room,
                rings - 1,
                one_less,
                grid,
                thresholds,
                records,
                listed,
            ))
        & (!has_text(case.build) || readers_hold(case, grid, thresholds))
}

// Whether a case holds by words and by records.
pub fn both_hold(
    case: Case,
    records: &[u32; NUMBERS],
    listed: &[u32],
    values: &[f64; VALUES],
) -> bool {
    case_holds(case, records, listed, values) & case_tried_holds(case, records, listed, values)
}
