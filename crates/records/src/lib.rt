// The calls with the directory as a run of records, each holding its fate, beside the directory words that the word form takes: the four builds, and the check,
// the length and the text of a ring set. Each is the word form over words that are copied out into the records, or in from them, and asks nothing of the caller.
#![tactic(auto)]

ghost use Rattle.std.specs.Prelude.{◌≡◌};
ghost use Rattle.scope.specs.GeoJson.{ring_set_refused};
ghost use Rattle.bands.specs.Bands.{BandBuilt};
ghost use Rattle.contourbuilder.specs.Contours.{ContoursBuilt};
ghost use Rattle.geojson.specs.Written.{length_answer, written_answer, text_after};
ghost use Rattle.isoringbuilder.specs.Answers.{RingsBuilt};
ghost use Rattle.linebuilder.specs.Lines.{LinesBuilt};
ghost use Rattle.ringrecord.specs.Copies.{words_from, words_after};
ghost use Rattle.smoothing.specs.Values.{placing_of};
ghost use Rattle.records.specs.Over.{lent_words, rings_in, OverRecords, read_words};

use contour::{
    contour_lines, contour_rings, contours, geojson_length, isobands, ring_set_faulty,
    write_geojson,
};
use error::Refusal;
use limits::RECORD_STRIDE;
pub use ringrecord::{Fate, RingRecord};
use ringrecord::{records_from_words, words_from_records};
use scope::{Level, Rule};
use smoothing::Placement;

// How many words the word form is lent, where there are so many words and records: six a record, as far as there are any.
#[tactic(auto, unfolding(crate::specs::Over::lent_words, scope::specs::Room::directory_words, scope::specs::Limits::record_stride))]
fn lent_words(words: usize, records: usize) -> usize
    ensures { result ≡ lent_words words records }
{
    words.min(RECORD_STRIDE.saturating_mul(records))
}

// How many rings an answer gives.
#[tactic(auto, unfolding(crate::specs::Over::rings_in))]
fn rings_in(built: Result<u32, Refusal>) -> u32
    ensures { result ≡ rings_in built }
{
    built.unwrap_or(0)
}

// Kept: the builds as four like functions, since of what a closure borrows and changes, here three of the tables, nothing is known after its call.

// contour_rings, with a record a ring beside its words. Number 8 is given exactly where there are fewer records than rings, or fewer words than six a ring; records
// past the rings and words past those lent stay.
pub fn ring_records(
    values: &[f64],
    level: Level,
    dx: usize,
    dy: usize,
    lines: &mut [u32],
    links: &mut [u32],
    points: &mut [u16],
    directory: &mut [u32],
    records: &mut [RingRecord],
) -> Result<u32, Refusal>
    ensures { OverRecords (λ directory directory'. RingsBuilt values.now level dx dy lines.old links.old points.old directory result
        lines.new links.new points.new directory') (rings_in result) directory.entry.now directory.exit.now records.old records.new }
{
    let lent = lent_words(directory.len(), records.len());
    let built = contour_rings(
        values,
        level,
        dx,
        dy,
        lines,
        links,
        points,
        &mut directory[..lent],
    );
    let _ = records_from_words(directory, rings_in(built), records);
    built
}

// contour_lines, with a record a line beside its words.
pub fn line_records(
    values: &[f64],
    level: Level,
    dx: usize,
    dy: usize,
    smooth: bool,
    placement: Placement,
    lines: &mut [u32],
    links: &mut [u32],
    points: &mut [f64],
    directory: &mut [u32],
    records: &mut [RingRecord],
) -> Result<u32, Refusal>
    ensures { OverRecords (λ directory directory'. LinesBuilt values.now level dx dy smooth (placing_of placement) lines.old links.old points.old directory result
        lines.new links.new points.new directory') (rings_in result) directory.entry.now directory.exit.now records.old records.new }
{
    let lent = lent_words(directory.len(), records.len());
    let built = contour_lines(
        values,
        level,
        dx,
        dy,
        smooth,
        placement,
        lines,
        links,
        points,
        &mut directory[..lent],
    );
    let _ = records_from_words(directory, rings_in(built), records);
    built
}

// contours, with a record a ring that holds what became of it beside its words.
pub fn contour_records(
    values: &[f64],
    level: Level,
    dx: usize,
    dy: usize,
    lines: &mut [u32],
    links: &mut [u32],
    points: &mut [u16],
    directory: &mut [u32],
    records: &mut [RingRecord],
) -> Result<u32, Refusal>
    ensures { OverRecords (λ directory directory'. ContoursBuilt values.now level dx dy lines.old links.old points.old directory result
        lines.new links.new points.new directory') (rings_in result) directory.entry.now directory.exit.now records.old records.new }
{
    let lent = lent_words(directory.len(), records.len());
    let built = contours(
        values,
        level,
        dx,
        dy,
        lines,
        links,
        points,
        &mut directory[..lent],
    );
    let _ = records_from_words(directory, rings_in(built), records);
    built
}

// isobands, with a record a ring in the band's sorted order beside its words.
pub fn isoband_records(
    values: &[f64],
    thresholds: &[f64],
    rule: Rule,
    k: usize,
    dx: usize,
    dy: usize,
    lines: &mut [u32],
    links: &mut [u32],
    points: &mut [u16],
    directory: &mut [u32],
    records: &mut [RingRecord],
) -> Result<u32, Refusal>
    ensures { OverRecords (λ directory directory'. BandBuilt values.now thresholds.now rule k dx dy lines.old links.old points.old directory result
        lines.new links.new points.new directory') (rings_in result) directory.entry.now directory.exit.now records.old records.new }
{
    let lent = lent_words(directory.len(), records.len());
    let built = isobands(
        values,
        thresholds,
        rule,
        k,
        dx,
        dy,
        lines,
        links,
        points,
        &mut directory[..lent],
    );
    let _ = records_from_words(directory, rings_in(built), records);
    built
}

// How many words a reader is lent: six a ring where the rings' words were copied, and none otherwise.
// Kept: a flag and no `Option`, since `words_from_records` promises to answer whether it copied.
#[tactic(auto, unfolding(crate::specs::Over::read_words, scope::specs::Room::directory_words, scope::specs::Limits::record_stride))]
fn read_words(rings: u32, copied: bool) -> usize
    ensures { result ≡ read_words rings copied }
{
    if copied {
        RECORD_STRIDE * (rings as usize)
    } else {
        0
    }
}

// ring_set_faulty over the words of the first records, as many as rings are stated, which are copied into the directory. Where there are not as many words or
// records none is copied, and the set is refused.
pub fn record_set_faulty(
    points: &[u16],
    records: &[RingRecord],
    rings: u32,
    directory: &mut [u32],
) -> bool
    ensures { (result ≡ ring_set_refused points.now (words_from rings records.now directory.old) rings) × (directory.new ≡ words_after rings records.now directory.old) }
{
    let copied = words_from_records(records, rings, directory);
    ring_set_faulty(points, &directory[..read_words(rings, copied)], rings)
}

// geojson_length over the words of the records, in the same way.
pub fn record_text_length(
    points: &[u16],
    records: &[RingRecord],
    rings: u32,
    directory: &mut [u32],
) -> Result<u64, Refusal>
    ensures { (result ≡ length_answer points.now (words_from rings records.now directory.old) rings) × (directory.new ≡ words_after rings records.now directory.old) }
{
    let copied = words_from_records(records, rings, directory);
    geojson_length(points, &directory[..read_words(rings, copied)], rings)
}

// write_geojson over the words of the records, in the same way.
pub fn write_record_text(
    points: &[u16],
    records: &[RingRecord],
    rings: u32,
    directory: &mut [u32],
    text: &mut [u8],
) -> Result<u64, Refusal>
    ensures { (result ≡ written_answer points.now (words_from rings records.now directory.old) rings text.old) × (text.new ≡ text_after points.now (words_from rings records.now directory.old) rings text.old) × (directory.new ≡ words_after rings records.now directory.old) }
{
    let copied = words_from_records(records, rings, directory);
    write_geojson(points, &directory[..read_words(rings, copied)], rings, text)
}
