// A line of the text of contours and bands: sides, samples, two thresholds, the set of the contour at the first, the set of the band between both, and the points
// of the band, which begin with the contour's.
use crate::calls::VALUES;
use crate::cases::Build;
use crate::fates::fates_hold;
use crate::grids::{PLAIN, after_records, case_of, counts_of, listed_holds, pair_of, sample_count};
use crate::tables::{after, fill};
use lent::word;
use scope::Rule;

// The thresholds of a line, and what follows them.
fn after_samples(line: &[u32]) -> &[u32] {
    after(line, 2 + sample_count(word(line, 0), word(line, 1)))
}

// Whether contour and band of this line are replayed without a difference at thresholds that are so much below its own, under this rule.
fn regions_hold_at(line: &[u32], below: f64, rule: Rule) -> bool {
    let pair = after_samples(line);
    let contour = after(pair, 2);
    let band = after_records(contour);
    let listed = after_records(band);
    let lower = f64::from(word(pair, 0)) - below;
    let upper = f64::from(word(pair, 1)) - below;
    let list = pair_of(lower, upper, rule);
    let contour_case = case_of(Build::Contour, line, counts_of(contour), list, PLAIN);
    let band_case = case_of(Build::Band, line, counts_of(band), list, PLAIN);
    let mut values = [0.0f64; VALUES];
    let samples = after(line, 2);
    fill(
        &mut values,
        contour_case.samples,
        |i| f64::from(word(samples, i)),
    );
    (listed.len() == band_case.room.worded)
        & listed_holds(contour_case, contour, listed, &values)
        & listed_holds(band_case, band, listed, &values)
        & fates_hold(listed, contour_case.room.worded, contour)
}

// Whether contour and band of this line, and the fates of the contour's rings, are replayed without a difference. Samples and thresholds are whole: the samples
// that are at least a threshold are those that are more than one less.
pub fn regions_hold(line: &[u32]) -> bool {
    regions_hold_at(line, 0.0, Rule::AtLeast) & regions_hold_at(line, 1.0, Rule::MoreThan)
}
