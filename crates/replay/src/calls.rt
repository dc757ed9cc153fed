// Calls of the library on a case, in tables of their own whose words are soil; and whether each answers as expected and leaves every word as it should.
use crate::cases::{
    Build, Case, Lending, Room, built_agrees, first_agrees, grid_refusal, lent_room, second_agrees,
    short_refusal, work_refusal,
};
use crate::tables::{
    FLOAT_SOIL, SOIL, SOILED, WORDS, floats_hold, floats_part, front, front_mut, points_hold,
    words_hold,
};
use bands::{band_first_report, band_second_report};
use contourbuilder::{contours, isobands};
use error::Refusal;
use isoringbuilder::{SecondReport, contour_rings, second_report};
use linebuilder::contour_lines;
use scan::{FirstReport, first_report};
use scope::Level;

// How many samples there is room for.
pub const VALUES: usize = 4104;

// Every coordinate of lines that are not listed.
pub const PLACED: f64 = 7.0;

pub fn level(case: Case) -> Level {
    Level {
        threshold: case.list.lower,
        rule: case.list.rule,
    }
}

// The first report of one threshold.
fn report_first(case: Case, grid: &[f64]) -> Result<FirstReport, Refusal> {
    first_report(grid, level(case), case.dx, case.dy)
}

// The first report of a band.
fn report_band_first(case: Case, grid: &[f64], thresholds: &[f64]) -> Result<FirstReport, Refusal> {
    let list = case.list;
    band_first_report(grid, thresholds, list.rule, list.k, case.dx, case.dy)
}

// The second report of one threshold.
fn report_second(
    case: Case,
    grid: &[f64],
    lines: &mut [u32],
    links: &mut [u32],
) -> Result<SecondReport, Refusal> {
    second_report(grid, level(case), case.dx, case.dy, lines, links)
}

// The second report of a band.
fn report_band_second(
    case: Case,
    grid: &[f64],
    thresholds: &[f64],
    lines: &mut [u32],
    links: &mut [u32],
) -> Result<SecondReport, Refusal> {
    let list = case.list;
    band_second_report(
        grid, thresholds, list.rule, list.k, case.dx, case.dy, lines, links,
    )
}

fn build_rings(
    case: Case,
    grid: &[f64],
    lines: &mut [u32],
    links: &mut [u32],
    points: &mut [u16],
    directory: &mut [u32],
) -> Result<u32, Refusal> {
    let level = level(case);
    contour_rings(
        grid, level, case.dx, case.dy, lines, links, points, directory,
    )
}

fn build_contour(
    case: Case,
    grid: &[f64],
    lines: &mut [u32],
    links: &mut [u32],
    points: &mut [u16],
    directory: &mut [u32],
) -> Result<u32, Refusal> {
    let level = level(case);
    contours(
        grid, level, case.dx, case.dy, lines, links, points, directory,
    )
}

fn build_band(
    case: Case,
    grid: &[f64],
    thresholds: &[f64],
    lines: &mut [u32],
    links: &mut [u32],
    points: &mut [u16],
    directory: &mut [u32],
) -> Result<u32, Refusal> {
    let list = case.list;
    isobands(
        grid, thresholds, list.rule, list.k, case.dx, case.dy, lines, links, points, directory,
    )
}

fn build_lines(
    case: Case,
    grid: &[f64],
    lines: &mut [u32],
    links: &mut [u32],
    points: &mut [f64],
    directory: &mut [u32],
) -> Result<u32, Refusal> {
    let drawing = case.drawing;
    contour_lines(
        grid,
        level(case),
        case.dx,
        case.dy,
        drawing.smooth,
        drawing.placement,
        lines,
        links,
        points,
        directory,
    )
}

// The first report of a band, or of one threshold.
fn run_first(case: Case, grid: &[f64], thresholds: &[f64]) -> Result<FirstReport, Refusal> {
    match case.build {
        Build::Band => report_band_first(case, grid, thresholds),
        _ => report_first(case, grid),
    }
}

// The second report of a band, or of one threshold.
fn run_second(
    case: Case,
    grid: &[f64],
    thresholds: &[f64],
    lines: &mut [u32],
    links: &mut [u32],
) -> Result<SecondReport, Refusal> {
    match case.build {
        Build::Band => report_band_second(case, grid, thresholds, lines, links),
        _ => report_second(case, grid, lines, links),
    }
}

// The build. Only that of lines writes floats, and it writes no other points.
fn run_build(
    case: Case,
    grid: &[f64],
    thresholds: &[f64],
    lines: &mut [u32],
    links: &mut [u32],
    points: &mut [u16],
    floats: &mut [f64],
    directory: &mut [u32],
) -> Result<u32, Refusal> {
    match case.build {
        Build::Rings => build_rings(case, grid, lines, links, points, directory),
        Build::Contour => build_contour(case, grid, lines, links, points, directory),
        Build::Band => build_band(case, grid, thresholds, lines, links, points, directory),
        Build::Lines => build_lines(case, grid, lines, links, floats, directory),
    }
}

// This many words, or none.
pub fn words_if(is_written: bool, words: usize) -> usize {
    if is_written { words } else { 0 }
}

// Whether a build's points are floats.
pub fn has_floats(build: Build) -> bool {
    matches!(build, Build::Lines)
}

// Whether a call writes its work tables: it does not where it is refused for the grid, the list or a work table.
fn is_spent(refusal: Option<Refusal>) -> bool {
    match refusal {
        None => true,
        Some(reason) => 7 <= error::number(reason),
    }
}

// Whether the work tables that were lent are as a call that is refused so leaves them where it needs this room: untouched after refusals 1 to 6, and else zero in
// these words.
pub fn work_holds(
    need: Room,
    room: Room,
    refusal: Option<Refusal>,
    lines: &[u32; WORDS],
    links: &[u32; WORDS],
) -> bool {
    let none = [0u32; 0];
    let is_spent = is_spent(refusal);
    words_hold(lines, room.open, words_if(is_spent, need.open), &none, 0)
        & words_hold(
            links,
            room.linked,
            words_if(is_spent, need.linked),
            &none,
            0,
        )
}

// Whether points and directory are as a build leaves them that passes, or is refused, where it needs this room.
pub fn outputs_hold(
    need: Room,
    room: Room,
    passes: bool,
    floating: bool,
    records: &[u32],
    listed: &[u32],
    points: &[u16; WORDS],
    floats: &[f64; WORDS],
    directory: &[u32; WORDS],
) -> bool {
    let worded = words_if(passes, need.worded);
    let plain = words_if(!floating, room.worded);
    let placed = words_if(floating, room.worded);
    words_hold(
        directory,
        room.recorded,
        words_if(passes, need.recorded),
        records,
        0,
    ) & points_hold(points, plain, worded, listed)
        & floats_hold(floats, placed, worded, listed, PLACED)
}

// Whether the second report passes, or is refused so, in work tables that are lent this room, and leaves them as it should.
fn second_holds(
    case: Case,
    room: Room,
    refusal: Option<Refusal>,
    grid: &[f64],
    thresholds: &[f64],
) -> bool {
    let mut lines = [SOIL; WORDS];
    let mut links = [SOIL; WORDS];
    let report = run_second(
        case,
        grid,
        thresholds,
        front_mut(&mut lines, room.open),
        front_mut(&mut links, room.linked),
    );
    second_agrees(report, case.counts, refusal)
        & work_holds(case.room, room, refusal, &lines, &links)
}

// Whether the build passes, or is refused so, in tables that are lent this room, and leaves them as it should.
fn build_holds(
    case: Case,
    room: Room,
    refusal: Option<Refusal>,
    grid: &[f64],
    thresholds: &[f64],
    records: &[u32],
    listed: &[u32],
) -> bool {
    let floating = has_floats(case.build);
    let mut lines = [SOIL; WORDS];
    let mut links = [SOIL; WORDS];
    let mut points = [SOILED; WORDS];
    let mut floats = [FLOAT_SOIL; WORDS];
    let mut directory = [SOIL; WORDS];
    let built = run_build(
        case,
        grid,
        thresholds,
        front_mut(&mut lines, room.open),
        front_mut(&mut links, room.linked),
        front_mut(&mut points, words_if(!floating, room.worded)),
        front_mut(&mut floats, words_if(floating, room.worded)),
        front_mut(&mut directory, room.recorded),
    );
    built_agrees(built, case.counts.rings, refusal)
        & work_holds(case.room, room, refusal, &lines, &links)
        & outputs_hold(
            case.room,
            room,
            refusal.is_none(),
            floating,
            records,
            listed,
            &points,
            &floats,
            &directory,
        )
}

// Whether all calls pass, or are refused so, in the room that is lent, and leave the tables as they should.
pub fn holds(
    case: Case,
    lending: Lending,
    refusal: Option<Refusal>,
    records: &[u32],
    listed: &[u32],
    values: &[f64; VALUES],
) -> bool {
    let room = lent_room(case.room, lending);
    let pair = case.list;
    let list = [3.0, pair.lower, pair.upper];
    let thresholds = floats_part(&list, pair.from, pair.to);
    let grid = front(values, case.samples);
    first_agrees(
        run_first(case, grid, thresholds),
        case.counts,
        grid_refusal(refusal),
    ) & second_holds(case, room, work_refusal(refusal), grid, thresholds)
        & build_holds(case, room, refusal, grid, thresholds, records, listed)
}

// Whether all calls answer as expected with that table a word short.
fn short_holds(
    case: Case,
    short: Refusal,
    records: &[u32],
    listed: &[u32],
    values: &[f64; VALUES],
) -> bool {
    let refusal = short_refusal(case.room, short);
    holds(
        case,
        Lending::Short(short),
        refusal,
        records,
        listed,
        values,
    )
}

// Whether all calls answer as expected in exact room, with each table one word short, and in generous room.
pub fn case_holds(case: Case, records: &[u32], listed: &[u32], values: &[f64; VALUES]) -> bool {
    holds(case, Lending::Exact, None, records, listed, values)
        & short_holds(case, Refusal::OpenShort, records, listed, values)
        & short_holds(case, Refusal::LinksShort, records, listed, values)
        & short_holds(case, Refusal::PointsShort, records, listed, values)
        & short_holds(case, Refusal::DirectoryShort, records, listed, values)
        & holds(case, Lending::Generous, None, records, listed, values)
}
