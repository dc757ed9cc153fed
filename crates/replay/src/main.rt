// Replays what the crate answered. Standard input, the file stdin, is what `compare/run --answers` writes: the texts of rings, of contours and bands, and of
// lines, each with how many grids it has and then a line for each grid. Every number is held to what the library answers in exact room, with each table one
// word short, and in generous room, and so are the builds and the readers by records. Grids of rings, contours and bands are run under both rules, and each
// line of the third text names its own. The grids of rings are run row by row, too, and of every contour the fate of each ring is worked out anew. Then the
// longest sides that pass, the nearest that do not, and lists without a pair are run.
// No exit status tells of a difference: what differs stands in what is written, which is held to the file stdout.
#![tactic(auto)]

mod areas;
mod calls;
mod cases;
mod fates;
mod grids;
mod line_grids;
mod readers;
mod recorded;
mod region_grids;
mod ring_grids;
mod row_calls;
mod row_grids;
mod side_limits;
mod tables;
mod text;
mod texts;
mod tried;

use cases::Build;
use error::Refusal;
use lent::word;
use line_grids::lines_hold;
use region_grids::regions_hold;
use ring_grids::rings_hold;
use side_limits::{grid_refused, list_refused, longest_passes};
use std::io;
use std::io::Read;
use tables::front;
use text::{NUMBERS, TEXT, read_line};

#[derive(Clone, Copy)]
enum Part {
    Rings,
    Regions,
    Lines,
}

// The number of grids, with which a part begins.
fn grid_count(numbers: &[u32; NUMBERS]) -> u32 {
    word(numbers, 0)
}

// Whether the grid of a line of this many numbers is replayed without a difference.
fn grid_holds(part: Part, numbers: &[u32; NUMBERS], count: usize) -> bool {
    let line = front(numbers, count);
    match part {
        Part::Rings => rings_hold(line),
        Part::Regions => regions_hold(line),
        Part::Lines => lines_hold(line),
    }
}

// Writes how many grids were replayed and how many differ.
fn print_replay(rt: &impl Print, grids: u32, differ: u32) -> io::Result<()> {
    println!(rt; "{grids} grids replayed, {differ} differ")
}

// Replays all grids of the part that begins at this byte of the text, writes what came of it, and says where the part ends.
fn replay(rt: &impl Print, part: Part, text: &[u8; TEXT], from: usize) -> io::Result<usize> {
    let mut numbers = [0u32; NUMBERS];
    let head = read_line(text, from, &mut numbers);
    let grids = grid_count(&numbers);
    let mut differ: u32 = 0;
    let mut at = head.next;
    for _ in 0..grids {
        let line = read_line(text, at, &mut numbers);
        let is_same = grid_holds(part, &numbers, line.count);
        differ = differ.wrapping_add(u32::from(!is_same));
        at = line.next;
    }
    print_replay(rt, grids, differ)?;
    Ok(at)
}

// Writes what came of a test.
fn print_verdict(rt: &impl Print, holds: bool) -> io::Result<()> {
    if holds {
        println!(rt; ": as expected")
    } else {
        println!(rt; ": DIFFERS")
    }
}

// Writes the sides and the number of values of a grid.
fn print_sides(rt: &impl Print, values: u32, dx: u32, dy: u32) -> io::Result<()> {
    print!(rt; "{dx} by {dy} of {values}")
}

// Runs sides at the limit that pass, and writes what came of it.
fn run_longest(rt: &impl Print, build: Build, dx: u32, dy: u32) -> io::Result<()> {
    print_sides(rt, 4096, dx, dy)?;
    print_verdict(rt, longest_passes(build, dx, dy))
}

// Runs sides and a number of values that are refused so, and writes what came of it.
fn run_refused(
    rt: &impl Print,
    build: Build,
    refusal: Refusal,
    values: u32,
    dx: u32,
    dy: u32,
) -> io::Result<()> {
    print_sides(rt, values, dx, dy)?;
    let holds = grid_refused(build, refusal, values as usize, dx as usize, dy as usize);
    print_verdict(rt, holds)
}

// Runs the limits of a side and of the number of values.
fn run_limits(rt: &impl Print, build: Build) -> io::Result<()> {
    run_longest(rt, build, 4096, 1)?;
    run_longest(rt, build, 1, 4096)?;
    run_refused(rt, build, Refusal::BadSide, 4097, 4097, 1)?;
    run_refused(rt, build, Refusal::BadSide, 4097, 1, 4097)?;
    run_refused(rt, build, Refusal::BadSide, 0, 0, 1)?;
    run_refused(rt, build, Refusal::BadSide, 0, 1, 0)?;
    run_refused(rt, build, Refusal::BadDimension, 4095, 4096, 1)?;
    run_refused(rt, build, Refusal::BadDimension, 4097, 4096, 1)
}

// Runs a list of this many thresholds without the pair that is asked for, and writes what came of it.
fn run_list(rt: &impl Print, refusal: Refusal, length: u32, k: usize) -> io::Result<()> {
    print!(rt; "{length} thresholds")?;
    print_verdict(rt, list_refused(refusal, length as usize, k))
}

// Replays the three parts of a text of this many bytes.
fn replay_text(rt: &impl Print, text: &[u8; TEXT], length: usize) -> io::Result<()> {
    print!(rt; "rings: ")?;
    let regions = replay(rt, Part::Rings, text, 0)?;
    print!(rt; "contours and bands: ")?;
    let lines = replay(rt, Part::Regions, text, regions)?;
    print!(rt; "lines: ")?;
    let end = replay(rt, Part::Lines, text, lines)?;
    print!(rt; "the text ends with the last grid")?;
    print_verdict(rt, end == length)
}

// Reads until the bytes are full or the input ends, and says how many it has read.
// Kept: no heap, as in `contour_geojson`, which has this function too: a public one needs a contract that gives its result, and none says what a reader gives.
fn read_full(input: &mut impl Read, bytes: &mut [u8]) -> io::Result<usize> {
    let mut done: usize = 0;
    while done < bytes.len() {
        let n = input.read(&mut bytes[done..])?;
        if n == 0 {
            break;
        }
        done += n;
    }
    Ok(done)
}

// Reads standard input and replays it.
fn run_text(rt: &HostRuntime, text: &mut [u8; TEXT]) -> io::Result<()> {
    let length = read_full(&mut rt.stdin(), text)?;
    replay_text(rt, text, length)
}

fn main(rt: HostRuntime) -> io::Result<()> {
    let mut text = [0u8; TEXT];
    run_text(&rt, &mut text)?;
    println!(rt; "rings")?;
    run_limits(&rt, Build::Rings)?;
    println!(rt; "contours")?;
    run_limits(&rt, Build::Contour)?;
    println!(rt; "bands")?;
    run_limits(&rt, Build::Band)?;
    run_list(&rt, Refusal::FewThresholds, 0, 0)?;
    run_list(&rt, Refusal::FewThresholds, 1, 0)?;
    run_list(&rt, Refusal::NoPair, 2, 1)?;
    println!(rt; "lines")?;
    run_limits(&rt, Build::Lines)
}
