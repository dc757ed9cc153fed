// Reads a terrain and its threshold from standard input and writes the regions that reach the threshold, as GeoJSON: one MultiPolygon. A text that is faulty is
// refused with number 12, and nothing else is: the tables have room for every terrain that is read.
#![tactic(auto)]

ghost use Rattle.std.specs.Prelude.{◌≤◌, length};
ghost use Rattle.scope.specs.Terrain.{above_at, at_least, terrain};
ghost use Rattle.scope.specs.GeoJson.{geo_json_text};
ghost use Rattle.scope.specs.Program.{contour_text};
ghost use Rattle.contour_geojson.specs.Drawing.{text_room, Small, Roomy, Writable, Stands, InputDrawn};

use contourbuilder::contours;
use error::Refusal;
use geojson::write_geojson;
use reading::{Terrain, VALUES, read_input};
use scope::{Level, Rule};
use std::io;
use std::io::Read;

// A byte more than the longest text that is read (`accepted-texts-are-short`).
const INPUT: usize = 6157;

// The words of the tables: at most 17 lines are open at a time (`peak-within`), 2,112 segments are drawn (`segments-within`) and 528 rings (`rings-within`).
const LINES: usize = 102;

const LINKS: usize = 4224;

const POINTS: usize = 5280;

const DIRECTORY: usize = 3168;

// The bytes of the text: 18 a point, 4 a ring and 40 are fewer (`text-within`).
const TEXT: usize = 65536;

// Writes the text of a ring set that the writer takes, where there is room, and answers its length.
fn write_rings(points: &[u16], directory: &[u32], rings: u32, text: &mut [u8]) -> u64
    requires { Writable points.now directory.now rings text.old }
    ensures { Stands (geo_json_text points.now directory.now rings) text.old result text.new }
{
    match write_geojson(points, directory, rings, text) {
        Err(_) => 0,
        Ok(length) => length,
    }
}

// Draws the regions of a terrain over tables that have the room, writes their text and answers its length.
fn write_over(
    values: &[f64],
    grid: Terrain,
    lines: &mut [u32],
    links: &mut [u32],
    points: &mut [u16],
    directory: &mut [u32],
    text: &mut [u8],
) -> u64
    requires { Small values.now grid.dx grid.dy × Roomy lines.old links.old points.old directory.old text.old }
    ensures { Stands (contour_text (terrain (above_at (at_least grid.threshold)) values.now grid.dx grid.dy) grid.dx grid.dy) text.old result text.new }
{
    let level = Level {
        threshold: grid.threshold,
        rule: Rule::AtLeast,
    };
    match contours(
        values, level, grid.dx, grid.dy, lines, links, points, directory,
    ) {
        Err(_) => 0,
        Ok(rings) => write_rings(points, directory, rings, text),
    }
}

// Draws the regions of a terrain, writes their text and answers its length.
fn write_contour(values: &[f64], grid: Terrain, text: &mut [u8]) -> u64
    requires { Small values.now grid.dx grid.dy × (text_room ≤ length text.old) }
    ensures { Stands (contour_text (terrain (above_at (at_least grid.threshold)) values.now grid.dx grid.dy) grid.dx grid.dy) text.old result text.new }
{
    let mut lines = [0u32; LINES];
    let mut links = [0u32; LINKS];
    let mut points = [0u16; POINTS];
    let mut directory = [0u32; DIRECTORY];
    write_over(
        values,
        grid,
        &mut lines,
        &mut links,
        &mut points,
        &mut directory,
        text,
    )
}

// Draws the terrain of an input text and answers the length of its contour's text, or nothing where the input is not the text of a terrain.
fn draw_input(input: &[u8], text: &mut [u8]) -> Option<u64>
    requires { text_room ≤ length text.old }
    ensures { InputDrawn input.now text.old result text.new }
{
    let mut values = [0.0f64; VALUES];
    let Some(grid) = read_input(input, &mut values) else {
        return None;
    };
    let n = grid.dx * grid.dy;
    Some(write_contour(&values[..n], grid, text))
}

// The first n bytes of a text, or all where it has fewer.
fn first(text: &[u8], n: usize) -> &[u8] {
    text.get(..n).unwrap_or(text)
}

// Writes a text of this many bytes as a line, or number 12.
fn print(rt: &impl Print, answer: Option<u64>, text: &[u8]) -> io::Result<()> {
    match answer {
        Some(length) => {
            rt.write_all(first(text, length as usize))?;
            println!(rt; "")
        }
        None => {
            let number = error::number(Refusal::BadText);
            println!(rt; "refused {number}")
        }
    }
}

// Reads until the bytes are full or the input ends, and says how many it has read.
// Kept: no heap, and of the library's methods `read_to_end` fills a Vec, and `read_exact` fails where the input is shorter than the bytes.
fn read_full(input: &mut impl Read, bytes: &mut [u8]) -> io::Result<usize> {
    let mut done: usize = 0;
    while done < bytes.len() {
        let n = input.read(&mut bytes[done..])?;
        if n == 0 {
            break;
        }
        done += n;
    }
    Ok(done)
}

// Reads standard input, as far as a text may reach, and draws it.
fn main(rt: HostRuntime) -> io::Result<()> {
    let mut input = [0u8; INPUT];
    let mut text = [0u8; TEXT];
    let length = read_full(&mut rt.stdin(), &mut input)?;
    let answer = draw_input(first(&input, length), &mut text);
    print(&rt, answer, &text)
}
