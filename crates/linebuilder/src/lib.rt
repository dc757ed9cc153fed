// The lines of a grid at one level, smoothed and placed, over tables that the caller lends: every line or none. Nothing is asked of the caller.
#![tactic(auto)]

ghost use Rattle.std.specs.Prelude.{◌+◌, ◌*◌, ◌^◌, ◌<◌};
ghost use Rattle.smoothing.specs.Values.{placing_of};
ghost use Rattle.linebuilder.specs.Lines.{Plotted, LinesBuilt};

use error::Refusal;
use isoringbuilder::{Drawing, answer_for, link_words, open_words, run_pass};
use limits::RECORD_STRIDE;
use packing::clear;
use plotting::{Plot, write_lines};
use scope::Level;
use smoothing::Placement;

// The points and the directory of the lines that a pass has drawn, where both fit; both are spared where one does not.
fn plot(
    drawing: Drawing,
    plot: Plot,
    links: &[u32],
    points: &mut [f64],
    directory: &mut [u32],
) -> Result<u32, Refusal>
    ensures { Plotted drawing plot.entry.values.now plot.entry.level.threshold plot.entry.dx plot.entry.dy plot.entry.smooth (placing_of plot.entry.placement) links.now points.old directory.old result
        points.new directory.new }
{
    let segments = drawing.segments;
    let room = directory.len() / RECORD_STRIDE;
    let count = answer_for(segments, drawing.rings, points.len(), room)?;
    let head = drawing.head;
    write_lines(plot, links, head, segments, points, directory);
    Ok(count)
}

// Every ring of a grid at one level as a line, in the crate's order, vertex order and first vertex: points packed by ring number, smoothed where that is
// asked, then placed, and a directory record a ring. On success, and where points or directory are short, the needed words of both work tables are zero; any
// refusal spares the outputs.
// Kept: parameters one by one, since users name this call and its C entry hands them so.
pub fn contour_lines(
    values: &[f64],
    level: Level,
    dx: usize,
    dy: usize,
    smooth: bool,
    placement: Placement,
    lines: &mut [u32],
    links: &mut [u32],
    points: &mut [f64],
    directory: &mut [u32],
) -> Result<u32, Refusal>
    ensures { LinesBuilt values.now level dx dy smooth (placing_of placement) lines.old links.old points.old directory.old result
        lines.new links.new points.new directory.new }
{
    let drawing = run_pass(values, level, dx, dy, lines, links)?;
    let asked = Plot {
        values,
        level,
        dx: dx as u32,
        dy: dy as u32,
        smooth,
        placement,
    };
    let answer = plot(drawing, asked, links, points, directory);
    clear(lines, open_words(dx, drawing.peak));
    clear(links, link_words(drawing.segments));
    answer
}
