// The cells of a grid: the sample test, the cell number, the case table, the change that a cell makes, and the index of a point.
#![tactic(auto)]

ghost use Rattle.std.specs.Prelude.{◌≡◌, ◌+◌, ◌*◌, ◌^◌, ◌<◌, length};
ghost use Rattle.scope.specs.Terrain.{above_at};
ghost use Rattle.scope.specs.Cells.{number_of, drawn, opened, closed, point_index, indexed_point};
ghost use Rattle.cells.specs.Sides.{sides_of, stroke_at};
ghost use Rattle.cells.specs.Rules.{rule_of, level_of, rule_number};

use scope::{Level, Rule, Side};

// Whether a sample is above at the level of a threshold and a rule's number: its value is at least the threshold, or more than it. Where either is not a number
// it is not above.
// Kept: a number for the rule, since samples are tested together only where the compiler sees a literal (docs/DECISIONS.md has the times).
#[tactic(auto, unfolding(scope::specs::Terrain::is_above, scope::specs::Terrain::above_at, crate::specs::Rules::rule_of, crate::specs::Rules::level_of))]
pub fn above(threshold: f64, number: u32, value: f64) -> bool
    ensures { result ≡ above_at (level_of threshold number) value }
{
    if number == 0 {
        value >= threshold
    } else {
        value > threshold
    }
}

// The rule of a number, for a caller who is lent no enum: 0 is at least, and any other number is more than.
// Kept: a `From` for a rule would have to stand in `scope`, which holds definitions and no code.
#[tactic(auto, unfolding(crate::specs::Rules::rule_of))]
pub fn rule_of(number: u32) -> Rule
    ensures { result ≡ rule_of number }
{
    if number == 0 {
        Rule::AtLeast
    } else {
        Rule::MoreThan
    }
}

// The level of a threshold and a rule's number.
#[tactic(auto, unfolding(crate::specs::Rules::level_of))]
pub fn level_of(threshold: f64, number: u32) -> Level
    ensures { result ≡ level_of threshold number }
{
    let rule = rule_of(number);
    Level { threshold, rule }
}

// The number of a rule.
#[tactic(auto, unfolding(crate::specs::Rules::rule_number))]
pub fn rule_number(rule: Rule) -> u32
    ensures { result ≡ rule_number rule }
{
    rule as u32
}

// The number of a cell whose four samples are above or not: 1 for the lower left, 2 for the lower right, 4 for the upper right and
// 8 for the upper left.
#[tactic(auto, unfolding(scope::specs::Cells::number_of))]
pub fn cell_number(
    lower_left: bool,
    lower_right: bool,
    upper_right: bool,
    upper_left: bool,
) -> usize
    ensures { result ≡ number_of lower_left lower_right upper_right upper_left }
{
    usize::from(lower_left)
        + 2 * usize::from(lower_right)
        + 4 * usize::from(upper_right)
        + 8 * usize::from(upper_left)
}

// A segment of a cell, from one side to another.
#[derive(Clone, Copy)]
pub struct Stroke {
    pub from: Side,
    pub to: Side,
}

// What stands in an unused place of the case table. No cell draws it.
// Kept: as an `Option` a stroke would have to be taken out in every arm that draws one, where the row of the arm always has it.
const UNUSED: Stroke = Stroke {
    from: Side::Left,
    to: Side::Left,
};

// The twelve strokes that cells draw, from each side to each other.
const LEFT_TO_RIGHT: Stroke = Stroke {
    from: Side::Left,
    to: Side::Right,
};

const LEFT_TO_TOP: Stroke = Stroke {
    from: Side::Left,
    to: Side::Top,
};

const LEFT_TO_BOTTOM: Stroke = Stroke {
    from: Side::Left,
    to: Side::Bottom,
};

const RIGHT_TO_LEFT: Stroke = Stroke {
    from: Side::Right,
    to: Side::Left,
};

const RIGHT_TO_TOP: Stroke = Stroke {
    from: Side::Right,
    to: Side::Top,
};

const RIGHT_TO_BOTTOM: Stroke = Stroke {
    from: Side::Right,
    to: Side::Bottom,
};

const TOP_TO_LEFT: Stroke = Stroke {
    from: Side::Top,
    to: Side::Left,
};

const TOP_TO_RIGHT: Stroke = Stroke {
    from: Side::Top,
    to: Side::Right,
};

const TOP_TO_BOTTOM: Stroke = Stroke {
    from: Side::Top,
    to: Side::Bottom,
};

const BOTTOM_TO_LEFT: Stroke = Stroke {
    from: Side::Bottom,
    to: Side::Left,
};

const BOTTOM_TO_RIGHT: Stroke = Stroke {
    from: Side::Bottom,
    to: Side::Right,
};

const BOTTOM_TO_TOP: Stroke = Stroke {
    from: Side::Bottom,
    to: Side::Top,
};

// The case table: sixteen rows by cell number, each with room for two strokes, in the order of drawing.
const CASES: [[Stroke; 2]; 16] = [
    [UNUSED, UNUSED],
    [BOTTOM_TO_LEFT, UNUSED],
    [RIGHT_TO_BOTTOM, UNUSED],
    [RIGHT_TO_LEFT, UNUSED],
    [TOP_TO_RIGHT, UNUSED],
    [BOTTOM_TO_LEFT, TOP_TO_RIGHT],
    [TOP_TO_BOTTOM, UNUSED],
    [TOP_TO_LEFT, UNUSED],
    [LEFT_TO_TOP, UNUSED],
    [BOTTOM_TO_TOP, UNUSED],
    [LEFT_TO_TOP, RIGHT_TO_BOTTOM],
    [RIGHT_TO_TOP, UNUSED],
    [LEFT_TO_RIGHT, UNUSED],
    [BOTTOM_TO_RIGHT, UNUSED],
    [LEFT_TO_BOTTOM, UNUSED],
    [UNUSED, UNUSED],
];

// Stroke `k` of the cell with this number, in the order of drawing. Where the cell draws no stroke `k`, the stroke from left to left,
// which no cell draws.
pub fn stroke_at(number: usize, k: usize) -> Stroke
    ensures { result ≡ sides_of (stroke_at number k) }
{
    if number < 16 {
        if k < 2 {
            return CASES[number][k];
        }
    }
    UNUSED
}

// What a cell changes: how many open lines there are more after it, how many fewer, and how many segments it draws.
#[derive(Clone, Copy)]
pub struct Change {
    pub opened: u8,
    pub closed: u8,
    pub segments: u8,
}

// The change of the cell with this number. Past the table nothing is drawn and nothing changes.
#[tactic(auto, unfolding(scope::specs::Cells::opened, scope::specs::Cells::closed, scope::specs::Cells::met, scope::specs::Cells::on_finished, scope::specs::Cells::drawn, scope::specs::Cells::case_table))]
pub fn change_of(number: usize) -> Change
    ensures { (result.opened ≡ opened number) × (result.closed ≡ closed number) × (result.segments ≡ length (drawn number)) }
{
    match number {
        2 | 13 => Change {
            opened: 1,
            closed: 0,
            segments: 1,
        },
        7 | 8 => Change {
            opened: 0,
            closed: 1,
            segments: 1,
        },
        5 | 10 => Change {
            opened: 0,
            closed: 0,
            segments: 2,
        },
        1..=14 => Change {
            opened: 0,
            closed: 0,
            segments: 1,
        },
        _ => Change {
            opened: 0,
            closed: 0,
            segments: 0,
        },
    }
}

// The index of the point of doubled coordinates `x`, `y` in a grid of `dx` columns: x + 2(dx + 1)·y. The caller sees that it fits.
#[tactic(auto, unfolding(scope::specs::Cells::point_index))]
pub fn point_index(x: u32, y: u32, dx: u32) -> u32
    requires { point_index dx (record { x = x; y = y }) < 2 ^ 32 }
    ensures { result ≡ point_index dx (record { x = x; y = y }) }
{
    let stride = 2 * (dx as u64 + 1);
    (x as u64 + stride * (y as u64)) as u32
}

// A point of doubled coordinates.
#[derive(Clone, Copy)]
pub struct Point {
    pub x: u32,
    pub y: u32,
}

// The point at an index: the way back from `point_index`, for a point whose x is below 2(dx + 1).
#[tactic(auto, unfolding(scope::specs::Cells::indexed_point))]
pub fn indexed_point(index: u32, dx: u32) -> Point
    requires { 2 * (dx + 1) < 2 ^ 32 }
    ensures { (result.x ≡ (indexed_point dx index).x) × (result.y ≡ (indexed_point dx index).y) }
{
    let stride = 2 * (dx + 1);
    Point {
        x: index % stride,
        y: index / stride,
    }
}
