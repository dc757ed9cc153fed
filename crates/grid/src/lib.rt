// Whether a grid fits: both sides within the limit, and a value for each sample.
#![tactic(auto)]

ghost use Rattle.std.specs.Prelude.{◌≡◌, length};
ghost use Rattle.grid.specs.Grid.{grid_fit, Sized};

use error::Refusal;
use limits::SIDE_LIMIT;

// The values of a grid that fits, row after row, and its sides.
#[derive(Clone, Copy)]
pub struct Grid<'a> {
    pub values: &'a [f64],
    pub dx: usize,
    pub dy: usize,
    pub ghost sized: { Sized (length values.now) dx dy },
}

// Whether a grid of these sides and this many values can be scanned: both sides are within the limit, and there is a value for each sample. Else the lowest refusal
// that applies. The sides are tested before they are multiplied.
pub fn grid_fit(count: usize, dx: usize, dy: usize) -> Result<(), Refusal>
    ensures { result ≡ grid_fit count dx dy }
{
    if dx == 0 {
        return Err(Refusal::BadSide);
    }
    if SIDE_LIMIT < dx {
        return Err(Refusal::BadSide);
    }
    if dy == 0 {
        return Err(Refusal::BadSide);
    }
    if SIDE_LIMIT < dy {
        return Err(Refusal::BadSide);
    }
    if count != dx * dy {
        return Err(Refusal::BadDimension);
    }
    Ok(())
}
