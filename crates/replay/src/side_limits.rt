// The longest sides that pass, the nearest that do not, numbers of values that do not fit, and lists without the pair that is asked for.
use crate::calls::{PLACED, VALUES, case_holds, holds};
use crate::cases::{Build, Case, Counts, Drawing, Lending, List, Room};
use crate::grids::sized_case;
use error::Refusal;
use limits::{LINE, NO_OWNER, RECORD_STRIDE};
use scope::Rule;
use smoothing::Placement;

// Smoothed lines, placed so that every coordinate is the same.
const DRAWING: Drawing = Drawing {
    smooth: true,
    placement: Placement {
        x_origin: PLACED,
        y_origin: PLACED,
        x_step: 0.0,
        y_step: 0.0,
    },
};

const NOTHING: Counts = Counts {
    segments: 0,
    peak: 0,
    rings: 0,
    points: 0,
};

const NO_ROOM: Room = Room {
    open: 0,
    linked: 0,
    worded: 0,
    recorded: 0,
};

// The counts of the longest grid of one row or one column, all above: one ring.
const LONGEST: Counts = Counts {
    segments: 8194,
    peak: 1,
    rings: 1,
    points: 8195,
};

// A list of this many thresholds, of which this pair is asked for.
fn list_of(length: usize, k: usize) -> List {
    List {
        lower: 1.0,
        upper: 2.0,
        rule: Rule::AtLeast,
        from: 1,
        to: length % 4 + 1,
        k,
    }
}

// The second pair of a list of three.
fn second_pair() -> List {
    List {
        from: 0,
        ..list_of(2, 1)
    }
}

// The record of the only ring of the longest grid. Its area is eight times what it encloses, which is half a sample less than 4,096.
fn longest_record(build: Build) -> [u32; RECORD_STRIDE] {
    match build {
        Build::Contour | Build::Band => [0, 8195, 0, 0, 32764, 0],
        _ => [0, 8195, LINE, NO_OWNER, 32764, 0],
    }
}

// Whether a grid of one row or one column, of the longest side and all above, passes.
pub fn longest_passes(build: Build, dx: u32, dy: u32) -> bool {
    let values = [1.0f64; VALUES];
    let none = [0u32; 0];
    let records = longest_record(build);
    let case = sized_case(build, dx, dy, LONGEST, second_pair(), DRAWING);
    case_holds(case, &records, &none, &values)
}

// Whether all calls refuse these sides and this many values so, in tables of no word and of a few.
fn refused(
    build: Build,
    list: List,
    refusal: Refusal,
    samples: usize,
    dx: usize,
    dy: usize,
) -> bool {
    let values = [1.0f64; VALUES];
    let none = [0u32; 0];
    let case = Case {
        build,
        list,
        drawing: DRAWING,
        dx,
        dy,
        samples,
        counts: NOTHING,
        room: NO_ROOM,
    };
    holds(case, Lending::Exact, Some(refusal), &none, &none, &values)
        & holds(
            case,
            Lending::Generous,
            Some(refusal),
            &none,
            &none,
            &values,
        )
}

// Whether these sides and this many values are refused so, also with a list that has no pair.
pub fn grid_refused(build: Build, refusal: Refusal, samples: usize, dx: usize, dy: usize) -> bool {
    refused(build, list_of(2, 0), refusal, samples, dx, dy)
        & refused(build, list_of(0, 0), refusal, samples, dx, dy)
}

// Whether a list of this many thresholds is refused so, by all pairs from the first that it has not.
pub fn list_refused(refusal: Refusal, length: usize, k: usize) -> bool {
    refused(Build::Band, list_of(length, k), refusal, 1, 1, 1)
        & refused(Build::Band, list_of(length, 1), refusal, 1, 1, 1)
        & refused(Build::Band, list_of(length, usize::MAX), refusal, 1, 1, 1)
}
