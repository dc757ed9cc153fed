// A case: a grid, the build that is asked for, and the counts and the room that are expected; and the rooms in which a case is run, with what a call answers
// in each: whether it is refused, and why.
use error::Refusal;
use isoringbuilder::SecondReport;
use limits::RECORD_STRIDE;
use scan::FirstReport;
use scope::Rule;
use smoothing::Placement;

// The words that a generous room has beside those that are needed.
pub const SPARE: usize = 3;

#[derive(Clone, Copy)]
pub enum Build {
    Rings,
    Contour,
    Band,
    Lines,
}

// Segments, peak of open lines, rings and points.
#[derive(Clone, Copy)]
pub struct Counts {
    pub segments: u32,
    pub peak: u32,
    pub rings: u32,
    pub points: u32,
}

// The words of each table.
#[derive(Clone, Copy)]
pub struct Room {
    pub open: usize,
    pub linked: usize,
    pub worded: usize,
    pub recorded: usize,
}

// The room that is lent: exact, or with the table a word short for which there is this refusal, or generous.
#[derive(Clone, Copy)]
pub enum Lending {
    Exact,
    Short(Refusal),
    Generous,
}

// The thresholds: the lower one is that of a build with one. Of the list 3, lower, upper a band is handed the part from one number to before another, and asked
// for pair k of that. The rule is that of all of them.
#[derive(Clone, Copy)]
pub struct List {
    pub lower: f64,
    pub upper: f64,
    pub rule: Rule,
    pub from: usize,
    pub to: usize,
    pub k: usize,
}

// How lines are drawn.
#[derive(Clone, Copy)]
pub struct Drawing {
    pub smooth: bool,
    pub placement: Placement,
}

#[derive(Clone, Copy)]
pub struct Case {
    pub build: Build,
    pub list: List,
    pub drawing: Drawing,
    pub dx: usize,
    pub dy: usize,
    pub samples: usize,
    pub counts: Counts,
    pub room: Room,
}

// The room that a grid of these counts needs.
pub fn exact_room(dx: u32, counts: Counts) -> Room {
    Room {
        open: 4 * (counts.peak as usize) + dx as usize + 2,
        linked: 2 * (counts.segments as usize),
        worded: 2 * (counts.points as usize),
        recorded: RECORD_STRIDE * (counts.rings as usize),
    }
}

pub fn one_less_if(is_short: bool, n: usize) -> usize {
    n.saturating_sub(usize::from(is_short))
}

// The room with one table a word short: the one for which there is this refusal.
fn short_room(room: Room, short: Refusal) -> Room {
    Room {
        open: one_less_if(short == Refusal::OpenShort, room.open),
        linked: one_less_if(short == Refusal::LinksShort, room.linked),
        worded: one_less_if(short == Refusal::PointsShort, room.worded),
        recorded: one_less_if(short == Refusal::DirectoryShort, room.recorded),
    }
}

// The room with some words to spare in each table.
fn generous_room(room: Room) -> Room {
    Room {
        open: room.open.wrapping_add(SPARE),
        linked: room.linked.wrapping_add(SPARE),
        worded: room.worded.wrapping_add(SPARE),
        recorded: room.recorded.wrapping_add(SPARE),
    }
}

// The words that are lent of each table, where the case needs this room.
pub fn lent_room(room: Room, lending: Lending) -> Room {
    match lending {
        Lending::Exact => room,
        Lending::Short(refusal) => short_room(room, refusal),
        Lending::Generous => generous_room(room),
    }
}

// Why a call is refused with that table a word short: it is not where the table needs no word at all.
pub fn short_refusal(room: Room, short: Refusal) -> Option<Refusal> {
    if short == Refusal::OpenShort || 0 < room.linked {
        Some(short)
    } else {
        None
    }
}

// Why a call is refused that is lent no points and no directory, where one that is lent them is refused so.
pub fn work_refusal(refusal: Option<Refusal>) -> Option<Refusal> {
    match refusal {
        Some(Refusal::PointsShort | Refusal::DirectoryShort) => None,
        _ => refusal,
    }
}

// Why a call is refused that is lent no tables, where one that is lent them is refused so.
pub fn grid_refusal(refusal: Option<Refusal>) -> Option<Refusal> {
    refusal.filter(|reason| error::number(*reason) < 5)
}

// Whether a call, whose counts are as expected or not, is refused so, or passes with these counts where it is not to be refused.
fn agrees(counted: Result<bool, Refusal>, refusal: Option<Refusal>) -> bool {
    match refusal {
        None => counted == Ok(true),
        Some(reason) => counted == Err(reason),
    }
}

// Whether a first report has these counts, or is refused so.
pub fn first_agrees(
    report: Result<FirstReport, Refusal>,
    counts: Counts,
    refusal: Option<Refusal>,
) -> bool {
    let counted = report.map(|first| first.segments == counts.segments
        && first.peak == counts.peak);
    agrees(counted, refusal)
}

// Whether a second report has these counts, or is refused so.
pub fn second_agrees(
    report: Result<SecondReport, Refusal>,
    counts: Counts,
    refusal: Option<Refusal>,
) -> bool {
    let counted = report.map(|second| {
        second.segments == counts.segments
            && second.rings == counts.rings
            && second.peak == counts.peak
            && second.points == counts.points
    });
    agrees(counted, refusal)
}

// Whether a build has this many rings, or is refused so.
pub fn built_agrees(built: Result<u32, Refusal>, rings: u32, refusal: Option<Refusal>) -> bool {
    agrees(built.map(|count| count == rings), refusal)
}
