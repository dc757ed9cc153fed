// The refusals of the library, as an enum, each with the number that document 01 gives it and a sentence that says why.
#![tactic(auto)]

ghost use Rattle.std.specs.Prelude.{◌≡◌, Some};
ghost use Rattle.error.specs.Number.{refusal_number};
ghost use Rattle.error.specs.Text.{refusal_text};

use std::error::Error;
use std::fmt;

// Why a call was refused. The lowest number that applies is returned, alone.
#[derive(Clone, Copy, Debug, PartialEq, Eq)]
pub enum Refusal {
    // a side is 0 or above the limit
    BadSide = 1,
    // the value count is not dx·dy
    BadDimension = 2,
    // a band list of fewer than two thresholds
    FewThresholds = 3,
    // no pair k, k+1 in the band list
    NoPair = 4,
    // the open table is short
    OpenShort = 5,
    // the link table is short
    LinksShort = 6,
    // the points are short
    PointsShort = 7,
    // the directory is short
    DirectoryShort = 8,
    // a ring set that the writer does not take
    BadRingSet = 9,
    // the text room is short
    TextShort = 10,
    // a ring that `area` or `contains` does not take
    BadRing = 11,
    // the program's input text is faulty
    BadText = 12,
    // a row of values whose length is not the number of columns
    BadRow = 13,
    // a row after the last, an end before it, or a second end
    BadTurn = 14,
    // a ring or a vertex whose number is not in the tables, or a vertex midway in no sample pair that has a sample in the grid
    NotThere = 15,
}

// The refusal's number in document 01.
pub fn number(refusal: Refusal) -> u32
    ensures { result ≡ refusal_number refusal }
{
    refusal as u32
}

// A refusal prints as a sentence, which is that of `contour_strerror` in include/contour.h. Number 12, which only the program draws, has none there.
impl fmt::Display for Refusal {
    ghost output = { λ refusal. Some (refusal_text refusal) };

    fn fmt<W: fmt::Write>(&self, f: &mut fmt::Formatter<W>) -> fmt::Result {
        f.write_str(match self {
            Refusal::BadSide => "a side of the terrain is 0 or above 4,096",
            Refusal::BadDimension => "the number of values is not columns times rows",
            Refusal::FewThresholds => "the list has fewer than two thresholds",
            Refusal::NoPair => "the list has no pair of thresholds k and k + 1",
            Refusal::OpenShort => "the open table is short",
            Refusal::LinksShort => "the link table is short",
            Refusal::PointsShort => "the points are short",
            Refusal::DirectoryShort => "the directory is short",
            Refusal::BadRingSet => "the ring set is faulty",
            Refusal::TextShort => "the room for the text is short",
            Refusal::BadRing =>
                "a ring is empty or odd, has over 67,108,864 points or a coordinate above 8,192",
            Refusal::BadText => "the input text is faulty",
            Refusal::BadRow => "the row has not a value for each column",
            Refusal::BadTurn => "all rows are there already, or not yet, or the end was taken",
            Refusal::NotThere =>
                "there is no ring or vertex of this number, or the vertex stands between no samples",
        })
    }
}

impl Error for Refusal {}
