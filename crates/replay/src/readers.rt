// The readers over records, tried: one function lends the first `n` records of an array to the check, the length and the writer in turn, each with a directory of
// its own, and hands their answers back. It only tests, so all that is proved of it is that it is safe and ends.
use crate::tables::front;
use crate::tried::ROOM;
use error::Refusal;
use records::{record_set_faulty, record_text_length, write_record_text};
use ringrecord::RingRecord;

// What the three answered.
#[derive(Clone, Copy)]
pub struct Answers {
    pub faulty: bool,
    pub length: Result<u64, Refusal>,
    pub written: Result<u64, Refusal>,
}

// The three readers over the first `n` records.
pub fn read_records(
    points: &[u16],
    records: [RingRecord; ROOM],
    n: usize,
    rings: u32,
    checked: &mut [u32],
    measured: &mut [u32],
    directory: &mut [u32],
    text: &mut [u8],
) -> Answers {
    let lent = front(&records, n);
    let faulty = record_set_faulty(points, lent, rings, checked);
    let length = record_text_length(points, lent, rings, measured);
    let written = write_record_text(points, lent, rings, directory, text);
    Answers {
        faulty,
        length,
        written,
    }
}
