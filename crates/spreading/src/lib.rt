// The last step of a build over records that it has worked on without their areas: they are spread out to whole records, each with its ring's area.
#![tactic(auto)]

ghost use Rattle.std.specs.Prelude.{◌≡◌, ◌*◌, ◌^◌, ◌≤◌, ◌<◌, length};
ghost use Rattle.std.proofs.lemmas.List.Edits.{sets};
ghost use Rattle.scope.specs.Room.{directory_words};
ghost use Rattle.scope.specs.Tables.{written};
ghost use Rattle.spreading.specs.Spread.{spread_record, spread_from};

use lent::{put, word};
use limits::{RECORD_STRIDE, SHORT_STRIDE};
use measuring::{area_of, put_area};

// Stores record `k`, whose first four words stand among records of four, as a whole record among whole records. The words of its ring are read from the points.
#[tactic(auto, unfolding(crate::specs::Spread::spread_record, scope::specs::Area::area_words, scope::specs::Area::low_word, scope::specs::Area::high_word, scope::specs::Room::directory_words, scope::specs::Limits::record_stride))]
fn spread_record(points: &[u16], directory: &mut [u32], k: usize)
    requires { k < 2 ^ 32 }
    ensures { directory.new ≡ sets directory.old (directory_words k) (spread_record points.now directory.old k) }
{
    let from = SHORT_STRIDE * k;
    let first = word(directory, from);
    let count = word(directory, from + 1);
    let class = word(directory, from + 2);
    let owner = word(directory, from + 3);
    let area = area_of(points, first, count);
    let to = RECORD_STRIDE * k;
    put(directory, to, first);
    put(directory, to + 1, count);
    put(directory, to + 2, class);
    put(directory, to + 3, owner);
    put_area(directory, to + 4, area);
}

// Spreads the first `n` records out, from the last to the first: record k moves from word 4k to word 6k, so nothing is stored over that is still to be read.
pub fn spread(points: &[u16], directory: &mut [u32], n: usize)
    requires { (n < 2 ^ 32) × (directory_words n ≤ length directory.old) }
    ensures { directory.new ≡ written (spread_from points.now directory.old 0 n) directory.old }
{
    for k in (0..n).rev() {
        spread_record(points, directory, k);
    }
}
