// Rings become regions: the classes and owners of a contour, and the order, classes and owners of a band, over points and point counts already written. The
// records are without areas.
#![tactic(auto)]

ghost use Rattle.std.specs.Prelude.{◌≡◌, ◌*◌, ◌≤◌, length};
ghost use Rattle.scope.specs.Tables.{written, short_of};
ghost use Rattle.regions.specs.Regions.{counted_rings, sorted_first, contour_by, sorted_by, Workable};

use filing::file;
use limits::SHORT_STRIDE;
use noting::{Class, Size, note_high, note_rings};
use owners::{class_all, own_all};
use sorting::sort_records;

// The records of a contour's `n` rings, by ring number. The scratch table holds anything afterwards.
// Kept: records and extents are words of tables that the caller lends, longer than what is used of them, as the C interface hands them in.
pub fn own_contour(points: &[u16], directory: &mut [u32], n: usize, scratch: &mut [u32])
    requires { Workable points.now directory.old scratch.old n }
    ensures { directory.new ≡ written (contour_by short_of (counted_rings points.now directory.old 0 n)) directory.old }
{
    note_rings::<Class>(points, directory, n);
    let filing = file(points, directory, n, scratch);
    own_all(points, directory, scratch, n, filing);
}

// Sorts the first `n` records by the third word of each. The scratch table holds anything afterwards.
#[tactic(auto, unfolding(crate::specs::Regions::sorted_first))]
fn sort_first(directory: &mut [u32], n: usize, scratch: &mut [u32])
    requires { (4 * n ≤ length directory.old) × (4 * n ≤ length scratch.old) }
    ensures { directory.new ≡ sorted_first directory.old n }
{
    sort_records(&mut directory[..SHORT_STRIDE * n], scratch);
}

// The records of a band's `n` rings, in its sorted order: sorted by the low 32 bits of the keys, and then, where equal ones keep their order, by the rest of
// them. The scratch table holds anything afterwards.
pub fn own_band(points: &[u16], directory: &mut [u32], n: usize, scratch: &mut [u32])
    requires { Workable points.now directory.old scratch.old n }
    ensures { directory.new ≡ written (sorted_by short_of (counted_rings points.now directory.old 0 n)) directory.old }
{
    note_rings::<Size>(points, directory, n);
    sort_first(directory, n, scratch);
    note_high(points, directory, n);
    sort_first(directory, n, scratch);
    let filing = file(points, directory, n, scratch);
    class_all(points, directory, scratch, n, filing);
    own_all(points, directory, scratch, n, filing);
}
