// Classes of a band's rings and owners of holes and interiors, over points already written, records whose rings are known, and the table that `filing` fills.
// Both searches go through the rings by number: rings whose numbers are near lie near each other, and the ladder passes over those that lie apart.
#![tactic(auto)]

ghost use Rattle.std.specs.Prelude.{◌≡◌, ◌-◌, ◌≤◌, ◌<◌, List, ℕ};
ghost use Rattle.std.specs.Iterator.{at_most};
ghost use Rattle.std.proofs.Common.{rules};
ghost use Rattle.scope.specs.Contour.{takes};
ghost use Rattle.extents.specs.Extents.{reach};
ghost use Rattle.extents.specs.Ladders.{item_extent, Raised};
ghost use Rattle.extents.specs.Records.{record_first, record_count, record_ring, rank_of, Filed};
ghost use Rattle.owners.specs.Owned.{class_in, Classed, owner_in, Owned};
ghost use Rattle.owners.specs.Searched.{takes_other, evenly_taken, bettered, first_taker, RankIs, NextFound, NearRing, best_word};
ghost use Rattle.owners.specs.Once.{Filed-prop};
ghost use Rattle.owners.specs.Stays.{class-stays, owner-stays};
ghost use Rattle.owners.specs.Stored.{Beside, Stored};

use extents::{Extent, Ladder, Span};
use filing::Filing;
use limits::{HOLE, NO_OWNER, POLYGON, SHORT_STRIDE};

// What a search goes by: the points, the records of the rings, and the table in which these are filed.
#[derive(Clone, Copy)]
struct Search<'a> {
    points: &'a [u16],
    directory: &'a [u32],
    table: &'a [u32],
    n: usize,
    filing: Filing,
    ghost filed: { Filed points.now directory.now table.now n filing.rings filing.chunks } by { Filed-prop points.now directory.now table.now n filing.rings filing.chunks },
}

// The numbers of the rings that are not apart from an extent, in their order.
#[derive(Drop)]
struct Near<'a> {
    table: &'a [u32],
    rings: Ladder,
    query: Extent,
    next: usize,
    ghost raised: { Raised table.now rings },
    ghost within: { next ≤ rings.item_count },
}

impl Iterator for Near<'_> {
    type Item = usize;

    ghost next_gives = { λ s r t. (t.table.now ≡ s.table.now) × (t.rings ≡ s.rings) × (t.query ≡ s.query) × NextFound s.table.now s.rings s.query s.next r t.next };

    ghost remaining = { λ s. at_most (s.rings.item_count - s.next) };

    fn next(&mut self) -> Option<usize> {
        let found = extents::next_near(self.table, self.rings, self.next, self.query);
        if found == self.rings.item_count {
            return None;
        }
        self.next = found + 1;
        Some(found)
    }
}

impl<'a> Search<'a> {
    // The search by a table that goes with the records.
    fn new(
        points: &'a [u16],
        directory: &'a [u32],
        table: &'a [u32],
        n: usize,
        filing: Filing,
    ) -> Self
        requires { Filed points.now directory.now table.now n filing.rings filing.chunks }
        ensures points { result.points.now ≡ points.now }
        ensures directory { result.directory.now ≡ directory.now }
        ensures table { result.table.now ≡ table.now }
        ensures n { result.n ≡ n }
    {
        Search {
            points,
            directory,
            table,
            n,
            filing,
        }
    }

    // The record of the ring of a number.
    fn rank_at(&self, number: usize) -> u32
        requires { number < self.now.n }
        ensures { RankIs self.now.table.now self.now.n number result }
    {
        self.table[2 * self.n + number]
    }

    // Where a ring has to reach into to take the ring of a number.
    #[tactic(auto, unfolding(extents::specs::Extents::reach, extents::specs::Extents::everything, extents::specs::Ladders::item_extent))]
    fn reach_at(&self, number: usize) -> Extent
        requires { number < self.now.n }
        ensures { result ≡ reach (item_extent self.now.table.now self.now.filing.rings number) }
    {
        let extent = extents::extent_at(self.table, self.filing.rings.items + 2 * number);
        if extent.top < extent.bottom {
            extent
        } else {
            Extent {
                left: 0,
                right: 65535,
                top: 0,
                bottom: 65535,
            }
        }
    }

    // The numbers of the rings that reach as far as a ring has to that takes the ring of a number.
    fn near(&self, number: usize) -> Near<'_>
        requires { number < self.now.n }
        ensures { NearRing self.now.table.now self.now.filing.rings number result.table.now result.rings result.query result.next }
    {
        Near {
            table: self.table,
            rings: self.filing.rings,
            query: self.reach_at(number),
            next: 0,
        }
    }

    // Where the points of the ring of record `r` stand.
    #[tactic(auto, unfolding(extents::specs::Records::record_first, extents::specs::Records::record_count))]
    fn span_at(&self, r: usize) -> Span
        requires { r < self.now.n }
        ensures { (result.first ≡ record_first self.now.directory.now r) × (result.count ≡ record_count self.now.directory.now r) }
    {
        Span {
            first: self.directory[SHORT_STRIDE * r] as usize,
            count: self.directory[SHORT_STRIDE * r + 1] as usize,
        }
    }

    // Whether the ring of record `r` takes the ring of record `at`.
    #[tactic(auto, unfolding(extents::specs::Records::record_ring))]
    fn record_takes(&self, r: usize, at: usize) -> bool
        requires { (r < self.now.n) × (at < self.now.n) }
        ensures { result ≡ takes (record_ring self.now.points.now self.now.directory.now r) (record_ring self.now.points.now self.now.directory.now at) }
    {
        let outer = self.span_at(r);
        let tested = self.span_at(at);
        taking::takes(self.points, outer, tested, self.table, self.filing.chunks)
    }

    // Whether the ring of a number is another than that of record `at`, and takes it.
    #[tactic(auto, unfolding(crate::specs::Searched::takes_other))]
    fn other_takes(&self, number: usize, at: usize) -> bool
        requires { (number < self.now.n) × (at < self.now.n) }
        ensures { result ≡ takes_other self.now.points.now self.now.directory.now at (rank_of self.now.table.now self.now.n number) }
    {
        let r = self.rank_at(number) as usize;
        at != r && self.record_takes(r, at)
    }

    // Whether an even number of other rings take the ring of a number.
    fn even_takers(&self, number: usize) -> bool
        requires { number < self.now.n }
        ensures { result ≡ evenly_taken self.now.points.now self.now.directory.now self.now.n (rank_of self.now.table.now self.now.n number) }
    {
        let at = self.rank_at(number) as usize;
        let mut even = true;
        for i in self.near(number) {
            even = even != self.other_takes(i, at);
        }
        even
    }

    // The class of the ring of a number: 0 for a polygon, whose ring an even number of other rings take, and 1 for an interior.
    #[tactic(auto, unfolding(crate::specs::Owned::class_in, crate::specs::Searched::evenly_taken))]
    fn class_of(&self, number: usize) -> u32
        requires { number < self.now.n }
        ensures { result ≡ class_in self.now.points.now self.now.directory.now self.now.n (rank_of self.now.table.now self.now.n number) }
    {
        if self.even_takers(number) {
            POLYGON
        } else {
            HOLE
        }
    }

    // The ring of a number where it comes before the best so far, is a polygon and takes the ring of record `at`, and otherwise the best so far.
    #[tactic(auto, unfolding(crate::specs::Searched::bettered, crate::specs::Searched::may_own, extents::specs::Records::record_class, scope::specs::Limits::no_owner))]
    fn better(&self, number: usize, at: usize, best: Option<u32>) -> Option<u32>
        requires { (number < self.now.n) × (at < self.now.n) }
        ensures { (best_word result ≡ bettered self.now.points.now self.now.directory.now at (best_word best) (rank_of self.now.table.now self.now.n number)) × RankIs self.now.table.now self.now.n number (rank_of self.now.table.now self.now.n number) }
    {
        let rank = self.rank_at(number);
        if let Some(first) = best
            && first <= rank
        {
            return best;
        }
        let r = rank as usize;
        if self.directory[SHORT_STRIDE * r + 2] != POLYGON {
            return best;
        }
        if self.record_takes(r, at) {
            Some(rank)
        } else {
            best
        }
    }

    // The first polygon that takes the ring of a number, or none.
    fn first_taker(&self, number: usize) -> u32
        requires { number < self.now.n }
        ensures { result ≡ first_taker self.now.points.now self.now.directory.now self.now.n (rank_of self.now.table.now self.now.n number) }
    {
        let at = self.rank_at(number) as usize;
        let mut best = None;
        for i in self.near(number) {
            best = self.better(i, at, best);
        }
        best.unwrap_or(NO_OWNER)
    }

    // The owner of the ring of a number: a polygon owns itself, and any other has the first polygon that takes its ring, or none.
    #[tactic(auto, unfolding(crate::specs::Owned::owner_in, crate::specs::Searched::first_taker, extents::specs::Records::record_class))]
    fn owner_of(&self, number: usize) -> u32
        requires { number < self.now.n }
        ensures { result ≡ owner_in self.now.points.now self.now.directory.now self.now.n (rank_of self.now.table.now self.now.n number) }
    {
        let rank = self.rank_at(number);
        if self.directory[SHORT_STRIDE * (rank as usize) + 2] == POLYGON {
            rank
        } else {
            self.first_taker(number)
        }
    }
}

// What a search finds of the ring of a number, and where in its record that is kept: behind the two words of the ring, and it stays while it is stored.
trait Finding {
    const OFFSET: usize;

    ghost OFFSET: { ℕ };

    ghost word: { List ℕ → List ℕ → ℕ → ℕ → ℕ };

    fn find(search: &Search, number: usize) -> u32
        requires { number < search.now.n }
        ensures { result ≡ word search.now.points.now search.now.directory.now search.now.n (rank_of search.now.table.now search.now.n number) };

    ghost behind: { (2 ≤ OFFSET) × (OFFSET < 4) };

    ghost stays: { (points start directory : List ℕ) → Beside OFFSET start directory → (n r : ℕ) → word points directory n r ≡ word points start n r };
}

struct Class;

impl Finding for Class {
    const OFFSET: usize = 2;

    ghost OFFSET = { 2 };

    ghost word = { class_in };

    ghost behind = { Prim.search rules };

    ghost stays = { class-stays };

    fn find(search: &Search, number: usize) -> u32 {
        search.class_of(number)
    }
}

struct Owner;

impl Finding for Owner {
    const OFFSET: usize = 3;

    ghost OFFSET = { 3 };

    ghost word = { owner_in };

    ghost behind = { Prim.search rules };

    ghost stays = { owner-stays };

    fn find(search: &Search, number: usize) -> u32 {
        search.owner_of(number)
    }
}

// Stores what is found of each of the first `n` records.
fn store_all<F: Finding>(
    points: &[u16],
    directory: &mut [u32],
    table: &[u32],
    n: usize,
    filing: Filing,
)
    requires { Filed points.now directory.old table.now n filing.rings filing.chunks }
    ensures { Stored F.OFFSET (F.word points.now directory.old n) n directory.old directory.new }
{
    for i in 0..n {
        let search = Search::new(points, directory, table, n, filing);
        let at = search.rank_at(i) as usize;
        let word = F::find(&search, i);
        directory[SHORT_STRIDE * at + F::OFFSET] = word;
    }
}

// The class of each of the first `n` records: 0 for a polygon, whose ring an even number of other rings take, and 1 for an interior.
pub fn class_all(points: &[u16], directory: &mut [u32], table: &[u32], n: usize, filing: Filing)
    requires { Filed points.now directory.old table.now n filing.rings filing.chunks }
    ensures { Classed points.now directory.old directory.new n }
{
    store_all::<Class>(points, directory, table, n, filing);
}

// The owner of each of the first `n` records, whose classes are known: a polygon owns itself, and any other has the first polygon that takes its ring, or none.
pub fn own_all(points: &[u16], directory: &mut [u32], table: &[u32], n: usize, filing: Filing)
    requires { Filed points.now directory.old table.now n filing.rings filing.chunks }
    ensures { Owned points.now directory.old directory.new n }
{
    store_all::<Owner>(points, directory, table, n, filing);
}
