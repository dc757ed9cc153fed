// Document 01's numbers that code in several crates names: its limits, the words of a directory record, the classes, and the owner of a ring that has none.
// Constants alone; in contracts these are the definitions of `scope`.
#![tactic(auto)]

// The most columns and the most rows of a grid.
pub const SIDE_LIMIT: usize = 4096;

// The largest coordinate of a ring.
pub const COORDINATE_LIMIT: u16 = 8192;

// The largest number of points of a ring.
pub const POINT_LIMIT: usize = 67108864;

// The words of a directory record: first point, point count, class, owner, and the area, which takes two.
pub const RECORD_STRIDE: usize = 6;

// The words of a record without its area. A build works on such records, and spreads them out at the end.
pub const SHORT_STRIDE: usize = 4;

// Kept: numbers for the classes and for no owner, since a directory is words that the caller lends, as the C interface has them.
// The class of a polygon, in a directory record.
pub const POLYGON: u32 = 0;

// The class of a hole, and of an interior of a band, in a directory record.
pub const HOLE: u32 = 1;

// The class of a line, and of a bare ring, in a directory record.
pub const LINE: u32 = 2;

// The owner of a ring that has none, in a directory record.
pub const NO_OWNER: u32 = 4294967295;
