// Which way a ring of a checked set is written: RFC 7946 wants exteriors counterclockwise and holes clockwise, with y upward.
#![tactic(auto)]

ghost use Rattle.std.specs.Prelude.{◌≡◌};
ghost use Rattle.scope.specs.Area.{area_from};
ghost use Rattle.scope.specs.GeoJson.{backwards};

use limits::POLYGON;
use ringset::Record;

// Whether a ring is written backwards, by the class and the area in its record: an exterior of positive area is, and a hole of negative area.
pub fn runs_back(ring: Record) -> bool
    ensures { result ≡ backwards ring.class (area_from ring.area_low ring.area_high) }
{
    let area = ring.area_bits().cast_signed();
    if ring.class == POLYGON {
        0 < area
    } else {
        area < 0
    }
}
