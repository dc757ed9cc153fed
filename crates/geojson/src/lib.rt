// The GeoJSON writer: the length of a ring set's text, and the text. Each takes any words whatever and asks nothing of the caller.
#![tactic(auto)]

ghost use Rattle.std.specs.Prelude.{◌≡◌};
ghost use Rattle.geojson.specs.Written.{length_answer, written_answer, text_after};

use error::Refusal;
use geotext::text_length;
use ringset::RingSet;
use writing::write_within;

// The number of bytes that the text of a ring set needs.
pub fn geojson_length(points: &[u16], directory: &[u32], rings: u32) -> Result<u64, Refusal>
    ensures { result ≡ length_answer points.now directory.now rings }
{
    let set = RingSet::check(points, directory, rings)?;
    Ok(text_length(set))
}

// Writes the text of a ring set: one GeoJSON MultiPolygon. Bytes past the text stay, and a refusal changes nothing.
pub fn write_geojson(
    points: &[u16],
    directory: &[u32],
    rings: u32,
    text: &mut [u8],
) -> Result<u64, Refusal>
    ensures value { result ≡ written_answer points.now directory.now rings text.old }
    ensures text_after { text.new ≡ text_after points.now directory.now rings text.old }
{
    let set = RingSet::check(points, directory, rings)?;
    let length = text_length(set);
    if (text.len() as u64) < length {
        return Err(Refusal::TextShort);
    }
    write_within(set, length as usize, text);
    Ok(length)
}
