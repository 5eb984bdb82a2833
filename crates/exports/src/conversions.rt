// One form written in the other.
ghost use Rattle.std.specs.Prelude.{◌≡◌};
ghost use Rattle.shape.specs.Form.{patterns, permutations};
ghost use Rattle.shape.specs.Calls.{conversion_reply, conversion_end};
ghost use Rattle.exports.specs.Crossing.{replied};

use crate::Reply;

#[unsafe(no_mangle)]
pub extern "C" fn spire_to_permutation(size: usize, places: &[u8], entries: &mut [u16]) -> Reply
    ensures value { result ≡ replied (conversion_reply patterns permutations size places.now entries.old) }
    ensures entries_after { entries.new ≡ conversion_end patterns permutations size places.now entries.old }
{
    Reply::from(convert::to_permutation(size, places, entries))
}

#[unsafe(no_mangle)]
pub extern "C" fn spire_to_pattern(size: usize, entries: &[u16], places: &mut [u8]) -> Reply
    ensures value { result ≡ replied (conversion_reply permutations patterns size entries.now places.old) }
    ensures places_after { places.new ≡ conversion_end permutations patterns size entries.now places.old }
{
    Reply::from(convert::to_pattern(size, entries, places))
}
