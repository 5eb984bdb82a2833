// Places as the bits of bytes, and back. The first place of a byte is its highest bit.
ghost use Rattle.std.specs.Prelude.{◌≡◌, ◌++◌, ℕ, ◌+◌, ◌*◌, ◌≤◌, ◌<◌, length, get_or, take, drop, replicate};
ghost use Rattle.shape.specs.Form.{Feasible};
ghost use Rattle.shape.specs.Check.{Sized, record_length};
ghost use Rattle.record.specs.Bits.{value, bits_of};
ghost use Rattle.record.specs.Record.{record_of};

// The record of a pattern: a byte for the size and the mark, and one for each eight places, with zeros behind the last one.
#[tactic(auto, using(crate::proofs::Packed::packs))]
pub(crate) fn pack(size: usize, places: &[u8], bytes: &mut [u8])
    requires { Sized size × Feasible size places.now × (length bytes.old ≡ record_length size) }
    ensures { bytes.new ≡ record_of size places.now }
{
    bytes[0] = (4 * size) as u8;
    let whole = places.len() / 8;
    for i in 0..whole {
        bytes[i + 1] = byte(&places[8 * i..8 * i + 8]);
    }
    if whole + 1 < bytes.len() {
        let rest = &places[8 * whole..];
        bytes[whole + 1] = byte(rest) << (8 - rest.len());
    }
}

// The number that up to eight places write.
#[tactic(auto, using(crate::proofs::Packed::reads))]
fn byte(places: &[u8]) -> u8
    requires places_len { length places.now ≤ 8 }
    requires by_index { (i : ℕ) → i < length places.now → get_or places.now i 0 ≤ 1 }
    ensures { result ≡ value places.now }
{
    let mut byte = 0;
    for place in places {
        byte = 2 * byte + place;
    }
    byte
}

// The places of a record, as many as there is room for: eight from each byte after the first.
// By index: after a loop over `iter_mut` the proof knows how many places there are, and not what was written to them.
pub(crate) fn unpack(bytes: &[u8], places: &mut [u8])
    requires { 8 + length places.old ≤ 8 * length bytes.now }
    ensures { places.new ≡ take (length places.old) (drop 8 (bits_of bytes.now)) }
{
    for i in 0..places.len() {
        places[i] = (bytes[1 + i / 8] >> (7 - i % 8)) % 2;
    }
}
