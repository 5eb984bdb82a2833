// Packed records: a pattern with its size in a few bytes. Each shape has one record, and each record that is accepted one shape.
#![tactic(auto)]

mod layout;
mod packing;

ghost use Rattle.std.specs.Prelude.{◌≡◌, ◌*◌, length};
ghost use Rattle.shape.specs.Reply.{outcome_reply, numbered_reply};
ghost use Rattle.record.specs.Record.{size_in};
ghost use Rattle.record.specs.Calls.{layout_check, write_reply, write_end, read_reply, read_end};

use shape::{Form, Refusal};

// The record of the pattern, put into `bytes`, which may hold anything before.
#[tactic(auto, using(crate::proofs::Answers::answers, shape::proofs::Passing::passing), unfolding(crate::specs::Calls::write_reply, crate::specs::Calls::write_end, shape::specs::Calls::conversion_check, shape::specs::Calls::check_reply))]
pub fn write(size: usize, places: &[u8], bytes: &mut [u8]) -> Result<(), Refusal>
    ensures result_value { outcome_reply result ≡ write_reply size places.now bytes.old }
    ensures bytes_after { bytes.new ≡ write_end size places.now bytes.old }
{
    shape::room(Form::Record, size, bytes.len())?;
    pattern::check(size, places)?;
    packing::pack(size, places, bytes);
    Ok(())
}

// The size of the record's shape, with its pattern put into `places`, which may hold anything before.
#[tactic(auto, using(crate::proofs::Answers::answers, shape::proofs::Passing::passing), unfolding(crate::specs::Calls::read_reply, crate::specs::Calls::read_end))]
pub fn read(bytes: &[u8], places: &mut [u8]) -> Result<u64, Refusal>
    ensures result_value { numbered_reply result ≡ read_reply bytes.now places.old }
    ensures places_after { places.new ≡ read_end bytes.now places.old }
{
    layout::check(bytes)?;
    let size = (bytes[0] / 4) as usize;
    if places.len() != 2 * size {
        return Err(Refusal::Length);
    }
    let mut unpacked = [0; 70];
    read_places(size, bytes, &mut unpacked[..2 * size], places)
}

// The places are unpacked apart and checked, since a refusal leaves the slice as it was lent.
#[tactic(auto, using(crate::proofs::Answers::answers, shape::proofs::Passing::passing), unfolding(crate::specs::Calls::read_reply, crate::specs::Calls::read_end))]
fn read_places(
    size: usize,
    bytes: &[u8],
    unpacked: &mut [u8],
    places: &mut [u8],
) -> Result<u64, Refusal>
    requires bytes_value { (layout_check bytes.now ≡ Ok tt) × (size ≡ size_in bytes.now) }
    requires unpacked_len { (length unpacked.old ≡ 2 * size) × (length places.old ≡ 2 * size) }
    ensures result_value { numbered_reply result ≡ read_reply bytes.now places.old }
    ensures places_after { places.new ≡ read_end bytes.now places.old }
{
    packing::unpack(bytes, unpacked);
    if pattern::check(size, unpacked).is_err() {
        return Err(Refusal::Shape);
    }
    places.copy_from_slice(unpacked);
    Ok(size as u64)
}
