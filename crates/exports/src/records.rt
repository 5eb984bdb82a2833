// The calls on packed records.
ghost use Rattle.std.specs.Prelude.{◌≡◌};
ghost use Rattle.record.specs.Calls.{write_reply, write_end, read_reply, read_end};
ghost use Rattle.exports.specs.Crossing.{replied};

use crate::Reply;

#[unsafe(no_mangle)]
pub extern "C" fn spire_record_write(size: usize, places: &[u8], bytes: &mut [u8]) -> Reply
    ensures value { result ≡ replied (write_reply size places.now bytes.old) }
    ensures bytes_after { bytes.new ≡ write_end size places.now bytes.old }
{
    Reply::from(record::write(size, places, bytes))
}

#[unsafe(no_mangle)]
pub extern "C" fn spire_record_read(bytes: &[u8], places: &mut [u8]) -> Reply
    ensures value { result ≡ replied (read_reply bytes.now places.old) }
    ensures places_after { places.new ≡ read_end bytes.now places.old }
{
    Reply::from(record::read(bytes, places))
}
