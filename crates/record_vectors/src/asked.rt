// The cases that ask one call. The slice that is written holds before what the line says, and in the end all of it is compared.
use crate::bytes;
use vectors::Fields;

pub(crate) fn write(mut fields: Fields) {
    let mut places = [0u8; 72];
    let mut before = [0u8; 36];
    let size = fields.size();
    let places = vectors::read(fields.text(), &mut places);
    let bytes = bytes::read(fields.text(), &mut before);
    let refusal = fields.refusal();
    written(size, places, bytes, refusal, fields.text());
}

pub(crate) fn written(
    size: usize,
    places: &[u8],
    bytes: &mut [u8],
    refusal: Result<(), u64>,
    text: &[u8],
) {
    vectors::outcome(b"write", record::write(size, places, bytes), refusal);
    bytes::holds(b"is", bytes, text);
}

pub(crate) fn read(mut fields: Fields) {
    let mut bytes = [0u8; 36];
    let mut before = [0u8; 72];
    let bytes = bytes::read(fields.text(), &mut bytes);
    let places = vectors::read(fields.text(), &mut before);
    let refusal = fields.refusal();
    let size = fields.number();
    unpacked(bytes, places, refusal.and(Ok(size)), fields.text());
}

pub(crate) fn unpacked(bytes: &[u8], places: &mut [u8], size: Result<u64, u64>, text: &[u8]) {
    vectors::outcome(b"read", record::read(bytes, places), size);
    vectors::holds(b"is", places, text);
}
