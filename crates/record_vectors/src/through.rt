// There and back: a pattern by its record, and a record by its pattern. What is only written holds 255 before.
use crate::{asked, bytes};
use vectors::Fields;

// Of the record, the second call is lent what the first one wrote.
pub(crate) fn pattern(mut fields: Fields) {
    let mut places = [0u8; 72];
    let mut space = [0u8; 36];
    let mut spare = [255u8; 72];
    let size = fields.size();
    let text = fields.text();
    let record = fields.text();
    let places = vectors::read(text, &mut places);
    let bytes = bytes::read(record, &mut space);
    let again = &mut spare[..places.len()];
    bytes.fill(255);
    asked::written(size, places, bytes, Ok(()), record);
    asked::unpacked(bytes, again, Ok(size as u64), text);
}

// Of the pattern, the second call is lent what the first one put there.
pub(crate) fn record(mut fields: Fields) {
    let mut bytes = [0u8; 36];
    let mut space = [0u8; 72];
    let mut spare = [255u8; 36];
    let record = fields.text();
    let size = fields.size();
    let text = fields.text();
    let bytes = bytes::read(record, &mut bytes);
    let places = vectors::read(text, &mut space);
    let again = &mut spare[..bytes.len()];
    places.fill(255);
    asked::unpacked(bytes, places, Ok(size as u64), text);
    asked::written(size, places, again, Ok(()), record);
}
