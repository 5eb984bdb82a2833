// The bytes of a record, which a line shows as it shows entries.
ghost use Rattle.std.specs.Prelude.{◌≤◌, length};

// The bytes that a text shows, put into the space, as many as there is room for. The largest there is where a number is larger than that.
pub(crate) fn read<'a>(text: &[u8], space: &'a mut [u8]) -> &'a mut [u8]
    ensures { length result.now ≤ length space.old }
{
    let mut entries = [0u16; 36];
    let entries = vectors::read(text, &mut entries);
    let count = entries.len().min(space.len());
    for (byte, entry) in space.iter_mut().zip(entries.iter()) {
        *byte = u8::try_from(*entry).unwrap_or(u8::MAX);
    }
    &mut space[..count]
}

// Expects the bytes that the text shows.
pub(crate) fn holds(label: &[u8], got: &[u8], expected: &[u8]) {
    let mut entries = [0u16; 36];
    let count = got.len().min(36);
    for (entry, byte) in entries.iter_mut().zip(got) {
        *entry = u16::from(*byte);
    }
    vectors::holds(label, &entries[..count], expected);
}
