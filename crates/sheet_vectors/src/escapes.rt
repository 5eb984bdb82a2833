// An input as a line shows it: every byte as it stands, or by an escape.
ghost use Rattle.std.specs.Prelude.{◌≤◌, ◌<◌, length};

// A byte that stands so many times in the input, and the length of what shows it.
#[derive(Clone, Copy)]
struct Shown {
    byte: u8,
    times: usize,
    length: usize,
}

// The bytes that a text shows, put into the space, as many as there is room for. Stretch by stretch, since an escape may show one byte many
// times.
pub(crate) fn read<'a>(text: &[u8], space: &'a mut [u8]) -> &'a mut [u8]
    ensures { length result.now ≤ length space.old }
{
    let mut count = 0;
    let mut rest = text;
    while !rest.is_empty() {
        let shown = first(rest);
        let end = space.len().min(count + shown.times);
        space[count..end].fill(shown.byte);
        count = end;
        rest = rest.get(shown.length..).unwrap_or(&[]);
    }
    &mut space[..count]
}

// What a text shows first. Behind its end, the text reads as zeros.
fn first(text: &[u8]) -> Shown
    ensures some { 1 ≤ result.length }
    ensures few { result.times < 256 }
{
    let letter = |place: usize| text.get(place).copied().unwrap_or(0);
    let number = 16 * digit(letter(2)) + digit(letter(3));
    let (byte, times, length) = match (letter(0), letter(1)) {
        (b'\\', b'n') => (b'\n', 1, 2),
        (b'\\', b'r') => (b'\r', 1, 2),
        (b'\\', b't') => (b'\t', 1, 2),
        (b'\\', b'x') => (number, 1, 4),
        (b'\\', b'*') => (letter(4), usize::from(number), 5),
        (b'\\', kind) => (kind, 1, 2),
        (byte, _) => (byte, 1, 1),
    };
    Shown {
        byte,
        times,
        length,
    }
}

// Of hexadecimal digits, with small letters; 0 for any other byte.
fn digit(letter: u8) -> u8
    ensures { result < 16 }
{
    match letter {
        b'0'..=b'9' => letter - b'0',
        b'a'..=b'f' => letter - b'a' + 10,
        _ => 0,
    }
}
