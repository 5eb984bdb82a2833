// A line's fields, with single spaces between them, and what they stand for: words, numbers, distances and refusals.
ghost use Rattle.std.specs.Prelude.{◌≡◌, ◌-◌, ◌^◌, ◌==◌, min, length, position};
ghost use Rattle.std.specs.Iterator.{at_most};
ghost use Rattle.std.specs.Int.{w64, saturate_signed};
ghost use Rattle.vectors.specs.Line.{field, behind, place_of, decimal_of, number_of, expected_of, distance_of};

// What a line has left. As an iterator it ends before the first empty field.
#[derive(Clone, Copy)]
pub struct Fields<'a> {
    pub rest: &'a [u8],
}

impl<'a> Iterator for Fields<'a> {
    type Item = &'a [u8];

    ghost remaining = { λ fields. at_most (length fields.rest.now) };

    fn next(&mut self) -> Option<&'a [u8]> {
        let field = self.text();
        (!field.is_empty()).then_some(field)
    }
}

impl<'a> Fields<'a> {
    pub fn of(line: &'a [u8]) -> Self
        ensures { result.rest.now ≡ line.now }
    {
        Fields { rest: line }
    }

    // The next field; empty where the line has no more.
    pub fn text(&mut self) -> &'a [u8]
        ensures text { result.now ≡ field self.old.rest.now }
        ensures rest { self.new.rest.now ≡ behind self.old.rest.now }
    {
        let line = self.rest;
        match space(line) {
            Some(end) => {
                self.rest = &line[end + 1..];
                &line[..end]
            }
            None => {
                self.rest = &[];
                line
            }
        }
    }

    // The next field as a decimal number; the largest there is where it is larger than that.
    pub fn number(&mut self) -> u64
        ensures value { result ≡ number_of self.old.rest.now }
        ensures rest { self.new.rest.now ≡ behind self.old.rest.now }
    {
        digits(self.text())
    }

    // The same of a size or a length.
    pub fn size(&mut self) -> usize
        ensures value { result ≡ number_of self.old.rest.now }
        ensures rest { self.new.rest.now ≡ behind self.old.rest.now }
    {
        self.number() as usize
    }

    // The next field as what is expected of a call: done, or a refusal's number. No `Refusal`: a line may name a number that no refusal has.
    pub fn refusal(&mut self) -> Result<(), u64>
        ensures value { result ≡ expected_of (number_of self.old.rest.now) }
        ensures rest { self.new.rest.now ≡ behind self.old.rest.now }
    {
        match self.number() {
            0 => Ok(()),
            refusal => Err(refusal),
        }
    }

    // The next field as a signed decimal number; the farthest from 0 there is where it is farther than that.
    pub fn distance(&mut self) -> i64
        ensures value { result ≡ saturate_signed w64 (distance_of (field self.old.rest.now)) }
        ensures rest { self.new.rest.now ≡ behind self.old.rest.now }
    {
        let text = self.text();
        match text.strip_prefix(b"-") {
            Some(back) => 0i64.saturating_sub_unsigned(digits(back)),
            None => 0i64.saturating_add_unsigned(digits(text)),
        }
    }
}

fn space(line: &[u8]) -> Option<usize>
    ensures { result ≡ position (λ letter. letter == 32) line.now }
{
    line.iter().position(|letter| *letter == b' ')
}

// The number that a text shows; the largest there is where it is larger than that.
pub(crate) fn digits(text: &[u8]) -> u64
    ensures { result ≡ min (decimal_of text.now) (2 ^ 64 - 1) }
{
    text.iter().fold(0u64, |value, letter| {
        value
            .saturating_mul(10)
            .saturating_add(u64::from(place(*letter)))
    })
}

// A digit's value, and 255 for any other letter.
pub(crate) fn place(letter: u8) -> u8
    ensures { result ≡ place_of letter }
{
    match letter {
        b'0'..=b'9' => letter - b'0',
        _ => 255,
    }
}
