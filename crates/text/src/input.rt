// Reading the line that asks for a sheet: three decimals with single spaces between them, a newline, and nothing after.
ghost use Rattle.std.specs.Prelude.{◌≡◌, true, false, MatchOption, length};
ghost use Rattle.std.specs.Char.{is_ascii_digit};
ghost use Rattle.std.specs.List.{take_while};
ghost use Rattle.shape.specs.Every.{All};
ghost use Rattle.text.specs.Input.{Digit, front, behind, value, in_form, number_of, field as is_field, next, asked};

// What an input asks for.
#[derive(Clone, Copy)]
pub struct Asked {
    pub size: u64,
    pub first: u64,
    pub end: u64,
}

// None where the input does not read as such a line.
#[tactic(auto, using(crate::proofs::Reading::lines))]
pub fn read(input: &[u8]) -> Option<Asked>
    ensures { result ≡ asked input.now }
{
    let (size, rest) = field(input, b' ')?;
    let (first, rest) = field(rest, b' ')?;
    let (end, rest) = field(rest, b'\n')?;
    if !rest.is_empty() {
        return None;
    }
    Some(Asked { size, first, end })
}

// The number that a text begins with, where the byte `end` stands behind it, and the text behind both.
#[tactic(auto, using(crate::proofs::Reading::fields))]
fn field(text: &[u8], end: u8) -> Option<(u64, &[u8])>
    ensures { MatchOption result
        (is_field end text.now ≡ false)
        (λ part. (is_field end text.now ≡ true) × (part.0 ≡ value (front text.now)) × (part.1.now ≡ next text.now)) }
{
    let (digits, behind) = split_digits(text);
    let (first, rest) = behind.split_first()?;
    if !in_form(digits) || *first != end {
        return None;
    }
    Some((number(digits)?, rest))
}

// The digits that a text begins with, and what stands behind them.
#[tactic(auto, using(crate::proofs::Reading::splits))]
fn split_digits(text: &[u8]) -> (&[u8], &[u8])
    ensures digits { result.0.now ≡ front text.now }
    ensures behind { result.1.now ≡ behind text.now }
{
    text.split_at(count_digits(text))
}

fn count_digits(text: &[u8]) -> usize
    ensures { result ≡ length (take_while is_ascii_digit text.now) }
{
    text.iter().take_while(|byte| byte.is_ascii_digit()).count()
}

// Whether there are digits, and no 0 before others.
#[tactic(auto, using(crate::proofs::Reading::forms))]
fn in_form(digits: &[u8]) -> bool
    ensures { result ≡ in_form digits.now }
{
    match digits {
        [] => false,
        [_] => true,
        [first, ..] => *first > b'0',
    }
}

// The number that digits write; none where 64 bits do not hold it.
#[tactic(auto, using(crate::proofs::Reading::numbers))]
fn number(digits: &[u8]) -> Option<u64>
    requires { All Digit digits.now }
    ensures { result ≡ number_of digits.now }
{
    let mut value: u64 = 0;
    for digit in digits {
        value = value.checked_mul(10)?.checked_add(u64::from(digit - b'0'))?;
    }
    Some(value)
}
