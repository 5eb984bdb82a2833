// A field of a line, and the byte that ends it, put into a lent buffer from some place on; and a number's text, counted up.
ghost use Rattle.std.specs.Prelude.{◌≡◌, [], ◌∷◌, ◌++◌, ℕ, ◌+◌, ◌*◌, ◌/◌, ◌≤◌, ◌<◌, length, take, get_or};
ghost use Rattle.text.specs.Text.{decimal, bits, commas, written};
ghost use Rattle.text.specs.Label.{word_bytes};
ghost use Rattle.text.specs.Line.{Puts};

// The text of the number one higher, in the place of a number's. Of most numbers only the last digit changes. By index, from the last digit
// back: of a slice lent by `iter_mut` the proof would know only the length, and not the digits that were written.
#[tactic(auto, using(crate::proofs::Counting::counts))]
pub fn count_up(digits: &mut [u8], width: usize) -> usize
    requires { width < length digits.old }
    ensures by_index { (k : ℕ) → take width digits.old ≡ decimal k → take result digits.new ≡ decimal (k + 1) }
    ensures digits_len_unchanged { (length digits.new ≡ length digits.old) × (result ≤ width + 1) }
{
    for i in (0..width).rev() {
        if digits[i] < b'9' {
            digits[i] += 1;
            return width;
        }
        digits[i] = b'0';
    }
    // all were nines
    digits[width] = b'0';
    digits[0] = b'1';
    width + 1
}

// A lent buffer, and where its text goes on.
#[derive(Drop)]
pub(crate) struct Line<'a> {
    pub(crate) out: &'a mut [u8],
    pub(crate) at: usize,
}

impl Line<'_> {
    // A text as it stands.
    pub(crate) fn text(&mut self, text: &[u8], end: u8)
        requires { self.old.at + length text.now < length self.old.out.now }
        ensures { Puts self.old self.new (text.now ++ (end ∷ [])) }
    {
        let behind = self.at + text.len();
        self.out[self.at..behind].copy_from_slice(text);
        self.out[behind] = end;
        self.at = behind + 1;
    }

    // A number of any size.
    #[tactic(auto, using(crate::proofs::Putting::numbers))]
    pub(crate) fn number(&mut self, number: u64, end: u8)
        requires { self.old.at + 20 < length self.old.out.now }
        ensures { Puts self.old self.new (decimal number ++ (end ∷ [])) }
    {
        let mut digits = [0u8; 20];
        let width = io::decimal(number, &mut digits);
        self.text(&digits[..width], end);
    }

    // A number below 100. Where it has one digit, the units are put over the tens: that is quicker than to ask.
    #[tactic(auto, using(crate::proofs::Putting::smalls))]
    pub(crate) fn small(&mut self, number: u64, end: u8)
        requires { (number < 100) × (self.old.at + 2 < length self.old.out.now) }
        ensures { Puts self.old self.new (decimal number ++ (end ∷ [])) }
    {
        let units = self.at + (number > 9) as usize;
        self.out[self.at] = b'0' + (number / 10) as u8;
        self.out[units] = b'0' + (number % 10) as u8;
        self.out[units + 1] = end;
        self.at = units + 2;
    }

    // A pattern, a digit for each place.
    #[tactic(auto, using(crate::proofs::Putting::patterns))]
    pub(crate) fn bits(&mut self, places: &[u8])
        requires { (self.old.at + length places.now < length self.old.out.now) × ((i : ℕ) → get_or places.now i 0 ≤ 1) }
        ensures { Puts self.old self.new (bits places.now ++ (32 ∷ [])) }
    {
        for (i, place) in places.iter().enumerate() {
            self.out[self.at + i] = b'0' + place;
        }
        let behind = self.at + places.len();
        self.out[behind] = b' ';
        self.at = behind + 1;
    }

    // A label and its comma, from the table. All four bytes of the word are put, since one wide store is quicker than to put only those of the
    // text: the caller puts what comes next over the others. So the line goes on before the end of what was put, and `Puts` doesn't say it.
    #[tactic(auto, using(crate::proofs::Putting::word_written))]
    fn label(&mut self, word: u32)
        requires { self.old.at + 3 < length self.old.out.now }
        ensures same_buffer { self.new.out.ghost_name ≡ self.old.out.ghost_name }
        ensures at_after { self.new.at ≡ self.old.at + word / 16777216 }
        ensures out_after { self.new.out.now ≡ written self.old.out.now self.old.at (word_bytes word) }
    {
        self.out[self.at..self.at + 4].copy_from_slice(&word.to_le_bytes());
        self.at += (word >> 24) as usize;
    }

    // A permutation: a comma behind each entry but the last. That one is put byte by byte, over what the word before it left behind its text.
    #[tactic(auto, using(crate::proofs::Putting::permutations))]
    pub(crate) fn entries(&mut self, entries: &[u16])
        requires { (1 ≤ length entries.now)
            × (self.old.at + 3 * length entries.now ≤ length self.old.out.now)
            × ((i : ℕ) → get_or entries.now i 0 < 100) }
        ensures { Puts self.old self.new (commas entries.now ++ (32 ∷ [])) }
    {
        let words = crate::labels::words();
        let last = entries.len() - 1;
        for entry in &entries[..last] {
            self.label(words[*entry as usize]);
        }
        self.small(entries[last] as u64, b' ');
    }
}

// A number of any size, in a line of the caller's own. `out` and `at` stand beside each other, and not in a `Line`, since docs/CONTRACTS.md lists
// the call so.
pub fn put_number(number: u64, end: u8, out: &mut [u8], at: usize) -> usize
    requires { at + 20 < length out.old }
    ensures value { result ≡ at + length (decimal number ++ (end ∷ [])) }
    ensures out_after { out.new ≡ written out.old at (decimal number ++ (end ∷ [])) }
{
    let mut line = Line { out, at };
    line.number(number, end);
    line.at
}
