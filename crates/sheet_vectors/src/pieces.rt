// What the library hands out: each piece with its number of bytes, or the refusal.
ghost use Rattle.std.specs.Prelude.{◌≤◌};

use crate::{escapes, state};
use lines::{Filled, Sheet};
use shape::Refusal;
use vectors::Fields;

// The byte that the buffer is filled with before a piece, and which no piece has.
const UNTOUCHED: u8 = 126;

pub(crate) fn whole(mut fields: Fields) {
    let room = room(&mut fields);
    let mut space = [0u8; 512];
    let input = escapes::read(fields.rest, &mut space);
    if input.len() == 512 {
        wrong(b"WRONG, a longer input than there is room for");
    }
    hand_out(Sheet::open(input), room);
}

pub(crate) fn one(mut fields: Fields) {
    let room = room(&mut fields);
    let filled = piece(state::read(fields), room);
    state::show(filled.sheet);
}

// The buffer's length.
fn room(fields: &mut Fields) -> usize
    ensures { result ≤ 4096 }
{
    fields.size().min(4096)
}

// Pieces till one has no bytes or is refused. No case has as many as are waited for.
fn hand_out(sheet: Sheet, room: usize)
    requires { room ≤ 4096 }
{
    let mut left = sheet;
    for _ in 0..1000 {
        let filled = piece(left, room);
        if filled.bytes.unwrap_or(0) == 0 {
            return;
        }
        left = filled.sheet;
    }
    wrong(b"WRONG, no end");
}

// One piece, printed.
fn piece(sheet: Sheet, room: usize) -> Filled
    requires { room ≤ 4096 }
{
    let mut buffer = [UNTOUCHED; 4096];
    let filled = sheet.fill(&mut buffer[..room]);
    let count = print(filled.bytes, &buffer);
    if buffer.iter().skip(count).any(|byte| *byte != UNTOUCHED) {
        wrong(b"WRONG, more of the buffer was written");
    }
    filled
}

// Answers how many bytes the piece has.
fn print(reply: Result<u64, Refusal>, buffer: &[u8]) -> usize {
    match reply {
        Err(refusal) => {
            vectors::word(b"no");
            vectors::decimal(refusal.number());
            vectors::end_line();
            0
        }
        Ok(bytes) => {
            let count = bytes as usize;
            vectors::decimal(bytes);
            vectors::word(b"bytes");
            vectors::end_line();
            match buffer.get(..count) {
                Some(piece) => vectors::print(piece),
                None => wrong(b"WRONG, more than there is room for"),
            }
            count
        }
    }
}

pub(crate) fn wrong(what: &[u8]) {
    vectors::word(what);
    vectors::end_line();
}
