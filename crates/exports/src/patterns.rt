// The calls on patterns.
ghost use Rattle.std.specs.Prelude.{◌≡◌};
ghost use Rattle.shape.specs.Form.{patterns};
ghost use Rattle.shape.specs.Numbering.{local};
ghost use Rattle.shape.specs.Calls.{check_reply, number_reply, shape_reply, shape_end, successor_end, predecessor_end};
ghost use Rattle.shape.specs.Move.{move_reply, move_end};
ghost use Rattle.pattern.specs.Calls.{successor_change, predecessor_change, depth_reply};
ghost use Rattle.exports.specs.Crossing.{replied, from_start, head_told, later_told};

use crate::Reply;

// A part of a lent slice: of which one, 0 the first and 1 the second, from where, and how many places.
#[repr(C)]
#[derive(Clone, Copy)]
pub struct Part {
    pub slice: usize,
    pub offset: usize,
    pub length: usize,
}

#[unsafe(no_mangle)]
pub extern "C" fn spire_pattern_check(size: usize, places: &[u8]) -> Reply
    ensures { result ≡ replied (check_reply patterns size places.now) }
{
    Reply::from(pattern::check(size, places))
}

#[unsafe(no_mangle)]
pub extern "C" fn spire_pattern_number(size: usize, places: &[u8]) -> Reply
    ensures { result ≡ replied (number_reply (local size) places.now) }
{
    Reply::from(pattern::number(size, places))
}

#[unsafe(no_mangle)]
pub extern "C" fn spire_pattern_shape(size: usize, number: u64, places: &mut [u8]) -> Reply
    ensures value { result ≡ replied (shape_reply (local size) number places.old) }
    ensures places_after { places.new ≡ shape_end (local size) number places.old }
{
    Reply::from(pattern::shape(size, number, places))
}

#[unsafe(no_mangle)]
pub extern "C" fn spire_pattern_successor(size: usize, places: &mut [u8]) -> Reply
    ensures value { result ≡ replied (successor_change size places.old) }
    ensures places_after { places.new ≡ successor_end (local size) places.old }
{
    Reply::from(pattern::successor(size, places))
}

#[unsafe(no_mangle)]
pub extern "C" fn spire_pattern_predecessor(size: usize, places: &mut [u8]) -> Reply
    ensures value { result ≡ replied (predecessor_change size places.old) }
    ensures places_after { places.new ≡ predecessor_end (local size) places.old }
{
    Reply::from(pattern::predecessor(size, places))
}

#[unsafe(no_mangle)]
pub extern "C" fn spire_pattern_move(size: usize, distance: i64, places: &mut [u8]) -> Reply
    ensures value { result ≡ replied (move_reply (local size) distance places.old) }
    ensures places_after { places.new ≡ move_end (local size) distance places.old }
{
    Reply::from(pattern::move_by(size, distance, places))
}

#[unsafe(no_mangle)]
pub extern "C" fn spire_pattern_depth(size: usize, places: &[u8]) -> Reply
    ensures { result ≡ replied (depth_reply size places.now) }
{
    Reply::from(pattern::depth(size, places))
}

// The head begins where the slice begins, so its length tells all of it.
#[tactic(auto, using(crate::proofs::Parts::head_told_lem))]
#[unsafe(no_mangle)]
pub extern "C" fn spire_pattern_head(size: usize, places: &[u8]) -> Part
    ensures { result ≡ head_told size places.now }
{
    let head = pattern::head(size, places);
    from_start(0, head.len())
}

// A reference does not tell which slice it is a part of, so the checks and the comparison of `pattern::later` stand here once more.
#[tactic(auto, using(pattern::proofs::Answers::answers, shape::proofs::Passing::passing), unfolding(crate::specs::Crossing::later_told, pattern::specs::Calls::later_part, pattern::specs::Calls::later_of, pattern::specs::Calls::later_check, shape::specs::Calls::check_reply))]
#[unsafe(no_mangle)]
pub extern "C" fn spire_pattern_later(size: usize, first: &[u8], second: &[u8]) -> Part
    ensures { result ≡ later_told size first.now second.now }
{
    if pattern::check(size, first).is_err() || pattern::check(size, second).is_err() {
        return from_start(0, 0);
    }
    if local::before(size, first, second) {
        return from_start(1, second.len());
    }
    from_start(0, first.len())
}

fn from_start(slice: usize, length: usize) -> Part
    ensures { result ≡ from_start slice length }
{
    Part {
        slice,
        offset: 0,
        length,
    }
}
