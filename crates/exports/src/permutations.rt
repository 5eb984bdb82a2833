// The calls on tree permutations.
ghost use Rattle.std.specs.Prelude.{◌≡◌};
ghost use Rattle.shape.specs.Form.{permutations};
ghost use Rattle.shape.specs.Numbering.{natural};
ghost use Rattle.shape.specs.Calls.{check_reply, number_reply, shape_reply, shape_end};
ghost use Rattle.shape.specs.Calls.{successor_reply, successor_end, predecessor_reply, predecessor_end};
ghost use Rattle.shape.specs.Move.{move_reply, move_end};
ghost use Rattle.exports.specs.Crossing.{replied};

use crate::Reply;

#[unsafe(no_mangle)]
pub extern "C" fn spire_permutation_check(size: usize, entries: &[u16]) -> Reply
    ensures { result ≡ replied (check_reply permutations size entries.now) }
{
    Reply::from(permutation::check(size, entries))
}

#[unsafe(no_mangle)]
pub extern "C" fn spire_permutation_number(size: usize, entries: &[u16]) -> Reply
    ensures { result ≡ replied (number_reply (natural size) entries.now) }
{
    Reply::from(permutation::number(size, entries))
}

#[unsafe(no_mangle)]
pub extern "C" fn spire_permutation_shape(size: usize, number: u64, entries: &mut [u16]) -> Reply
    ensures value { result ≡ replied (shape_reply (natural size) number entries.old) }
    ensures entries_after { entries.new ≡ shape_end (natural size) number entries.old }
{
    Reply::from(permutation::shape(size, number, entries))
}

#[unsafe(no_mangle)]
pub extern "C" fn spire_permutation_successor(size: usize, entries: &mut [u16]) -> Reply
    ensures value { result ≡ replied (successor_reply (natural size) entries.old) }
    ensures entries_after { entries.new ≡ successor_end (natural size) entries.old }
{
    Reply::from(permutation::successor(size, entries))
}

#[unsafe(no_mangle)]
pub extern "C" fn spire_permutation_predecessor(size: usize, entries: &mut [u16]) -> Reply
    ensures value { result ≡ replied (predecessor_reply (natural size) entries.old) }
    ensures entries_after { entries.new ≡ predecessor_end (natural size) entries.old }
{
    Reply::from(permutation::predecessor(size, entries))
}

#[unsafe(no_mangle)]
pub extern "C" fn spire_permutation_move(size: usize, distance: i64, entries: &mut [u16]) -> Reply
    ensures value { result ≡ replied (move_reply (natural size) distance entries.old) }
    ensures entries_after { entries.new ≡ move_end (natural size) distance entries.old }
{
    Reply::from(permutation::move_by(size, distance, entries))
}
