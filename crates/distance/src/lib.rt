// A signed distance, for calls that count in numbers without a sign. The crate stands below the calls: what is done with a sign is done
// here, and nothing above it asks for one.
#![tactic(auto)]

ghost use Rattle.std.specs.Prelude.{◌≡◌};
ghost use Rattle.std.specs.Int.{w64};
ghost use Rattle.std.proofs.Common.{of_z};
ghost use Rattle.shape.specs.Move.{end_past};

use shape::Refusal;

// What is added to a number to come to the one at the distance, in 64 bits and wrapping: the distance itself, or 2^64 less the way back. Where
// every number is below a limit of 2^63 or less, one comparison of the sum with the limit asks for both ends: what is below 0 has wrapped to
// 2^63 or more.
pub fn added(distance: i64) -> u64
    ensures { result ≡ of_z w64 distance }
{
    distance.cast_unsigned()
}

// Why a move is refused that comes to no shape: for the end that lies that way.
pub fn end_past(distance: i64) -> Refusal
    ensures { result ≡ end_past distance }
{
    if distance < 0 {
        Refusal::First
    } else {
        Refusal::Last
    }
}
