// The calls on tree permutations that `vectors` asks.
use shape::Refusal;
use vectors::{Form, Way};

pub(crate) struct Permutation;

impl Form for Permutation {
    type Item = u16;

    type Change = ();

    fn shape(size: usize, number: u64, entries: &mut [u16]) -> Result<(), Refusal> {
        permutation::shape(size, number, entries)
    }

    fn number(size: usize, entries: &[u16]) -> Result<u64, Refusal> {
        permutation::number(size, entries)
    }

    fn step(way: Way, size: usize, entries: &mut [u16]) -> Result<(), Refusal> {
        match way {
            Way::On => permutation::successor(size, entries),
            Way::Back => permutation::predecessor(size, entries),
        }
    }

    fn any_step_on(size: usize, entries: &mut [u16]) {
        vectors::outcome(b"on", permutation::successor(size, entries), Ok(()));
    }
}
