// The calls on patterns that `vectors` asks.
use shape::Refusal;
use vectors::{Form, Way};

pub(crate) struct Pattern;

impl Form for Pattern {
    type Item = u8;

    type Change = u64;

    fn shape(size: usize, number: u64, places: &mut [u8]) -> Result<(), Refusal> {
        pattern::shape(size, number, places)
    }

    fn number(size: usize, places: &[u8]) -> Result<u64, Refusal> {
        pattern::number(size, places)
    }

    fn step(way: Way, size: usize, places: &mut [u8]) -> Result<u64, Refusal> {
        match way {
            Way::On => pattern::successor(size, places),
            Way::Back => pattern::predecessor(size, places),
        }
    }

    // A refusal is printed as change 0.
    fn any_step_on(size: usize, places: &mut [u8]) -> u64 {
        let change = pattern::successor(size, places).unwrap_or(0);
        vectors::word(b"on");
        vectors::decimal(change);
        change
    }
}
