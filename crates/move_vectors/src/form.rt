// The two forms of a shape, each in its order.
use shape::Refusal;
use vectors::Notation;

pub(crate) trait Form: Notation {
    fn move_by(size: usize, distance: i64, items: &mut [Self]) -> Result<(), Refusal>;
}

// Patterns, in the local order.
impl Form for u8 {
    fn move_by(size: usize, distance: i64, places: &mut [u8]) -> Result<(), Refusal> {
        pattern::move_by(size, distance, places)
    }
}

// Tree permutations, in the natural order.
impl Form for u16 {
    fn move_by(size: usize, distance: i64, entries: &mut [u16]) -> Result<(), Refusal> {
        permutation::move_by(size, distance, entries)
    }
}
