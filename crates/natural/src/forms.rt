// One form written in the other. The 1s of a pattern stand in the order of the entries and its zeros in the order of the labels: the 0 that
// closes a node's left part is as far among the zeros as its label says. Both go from the last place to the first.
ghost use Rattle.std.specs.Prelude.{◌≡◌, ◌*◌, ◌≤◌, length};
ghost use Rattle.catalan.specs.Count.{largest_size};
ghost use Rattle.shape.specs.Tree.{pattern, permutation};
ghost use Rattle.shape.specs.Form.{Feasible, TreePermutation, pattern_tree, permutation_tree};

// A 0 gives a label, which waits for its node's 1; the label given last is taken first. Labels wait at the front of the slice, entries are
// complete from k on, and between them there is room for the labels not yet given. Nothing foretells a place, so a turn has no branch and
// reckons with the place: at a 1 the label taken goes to k, at a 0 the label given, as large as the gap, goes to those that wait.
#[tactic(auto, using(crate::proofs::Labels::labelling))]
pub fn permutation_of(size: usize, places: &[u8], entries: &mut [u16])
    requires { (size ≤ largest_size) × Feasible size places.now × (length entries.old ≡ size) }
    ensures { entries.new ≡ permutation (pattern_tree places.now) }
{
    let mut waiting = 0;
    let mut k = size;
    for &place in places.iter().rev() {
        let one = place as usize;
        waiting -= one;
        k -= one;
        let gap = k - waiting;
        let taken = entries[waiting] as usize;
        entries[waiting + one * gap] = (one * taken + (1 - one) * gap) as u16;
        waiting += 1 - one;
    }
}

// The labels not below an entry have their zeros behind its 1. Here too a turn has no branch. By index: of places that `iter_mut` lends, the
// proof knows afterwards only that they were lent, and not what was written there.
#[tactic(auto, using(crate::proofs::Zeros::writing))]
pub fn pattern_of(size: usize, entries: &[u16], places: &mut [u8])
    requires { (size ≤ largest_size) × TreePermutation size entries.now × (length places.old ≡ 2 * size) }
    ensures { places.new ≡ pattern (permutation_tree entries.now) }
{
    let mut label = size;
    let mut k = size;
    for i in (0..2 * size).rev() {
        let one = (label < entries[k - 1] as usize) as usize;
        places[i] = one as u8;
        label -= 1 - one;
        k -= one;
    }
}
