// One step along the local order of a shape that is held in both forms, beside the depths of its places. The crate stands below the calls: it
// takes what has been checked. The forms and the depths are slices that the caller holds, and no type of their own: docs/CONTRACTS.md promises
// the functions of any slices that agree.
#![tactic(auto)]

ghost use Rattle.std.specs.Prelude.{◌≡◌, ◌++◌, map, ◌+◌, ◌-◌, ◌*◌, ◌≤◌, ◌<◌, max, length, get_or, take, replicate};
ghost use Rattle.catalan.specs.Count.{largest_size};
ghost use Rattle.shape.specs.Tree.{permutation};
ghost use Rattle.shape.specs.Form.{Feasible, pattern_tree};
ghost use Rattle.local.specs.Places.{next_change, next_pattern, nonzero};
ghost use Rattle.walk.specs.Depths.{depths_of};
ghost use Rattle.walk.specs.Labels.{relabelled as relabelled_of, rising};

// The next shape's pattern, permutation and depths, in the place of this one's, and its change; none, and all as they are, for the last. A 0
// stands as far among the zeros as the label says that it gives, so the `kept` labels of the zeros before the changed place stay. The block's
// nodes are the last entries: the first of them takes the label after those, and the others go behind all nodes.
#[tactic(auto, using(crate::proofs::Steps::steps))]
pub fn next(size: usize, places: &mut [u8], entries: &mut [u16], depths: &mut [u8]) -> Option<u64>
    requires size_le_largest_size { (size ≤ largest_size) × Feasible size places.old × (entries.old ≡ permutation (pattern_tree places.old)) }
    requires depths_value { depths.old ≡ depths_of places.old }
    ensures value { result ≡ nonzero (next_change size places.old) }
    ensures places_after { places.new ≡ next_pattern size places.old }
    ensures entries_after { entries.new ≡ permutation (pattern_tree (next_pattern size places.old)) }
    ensures depths_after { depths.new ≡ depths_of (next_pattern size places.old) }
{
    let block = local::last_block(size, places);
    if block.start == 0 {
        return None;
    }
    let others = block.end - block.start - 1;
    let kept = block.end - size - 1;
    let first = size - others - 1;
    relabel(&mut entries[..first], kept as u16, others as u16);
    entries[first] = kept as u16 + 1;
    put_rising(entries, first + 1);
    deepen(depths, block.start, first - kept);
    Some(local::move_block(size, places, block.start, block.end))
}

// The nodes before the block: one rule for each of them, so that many can be worked out at once.
fn relabel(nodes: &mut [u16], kept: u16, others: u16)
    requires { kept + others + 2 ≤ largest_size }
    ensures { nodes.new ≡ map (relabelled_of kept others) nodes.old }
{
    for label in nodes.iter_mut() {
        *label = relabelled(*label, kept, others);
    }
}

// Without a jump in compiled code, since all that the tests decide is a number.
#[tactic(auto, using(crate::proofs::Labels::cases))]
fn relabelled(label: u16, kept: u16, others: u16) -> u16
    requires { kept + others + 2 ≤ largest_size }
    ensures { result ≡ relabelled_of kept others label }
{
    if label <= kept {
        label
    } else if label < kept + others + 2 {
        kept + 2
    } else {
        label - others
    }
}

// Nodes without left parts, each to the right of the one before, as the last of all: the label follows from the place.
#[tactic(auto, using(crate::proofs::Labels::rises, std::proofs::lemmas::Grind::common_steps))]
fn put_rising(entries: &mut [u16], from: usize)
    requires from_in_bounds { from ≤ length entries.old }
    requires length_le_largest_size { length entries.old ≤ largest_size }
    ensures { entries.new ≡ take from entries.old ++ rising from (length entries.old - from) }
{
    for i in from..entries.len() {
        entries[i] = i as u16 + 1;
    }
}

// The depth of each part of the pattern that begins at its first place, so that a step can go on from the depth before the changed place.
#[tactic(auto, using(crate::proofs::Climbs::climb))]
pub fn depths(size: usize, places: &[u8], depths: &mut [u8])
    requires { (size ≤ largest_size) × Feasible size places.now × (length depths.old ≡ 2 * size + 1) }
    ensures { depths.new ≡ depths_of places.now }
{
    depths[0] = 0;
    let mut excess = 0;
    for i in 0..2 * size {
        excess = excess + 2 * places[i] - 1;
        depths[i + 1] = depths[i].max(excess);
    }
}

// The 1 at the changed place takes the excess before it up by one, and no place behind takes it further: from there on the depth is one number.
// By index: `fill`, or a slice of its own, makes every step longer in compiled code.
#[tactic(auto, using(crate::proofs::Climbs::filled_more, std::proofs::lemmas::Grind::common_steps))]
fn deepen(depths: &mut [u8], from: usize, excess: usize)
    requires { (1 ≤ from) × (from ≤ length depths.old) × (excess < largest_size) }
    ensures { depths.new
        ≡ take from depths.old
        ++ replicate (length depths.old - from) (max (get_or depths.old (from - 1) 0) (excess + 1)) }
{
    let depth = depths[from - 1].max(excess as u8 + 1);
    for i in from..depths.len() {
        depths[i] = depth;
    }
}
