// One step along the natural order, on and back. The right part steps if it can; if not, the left part does, and the right part starts
// anew; if neither can, the root's label changes by one, and both parts start anew. So nothing is written before the working suffix of
// 004, and no number is worked out. A step answers whether there was one to take.
ghost use Rattle.std.specs.Prelude.{◌≡◌, ◌+◌, ◌≤◌, length};
ghost use Rattle.catalan.specs.Count.{largest_size};
ghost use Rattle.shape.specs.Tree.{permutation_from};
ghost use Rattle.shape.specs.Form.{permutation_tree};
ghost use Rattle.natural.specs.Parts.{Part, Root, has_next, has_previous, next_tree, previous_tree};
ghost use Rattle.natural.specs.Parts.{has_step, step_tree, end_tree, end_parts};

pub fn next(base: u16, entries: &mut [u16]) -> bool
    requires { Part base entries.old }
    ensures value { result ≡ has_next (permutation_tree entries.old) }
    ensures entries_after { entries.new ≡ permutation_from base (next_tree (permutation_tree entries.old)) }
{
    step::<true>(base, entries)
}

pub fn previous(base: u16, entries: &mut [u16]) -> bool
    requires { Part base entries.old }
    ensures value { result ≡ has_previous (permutation_tree entries.old) }
    ensures entries_after { entries.new ≡ permutation_from base (previous_tree (permutation_tree entries.old)) }
{
    step::<false>(base, entries)
}

// Which way a step goes is known when it is compiled, so asking for it costs nothing.
fn step<const ON: bool>(base: u16, entries: &mut [u16]) -> bool
    requires { Part base entries.old }
    ensures value { result ≡ has_step ON (permutation_tree entries.old) }
    ensures entries_after { entries.new ≡ permutation_from base (step_tree ON (permutation_tree entries.old)) }
{
    if entries.len() == 0 {
        return false;
    }
    let root = entries[0];
    let right = (root - base) as usize;
    if step::<ON>(root, &mut entries[right..]) {
        return true;
    }
    if step::<ON>(base, &mut entries[1..right]) {
        put_end::<ON>(root, &mut entries[right..]);
        return true;
    }
    if ON {
        if right == entries.len() {
            return false;
        }
        put_parts::<ON>(base, root + 1, entries);
        return true;
    }
    if right == 1 {
        return false;
    }
    put_parts::<ON>(base, root - 1, entries);
    true
}

// A root, and under it the tree of each part's size with which the way begins.
fn put_parts<const ON: bool>(base: u16, root: u16, entries: &mut [u16])
    requires { Root base root entries.old }
    ensures { entries.new ≡ permutation_from base (end_parts ON base root (length entries.old)) }
{
    let right = (root - base) as usize;
    entries[0] = root;
    put_end::<ON>(base, &mut entries[1..right]);
    put_end::<ON>(root, &mut entries[right..]);
}

// The first tree has no left part anywhere, and its labels rise; the last has no right part anywhere, and its labels fall.
fn put_end<const ON: bool>(base: u16, entries: &mut [u16])
    requires { base + length entries.old ≤ largest_size }
    ensures { entries.new ≡ permutation_from base (end_tree ON (length entries.old)) }
{
    for i in 0..entries.len() {
        if ON {
            entries[i] = base + i as u16 + 1;
        } else {
            entries[i] = base + (entries.len() - i) as u16;
        }
    }
}
