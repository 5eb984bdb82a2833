// The work on tree permutations in the natural order. The crate stands below the calls: its functions take what has been checked. Number
// and steps go by recursion on the left and the right part, which stand one after the other behind the root's label; a part has the labels
// after its `base`. Shape writes the entries in that same order, in one loop. The table is lent and the base stands beside the entries, with
// no types for either: docs/CONTRACTS.md promises the functions of every table and slice that hold what they ask.
#![tactic(auto)]

mod forms;
mod steps;

ghost use Rattle.std.specs.Prelude.{◌≡◌, ◌≢◌, ◌+◌, ◌≤◌, ◌<◌, length};
ghost use Rattle.catalan.specs.Count.{C, largest_size};
ghost use Rattle.catalan.specs.Table.{catalans as the_table};
ghost use Rattle.shape.specs.Tree.{permutation_from};
ghost use Rattle.shape.specs.Form.{permutation_tree};
ghost use Rattle.shape.specs.Number.{fewer_left, left_nodes, natural_number, natural_tree};
ghost use Rattle.natural.specs.Parts.{Part};

pub use forms::{pattern_of, permutation_of};
pub use steps::{next, previous};

// The trees with a smaller left part come first; the left's number counts in steps of as many as there are right parts. Half of all parts
// are empty, and for those there is no call; a tree of one node is alone of its size.
#[tactic(auto, using(crate::proofs::Numbers::numbered))]
pub fn number(catalans: &[u64; 37], base: u16, entries: &[u16]) -> u64
    requires { (catalans.now ≡ the_table) × Part base entries.now }
    ensures { result ≡ natural_number (permutation_tree entries.now) }
{
    if entries.len() < 2 {
        return 0;
    }
    let root = entries[0];
    let right = (root - base) as usize;
    if right == 1 {
        return number(catalans, root, &entries[1..]);
    }
    let fewer = fewer_left(catalans, entries.len() - 1, right - 1);
    let left_number = number(catalans, base, &entries[1..right]);
    if right == entries.len() {
        return fewer + left_number;
    }
    let right_number = number(catalans, root, &entries[right..]);
    fewer + left_number * catalans[entries.len() - right] + right_number
}

// How many trees with so many nodes besides the root have fewer than `left` of them on the left.
#[tactic(auto, using(crate::proofs::Counts::counted))]
fn fewer_left(catalans: &[u64; 37], others: usize, left: usize) -> u64
    requires { (catalans.now ≡ the_table) × (left ≤ others) × (others < largest_size) }
    ensures { result ≡ fewer_left others left }
{
    let mut fewer = 0;
    for j in 0..left {
        fewer += catalans[j] * catalans[others - j];
    }
    fewer
}

// How many nodes stand on the left, and the number among the trees that have so many there.
#[derive(Clone, Copy)]
struct Split {
    left: usize,
    rest: u64,
}

// A part that is to be written: the labels after its base, how many entries it has, and its number. The fields leave no gap, which a copy
// would carry along. No `Option` of it where none waits: a part of no entries says that, and an option makes each of the 35 places 24 bytes
// in place of 16.
#[derive(Clone, Copy)]
struct Unwritten {
    base: u32,
    count: u32,
    number: u64,
}

impl Unwritten {
    // This part, or the next one where nothing of this is left.
    fn or(self, next: Unwritten) -> Unwritten
        ensures some { self.count ≢ 0 → result ≡ self }
        ensures none { self.count ≡ 0 → result ≡ next }
    {
        if self.count == 0 { next } else { self }
    }
}

// The number undone, entry by entry: what the trees with a smaller left part leave of a part's number is the left's number in steps of the
// right parts, and the right's. The left part comes next; until it is written, the right part waits at the entry where it begins. Where one
// part is empty, what is left is the other's number, so that there is nothing to divide; with no left part it is all of it, and half of the
// parts or more have none.
#[tactic(auto, using(crate::proofs::Shapes::shaped))]
pub fn shape(catalans: &[u64; 37], number: u64, entries: &mut [u16])
    requires { (catalans.now ≡ the_table) × (length entries.old ≤ largest_size) × (number < C (length entries.old)) }
    ensures { entries.new ≡ permutation_from 0 (natural_tree (length entries.old) number) }
{
    let none = Unwritten {
        base: 0,
        count: 0,
        number: 0,
    };
    let mut waiting = [none; 35];
    let mut part = Unwritten {
        base: 0,
        count: entries.len() as u32,
        number,
    };
    for i in 0..entries.len() {
        part = part.or(waiting[i]);
        let others = part.count as usize - 1;
        if part.number < catalans[others] {
            part.base += 1;
            part.count -= 1;
            entries[i] = part.base as u16;
        } else {
            let split = left_nodes(catalans, others, part.number);
            let right = others - split.left;
            let root = part.base + split.left as u32 + 1;
            entries[i] = root as u16;
            part.count = split.left as u32;
            if right == 0 {
                part.number = split.rest;
            } else {
                let rights = catalans[right];
                waiting[i + 1 + split.left] = Unwritten {
                    base: root,
                    count: right as u32,
                    number: split.rest % rights,
                };
                part.number = split.rest / rights;
            }
        }
    }
}

// The trees that have one node more on the left come after all that have as many as here. Those with none there come first, as many as the
// right parts, and are tested apart: within a caller that has made that test it falls away, and the loop begins behind them.
#[tactic(auto, using(crate::proofs::Counts::taken_off))]
fn left_nodes(catalans: &[u64; 37], others: usize, number: u64) -> Split
    requires { (catalans.now ≡ the_table) × (others < largest_size) × (number < C (others + 1)) }
    ensures left_value { result.left ≡ left_nodes others others number }
    ensures rest_value { fewer_left others result.left + result.rest ≡ number }
{
    if number < catalans[others] {
        return Split {
            left: 0,
            rest: number,
        };
    }
    let mut rest = number - catalans[others];
    for left in 1..others {
        let trees = catalans[left] * catalans[others - left];
        if rest < trees {
            return Split { left, rest };
        }
        rest -= trees;
    }
    Split { left: others, rest }
}
