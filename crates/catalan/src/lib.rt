// The numbers: the table of the Catalan numbers, and the ways to finish a pattern, one row of them held at a time, so that a call needs
// little stack. The crate stands below the calls: its functions may have a `requires`, which the calls' own checks meet. A row is a slice that
// the caller holds, and no type of its own: docs/CONTRACTS.md promises each function of every slice that holds the row.
#![tactic(auto)]

ghost use Rattle.std.specs.Prelude.{◌≡◌, ◌+◌, ◌-◌, ◌≤◌, ◌<◌, length};
ghost use Rattle.catalan.specs.Table.{catalans, table_at, row_of};

// C(0) .. C(36): C(36) is the last that 64 bits hold.
static CATALAN: [u64; 37] = [
    1,
    1,
    2,
    5,
    14,
    42,
    132,
    429,
    1430,
    4862,
    16796,
    58786,
    208012,
    742900,
    2674440,
    9694845,
    35357670,
    129644790,
    477638700,
    1767263190,
    6564120420,
    24466267020,
    91482563640,
    343059613650,
    1289904147324,
    4861946401452,
    18367353072152,
    69533550916004,
    263747951750360,
    1002242216651368,
    3814986502092304,
    14544636039226909,
    55534064877048198,
    212336130412243110,
    812944042149730764,
    3116285494907301262,
    11959798385860453492,
];

// For a caller that works with many entries: it copies the table once and lends it down.
#[tactic(auto, using(crate::proofs::Tables::held))]
pub fn table() -> [u64; 37]
    ensures { result ≡ catalans }
{
    CATALAN
}

// 0, which no Catalan number is, says that n is past the table, so that no caller has to ask first. No option, since the promise is `table_at`.
#[tactic(auto, using(crate::proofs::Tables::entries))]
pub fn catalan(n: usize) -> u64
    ensures { result ≡ table_at n }
{
    if n > 36 {
        return 0;
    }
    CATALAN[n]
}

// From the row of `zeros` to the next. Upward, since an entry is its own old value and its neighbour's new one. Past the diagonal both
// rows are 0. The bound: a row has 36 entries, and up to 35 zeros every count fits 64 bits (`ways_fit`).
#[tactic(auto, using(crate::proofs::Rows::growing))]
pub fn grow(zeros: usize, row: &mut [u64])
    requires { (zeros < 35) × (row.old ≡ row_of zeros) }
    ensures { row.new ≡ row_of (zeros + 1) }
{
    for a in 1..zeros + 2 {
        row[a] += row[a - 1];
    }
}

// The way back. Downward, since an entry loses what its neighbour still holds of the row of `zeros`.
#[tactic(auto, using(crate::proofs::Rows::shrinking))]
pub fn shrink(zeros: usize, row: &mut [u64])
    requires { (zeros ≤ 35) × (row.old ≡ row_of zeros) }
    ensures { row.new ≡ row_of (zeros - 1) }
{
    for a in (1..zeros + 1).rev() {
        row[a] -= row[a - 1];
    }
}

// The row of no zeros, from which every other grows: one way with no ones left, and none with any.
#[tactic(auto, using(crate::proofs::Rows::row_start))]
fn clear(row: &mut [u64])
    requires { length row.old ≡ 36 }
    ensures { row.new ≡ row_of 0 }
{
    row.fill(0);
    row[0] = 1;
}

// Any row, whatever the slice held: grown by the same step, so that no count is made in a second way.
#[tactic(auto, using(crate::proofs::Rows::row_long))]
pub fn fill(zeros: usize, row: &mut [u64])
    requires { (zeros ≤ 35) × (length row.old ≡ 36) }
    ensures { row.new ≡ row_of zeros }
{
    clear(row);
    for b in 0..zeros {
        grow(b, row);
    }
}
