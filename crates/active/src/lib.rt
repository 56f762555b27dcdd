// The active nodes: the live nodes of a table's first rows, by rising ID, with zeros behind the rows and behind the entries.
// Definitions: `meaning`'s specs/Tables.antt; specs/Active.antt says what the lent tables hold after.
#![tactic(auto)]

ghost use Rattle.std.specs.Prelude.{◌≡◌, true, ◌++◌, ◌*◌, ◌≤◌, length, take, drop, replicate};
ghost use Rattle.config.specs.Limits.{max_records};
ghost use Rattle.sorting.specs.Sorting.{rising, sorted_nodes, FirstInRows};
ghost use Rattle.meaning.specs.Tables.{rows_in, live_nodes};
ghost use Rattle.active.specs.Active.{activated, left_rows, left_entries};

use refusal::Refusal;
use rows::Node;

// The live nodes in node order at the front of the entries; answers how many.
#[tactic(auto, using(crate::proofs::Listing::listing_none, crate::proofs::Listing::listing_skip, crate::proofs::Listing::listing_more))]
fn live_nodes(rows: &[u64], count: usize, entries: &mut [u32]) -> usize
    requires count_in_bounds { 2 * count ≤ length rows.now }
    requires count_in_bounds_2 { count ≤ length entries.old }
    requires count_le_max_records { count ≤ max_records }
    ensures value { result ≡ length (live_nodes (rows_in count rows.now)) }
    ensures entries_after { entries.new ≡ live_nodes (rows_in count rows.now) ++ drop result entries.old }
{
    let mut n: usize = 0;
    for i in 0..count {
        let node = i as u32;
        let row = rows::row_at(rows, Node(node));
        if !row.deleted {
            entries[n] = node;
            n += 1;
        }
    }
    n
}

// Sorts the first n entries by the ID of their rows, and answers whether no ID stands twice. Entries that rise already are left.
fn in_order(rows: &[u64], entries: &mut [u32], n: usize) -> bool
    requires n_in_bounds { n ≤ length entries.old }
    requires first_in_rows { FirstInRows rows.now n entries.old }
    ensures value { result ≡ rising rows.now (sorted_nodes rows.now (take n entries.old)) }
    ensures entries_after { result ≡ true → entries.new ≡ sorted_nodes rows.now (take n entries.old) ++ drop n entries.old }
{
    if sorting::is_rising(rows, entries, n) {
        return true;
    }
    sorting::sort_by_id(rows, entries, n);
    sorting::is_rising(rows, entries, n)
}

// Internal: for readers and recovery. What a refused one leaves.
pub fn clear(rows: &mut [u64], entries: &mut [u32])
    ensures rows_after { rows.new ≡ replicate (length rows.old) 0 }
    ensures entries_after { entries.new ≡ replicate (length entries.old) 0 }
{
    rows.fill(0);
    entries.fill(0);
}

// Internal: both tables have room for `count` rows, which are no more than a snapshot may have.
// The first `count` rows are there: their active nodes and zeros behind, or zeros throughout where an ID is live twice.
// Answers how many are active.
pub fn activate(rows: &mut [u64], count: usize, entries: &mut [u32]) -> Result<usize, Refusal>
    requires count_in_bounds { 2 * count ≤ length rows.old }
    requires count_in_bounds_2 { count ≤ length entries.old }
    requires count_le_max_records { count ≤ max_records }
    ensures value { result ≡ activated (rows_in count rows.old) }
    ensures rows_after { rows.new ≡ left_rows count rows.old }
    ensures entries_after { entries.new ≡ left_entries count rows.old entries.old }
{
    let n = live_nodes(rows, count, entries);
    if !in_order(rows, entries, n) {
        clear(rows, entries);
        return Err(Refusal::ActiveTwice);
    }
    rows[2 * count..].fill(0);
    entries[n..].fill(0);
    Ok(n)
}
