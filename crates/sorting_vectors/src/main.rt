// Sorts 600 nodes by IDs of six kinds. For each it writes the kind, whether the IDs rise before and after, whether
// they are in order after, a hash of the IDs in that order, and the sum of all entries, the untouched ones too.
#![tactic(auto)]

ghost use Rattle.std.specs.Prelude.{◌≡◌, ℕ, ◌<◌, ◌≤◌, length, get_or};
ghost use Rattle.sorting.specs.Sorting.{InRows, FirstInRows};

use std::io;

// xorshift
fn next(x: u64) -> u64 {
    let a = x ^ (x << 13);
    let b = a ^ (a >> 7);
    b ^ (b << 17)
}

// random; rising; falling; few, so that many are equal; in clusters; powers of two beside small ones
fn id_of(kind: u64, i: u64, x: u64) -> u64 {
    if kind == 1 {
        return i;
    }
    if kind == 2 {
        return u64::MAX - i;
    }
    if kind == 3 {
        return x % 50;
    }
    if kind == 4 {
        return x / 65536 % 8 * 281474976710656 + i % 1000;
    }
    if kind == 5 {
        if i < 64 {
            return 1 << i;
        }
        return x % 1000;
    }
    x
}

fn fill(rows: &mut [u64], kind: u64) {
    let mut x: u64 = 88172645463325252;
    for (i, row) in rows.iter_mut().enumerate() {
        x = next(x);
        *row = id_of(kind, (i / 2) as u64, x);
    }
}

// the entries become 0, 1, 2 and so on
fn number(active: &mut [u32])
    requires { length active.old ≤ 1000 }
    ensures { (i : ℕ) → i < length active.old → get_or active.new i 0 ≡ i }
{
    for (i, entry) in active.iter_mut().enumerate() {
        *entry = i as u32;
    }
}

fn sum(active: &[u32]) -> u64 {
    let mut h: u64 = 0;
    for entry in active {
        h = (h + u64::from(*entry)) % 4294967296;
    }
    h
}

fn id_of_node(rows: &[u64], v: u32) -> u64
    requires { InRows rows.now v }
{
    let node = v as usize;
    rows[2 * node]
}

fn id_at(rows: &[u64], active: &[u32], n: usize, i: usize) -> u64
    requires n_in_bounds { n ≤ length active.now }
    requires first_in_rows { FirstInRows rows.now n active.now }
    requires i_lt_n { i < n }
{
    id_of_node(rows, active[i])
}

fn hash(rows: &[u64], active: &[u32], n: usize) -> u64
    requires n_in_bounds { n ≤ length active.now }
    requires first_in_rows { FirstInRows rows.now n active.now }
{
    let mut h: u64 = 0;
    for i in 0..n {
        h = (h * 31 + id_at(rows, active, n, i) % 65536) % 4294967296;
    }
    h
}

fn in_order(rows: &[u64], active: &[u32], n: usize) -> bool
    requires n_in_bounds { n ≤ length active.now }
    requires first_in_rows { FirstInRows rows.now n active.now }
{
    for i in 1..n {
        if id_at(rows, active, n, i) < id_at(rows, active, n, i - 1) {
            return false;
        }
    }
    true
}

fn say(rt: &impl Print, yes: bool) -> io::Result<()> {
    if yes {
        print!(rt; " yes")
    } else {
        print!(rt; " no")
    }
}

fn say_sorted(rt: &impl Print, rows: &[u64], active: &[u32], n: usize) -> io::Result<()>
    requires n_in_bounds { n ≤ length active.now }
    requires first_in_rows { FirstInRows rows.now n active.now }
{
    say(rt, sorting::is_rising(rows, active, n))?;
    say(rt, in_order(rows, active, n))?;
    let of_ids = hash(rows, active, n);
    let of_entries = sum(active);
    println!(rt; " {of_ids} {of_entries}")
}

fn sort_and_say(rt: &impl Print, rows: &[u64], active: &mut [u32], n: usize) -> io::Result<()>
    requires n_in_bounds { n ≤ length active.old }
    requires first_in_rows { FirstInRows rows.now n active.old }
{
    say(rt, sorting::is_rising(rows, active, n))?;
    sorting::sort_by_id(rows, active, n);
    say_sorted(rt, rows, active, n)
}

fn show(rt: &impl Print, kind: u64) -> io::Result<()> {
    let mut rows = [0u64; 1200];
    let mut active = [0u32; 700];
    fill(&mut rows, kind);
    number(&mut active);
    print!(rt; "{kind}")?;
    sort_and_say(rt, &rows, &mut active, 600)
}

fn main(rt: HostRuntime) -> io::Result<()> {
    show(&rt, 0)?;
    show(&rt, 1)?;
    show(&rt, 2)?;
    show(&rt, 3)?;
    show(&rt, 4)?;
    show(&rt, 5)
}
