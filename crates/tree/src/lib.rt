// The live node of an ID while a log is replayed: for any IDs, at most 64 steps down a tree and 17 in a sorted front.
//
// The nodes below `sorted` have rising IDs, and are found by halving. The nodes from there on stand in a digital tree: an
// ID is mixed, one to one, and the node at depth k sends it left or right by bit 63 - k of what the mixing gave. So IDs
// that rise from the first row on build no tree. A row that is marked deleted stays where it is.
//
// The links lie in the active entries and in spare bits of the row words (crate `links`), which have nothing else to hold
// while replay runs. `finish` takes them out of the words again.
//
// Definitions: specs/Grown.antt for a table with its tree, those of `links` and those of `digital_tree`.
#![tactic(auto)]

ghost use Rattle.std.specs.Prelude.{◌+◌, ◌*◌, ◌<◌, ◌≤◌, ◌≡◌, true, ◌++◌, length, get_or, take, drop};
ghost use Rattle.config.specs.Limits.{max_records};
ghost use Rattle.digital_tree.specs.Look.{mixed_id, bit_at, Inside};
ghost use Rattle.links.specs.Links.{links, live_link, plain_rows, put_at, deleted_unit};
ghost use Rattle.tree.specs.Grown.{Absent, Finds, Once, Rising, Bound, link_of, cell_of, child_of, Grown, Spliced, Added, Marked, Rises, TakenUp, Room};

#[derive(Clone, Copy)]
pub struct Tree {
    pub root: usize,
    pub sorted: usize,
    pub count: usize,
}

// `link` is 0, or one more than the live node; `cell` is where a node of the ID belongs in the tree.
#[derive(Clone, Copy)]
pub struct Place {
    pub link: usize,
    pub cell: usize,
}

const MIXER: u64 = 0x9e37_79b9_7f4a_7c15;

const DEPTH: u32 = 64;

#[tactic(auto, unfolding(digital_tree::specs::Look::mixed_id))]
fn mixed(id: u64) -> u64
    ensures { result ≡ mixed_id id }
{
    id.wrapping_mul(MIXER)
}

fn bit(key: u64, at: u32) -> usize
    requires { at < 64 }
    ensures { (result ≡ bit_at key at) × (result < 2) }
{
    ((key >> at) % 2) as usize
}

// The cell where the way of an ID ends: it is empty, or holds a node of this ID.
fn search(words: &[u64], entries: &[u32], tree: Tree, id: u64) -> usize
    requires { Grown tree words.now entries.now }
    ensures { result ≡ cell_of tree words.now entries.now id }
{
    let key = mixed(id);
    let mut cell: usize = 0;
    for left in (0..DEPTH).rev() {
        let link = links::link_at(words, entries, tree.root, cell);
        if link == 0 {
            return cell;
        }
        if words[2 * link - 2] == id {
            return cell;
        }
        cell = 2 * link + bit(key, left);
    }
    cell
}

// How many of the first rows, whose IDs rise, have a smaller ID.
fn lower_bound(words: &[u64], sorted: usize, id: u64) -> usize
    requires sorted_in_bounds { 2 * sorted ≤ length words.now }
    requires rising { Rising (plain_rows words.now) sorted }
    ensures { Bound (plain_rows words.now) sorted id result }
{
    if sorted == 0 {
        return 0;
    }
    if words[2 * sorted - 2] < id {
        return sorted;
    }
    let mut low: usize = 0;
    let mut high = sorted;
    while low < high {
        let middle = low + (high - low) / 2;
        if words[2 * middle] < id {
            low = middle + 1;
        } else {
            high = middle;
        }
    }
    low
}

// The link of the front's live node of an ID, or 0.
fn in_front(words: &[u64], sorted: usize, id: u64) -> usize
    requires sorted_in_bounds { 2 * sorted ≤ length words.now }
    requires rising { Rising (plain_rows words.now) sorted }
    ensures { Finds (plain_rows words.now) sorted id result }
{
    let at = lower_bound(words, sorted, id);
    if sorted <= at {
        return 0;
    }
    if words[2 * at] != id {
        return 0;
    }
    if links::DELETED <= words[2 * at + 1] {
        return 0;
    }
    at + 1
}

// The link in a cell, or 0 where its node is deleted.
fn in_cell(words: &[u64], entries: &[u32], tree: Tree, cell: usize) -> usize
    requires grown { Grown tree words.now entries.now }
    requires inside { Inside tree.sorted tree.count cell }
    ensures { result ≡ live_link words.now (link_of tree words.now entries.now cell) }
{
    let link = links::link_at(words, entries, tree.root, cell);
    if link == 0 {
        return 0;
    }
    if links::DELETED <= words[2 * link - 1] {
        return 0;
    }
    link
}

// Internal: the tree is that of these words and entries.
pub fn find(words: &[u64], entries: &[u32], tree: Tree, id: u64) -> Place
    requires { Grown tree words.now entries.now }
    ensures finds { Finds (plain_rows words.now) tree.count id result.link }
    ensures cell_value { result.cell ≡ cell_of tree words.now entries.now id }
{
    let cell = search(words, entries, tree, id);
    let front = in_front(words, tree.sorted, id);
    if 0 < front {
        return Place { link: front, cell };
    }
    let link = in_cell(words, entries, tree, cell);
    Place { link, cell }
}

// Internal: the link's row is in the table.
// Marks it deleted and answers the caption length that it had; at link 0 there is nothing to mark.
pub fn mark(words: &mut [u64], link: usize) -> usize
    requires { 2 * link ≤ length words.old }
    ensures { Marked words.old words.new link result }
{
    if link == 0 {
        return 0;
    }
    let word = words[2 * link - 1];
    words[2 * link - 1] = links::deleted_word(word);
    links::caption_length(word)
}

// A row of this ID after the last one would extend the front.
fn rises(words: &[u64], tree: Tree, id: u64) -> bool
    requires { 2 * tree.count ≤ length words.now }
    ensures { Rises (plain_rows words.now) tree id result }
{
    let count = tree.count;
    if tree.sorted < count {
        return false;
    }
    if count == 0 {
        return true;
    }
    words[2 * count - 2] < id
}

fn write_row(words: &mut [u64], count: usize, id: u64, word: u64)
    requires { 2 * count + 2 ≤ length words.old }
    ensures { words.new ≡ put_at words.old count id word }
{
    words[2 * count] = id;
    words[2 * count + 1] = word;
}

fn extend(words: &mut [u64], entries: &[u32], tree: Tree, id: u64, word: u64) -> Tree
    requires grown { Grown tree words.old entries.now }
    requires room { Room tree words.old entries.now }
    requires rises { Rises (plain_rows words.old) tree id true }
    requires absent { word < deleted_unit → Absent (plain_rows words.old) tree.count id }
    ensures { Added tree words.old entries.now result words.new entries.now id word }
{
    let count = tree.count;
    write_row(words, count, id, word);
    Tree {
        root: tree.root,
        sorted: count + 1,
        count: count + 1,
    }
}

fn child(words: &[u64], entries: &[u32], tree: Tree, link: usize, side: usize) -> usize
    requires link_in_bounds { 2 * link ≤ length words.now }
    requires link_in_bounds_2 { link ≤ length entries.now }
    requires side_bound { side < 2 }
    requires link_lt_links { link < links }
    ensures { result ≡ child_of tree words.now entries.now link side }
{
    if link == 0 {
        return 0;
    }
    links::link_at(words, entries, tree.root, 2 * link + side)
}

// The row after the last one goes into a cell, with the links of the node that is there. The answer is the root's link.
fn splice(
    words: &mut [u64],
    entries: &mut [u32],
    tree: Tree,
    cell: usize,
    id: u64,
    word: u64,
) -> usize
    requires grown { Grown tree words.old entries.old }
    requires room { Room tree words.old entries.old }
    requires inside { Inside tree.sorted tree.count cell }
    ensures { Spliced tree words.old entries.old result words.new entries.new cell id word }
{
    let count = tree.count;
    let old = links::link_at(words, entries, tree.root, cell);
    let left = child(words, entries, tree, old, 0);
    let right = child(words, entries, tree, old, 1);
    write_row(words, count, id, word);
    links::attach(words, entries, tree.root, cell, count + 1, left, right)
}

fn insert(
    words: &mut [u64],
    entries: &mut [u32],
    tree: Tree,
    cell: usize,
    id: u64,
    word: u64,
) -> Tree
    requires grown { Grown tree words.old entries.old }
    requires room { Room tree words.old entries.old }
    requires count_nonzero { 0 < tree.count }
    requires cell_value { cell ≡ cell_of tree words.old entries.old id }
    requires absent { Absent (plain_rows words.old) tree.count id }
    ensures { Added tree words.old entries.old result words.new entries.new id word }
{
    let root = splice(words, entries, tree, cell, id, word);
    Tree {
        root,
        sorted: tree.sorted,
        count: tree.count + 1,
    }
}

// Internal: the tree is that of these words and entries, the cell is the one that `find` gave for the ID, and no node of the ID is live.
// Appends a row.
pub fn put(
    words: &mut [u64],
    entries: &mut [u32],
    tree: Tree,
    cell: usize,
    id: u64,
    word: u64,
) -> Tree
    requires grown { Grown tree words.old entries.old }
    requires room { Room tree words.old entries.old }
    requires cell_value { cell ≡ cell_of tree words.old entries.old id }
    requires absent { Absent (plain_rows words.old) tree.count id }
    ensures { Added tree words.old entries.old result words.new entries.new id word }
{
    if rises(words, tree, id) {
        return extend(words, entries, tree, id, word);
    }
    insert(words, entries, tree, cell, id, word)
}

// A deleted row that does not extend the front: no link leads to it.
fn leave_out(words: &mut [u64], entries: &mut [u32], tree: Tree) -> Tree
    requires grown { Grown tree words.old entries.old }
    requires room { Room tree words.old entries.old }
    requires deleted_unit_bound { deleted_unit ≤ get_or words.old (2 * tree.count + 1) 0 }
    ensures { TakenUp tree words.old result words.new entries.new }
{
    let count = tree.count;
    words[2 * count + 1] = links::plain(words[2 * count + 1]);
    entries[count] = 0;
    Tree {
        root: tree.root,
        sorted: tree.sorted,
        count: count + 1,
    }
}

// The row after the last one, which is in the table already.
fn take_up(words: &mut [u64], entries: &mut [u32], tree: Tree) -> Tree
    requires grown { Grown tree words.old entries.old }
    requires room { Room tree words.old entries.old }
    requires once { Once (plain_rows words.old) (tree.count + 1) }
    ensures { TakenUp tree words.old result words.new entries.new }
{
    let count = tree.count;
    let id = words[2 * count];
    let word = words[2 * count + 1];
    if rises(words, tree, id) {
        return extend(words, entries, tree, id, word);
    }
    if links::DELETED <= word {
        return leave_out(words, entries, tree);
    }
    let cell = search(words, entries, tree, id);
    insert(words, entries, tree, cell, id, word)
}

// Internal: the table holds `count` rows, and no ID is live twice.
// What the entries hold is no matter.
#[tactic(auto, using(crate::proofs::FrontLaws::empty_grown))]
pub fn begin(words: &mut [u64], entries: &mut [u32], count: usize) -> Tree
    requires count_in_bounds { 2 * count ≤ length words.old }
    requires count_in_bounds_2 { count ≤ length entries.old }
    requires count_le_max_records { count ≤ max_records }
    requires once { Once (plain_rows words.old) count }
    ensures grown { Grown result words.new entries.new }
    ensures count_value { result.count ≡ count }
    ensures words_unchanged { plain_rows words.new ≡ plain_rows words.old }
{
    let mut tree = Tree {
        root: 0,
        sorted: 0,
        count: 0,
    };
    for _ in 0..count {
        tree = take_up(words, entries, tree);
    }
    tree
}

fn clear(words: &mut [u64])
    ensures { words.new ≡ plain_rows words.old }
{
    for i in 0..words.len() / 2 {
        words[2 * i + 1] = links::plain(words[2 * i + 1]);
    }
}

// Internal: the table holds as many rows as the tree counts.
// Takes the links out of the rows. The entries are left as they are.
pub fn finish(words: &mut [u64], tree: Tree)
    requires { 2 * tree.count ≤ length words.old }
    ensures { words.new ≡ take (2 * tree.count) (plain_rows words.old) ++ drop (2 * tree.count) words.old }
{
    let end = 2 * tree.count;
    clear(&mut words[..end]);
}
