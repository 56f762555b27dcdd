// Links of a tree in lent memory: link u, which is 0 or one more than a node, has its ID in word 2u - 2, its packed row word
// in word 2u - 1 and its active entry at u - 1. Its two cells, 2u and 2u + 1, hold the links to its left and to its right,
// and cell 0 holds the root's.
//
// The right link and 15 bits of the left one lie in the active entry, the other 2 bits of the left one in bits 30 and 31 of
// the packed word, which a row with an offset below 2^30 does not use.
//
// Definitions: specs/Links.antt.
#![tactic(auto)]

ghost use Rattle.std.specs.Prelude.{◌*◌, ◌/◌, ◌<◌, ◌≤◌, ◌≡◌, length};
ghost use Rattle.links.specs.Links.{links, plain_word, left_of, right_of, word_with_left, entry_with_left, entry_with_right, link_in, deleted_word, caption_length, Linked, Attached};

// How many values a link has, and the part of a left one that is in the entry.
const LINKS: u32 = 131_072;

const LOW_LINKS: usize = 32_768;

// What the spare bits of a row word count by, and what stands above them.
const SPARE: u64 = 1_073_741_824;

const ABOVE: u64 = 4_294_967_296;

// What the other fields of a row word count by, and how many values a caption length has.
const CAPTION: u64 = 140_737_488_355_328;

const CAPTION_LENGTHS: u64 = 32_768;

const SOURCE: u64 = 4_611_686_018_427_387_904;

pub const DELETED: u64 = 9_223_372_036_854_775_808;

// Internal: nothing is asked. A row word with no link in it.
#[tactic(auto, unfolding(crate::specs::Links::plain_word))]
pub fn plain(word: u64) -> u64
    ensures { result ≡ plain_word word }
{
    word / ABOVE * ABOVE + word % SPARE
}

#[tactic(auto, unfolding(crate::specs::Links::left_of))]
fn left_of(word: u64, entry: u32) -> usize
    ensures { (result ≡ left_of word entry) × (result < links) }
{
    ((word / SPARE % 4) as usize) * LOW_LINKS + ((entry / LINKS) as usize)
}

#[tactic(auto, unfolding(crate::specs::Links::right_of))]
fn right_of(entry: u32) -> usize
    ensures { (result ≡ right_of entry) × (result < links) }
{
    (entry % LINKS) as usize
}

#[tactic(auto, unfolding(crate::specs::Links::word_with_left))]
fn word_with_left(word: u64, link: usize) -> u64
    requires { link < links }
    ensures { result ≡ word_with_left word link }
{
    word / ABOVE * ABOVE + ((link / LOW_LINKS) as u64) * SPARE + word % SPARE
}

#[tactic(auto, unfolding(crate::specs::Links::entry_with_left))]
fn entry_with_left(entry: u32, link: usize) -> u32
    requires { link < links }
    ensures { result ≡ entry_with_left entry link }
{
    ((link % LOW_LINKS) as u32) * LINKS + entry % LINKS
}

#[tactic(auto, unfolding(crate::specs::Links::entry_with_right))]
fn entry_with_right(entry: u32, link: usize) -> u32
    requires { link < links }
    ensures { result ≡ entry_with_right entry link }
{
    entry / LINKS * LINKS + (link as u32)
}

// Internal: the cell is not cell 1, and its link has a row and an entry.
// Both links are read before one is chosen, so that the compiler makes no branch: half of the guesses at it would be wrong.
#[tactic(auto, unfolding(crate::specs::Links::link_in))]
pub fn link_at(words: &[u64], entries: &[u32], root: usize, cell: usize) -> usize
    requires fact { cell ≡ 1 → ⊥ }
    requires cell_in_bounds { 2 * (cell / 2) ≤ length words.now }
    requires cell_in_bounds_2 { cell / 2 ≤ length entries.now }
    ensures { result ≡ link_in root words.now entries.now cell }
{
    if cell == 0 {
        return root;
    }
    let owner = cell / 2;
    let word = words[2 * owner - 1];
    let entry = entries[owner - 1];
    let left = left_of(word, entry);
    let right = right_of(entry);
    if cell % 2 == 0 {
        return left;
    }
    right
}

// Internal: as `link_at`, and the link keeps to its width.
// The answer is the root's link.
pub fn set_link(
    words: &mut [u64],
    entries: &mut [u32],
    root: usize,
    cell: usize,
    link: usize,
) -> usize
    requires fact { cell ≡ 1 → ⊥ }
    requires cell_in_bounds { 2 * (cell / 2) ≤ length words.old }
    requires cell_in_bounds_2 { cell / 2 ≤ length entries.old }
    requires link_lt_links { link < links }
    ensures { Linked root words.old entries.old result words.new entries.new cell link }
{
    if cell == 0 {
        return link;
    }
    let owner = cell / 2;
    let entry = entries[owner - 1];
    if cell % 2 == 1 {
        entries[owner - 1] = entry_with_right(entry, link);
        return root;
    }
    let word = words[2 * owner - 1];
    words[2 * owner - 1] = word_with_left(word, link);
    entries[owner - 1] = entry_with_left(entry, link);
    root
}

// Internal: nothing is asked. The word of a row that is marked deleted: its caption is empty.
#[tactic(auto, unfolding(crate::specs::Links::deleted_word))]
pub fn deleted_word(word: u64) -> u64
    ensures { result ≡ deleted_word word }
{
    DELETED + word / SOURCE % 2 * SOURCE + word % CAPTION
}

// Internal: nothing is asked. The caption length in a row word.
#[tactic(auto, unfolding(crate::specs::Links::caption_length))]
pub fn caption_length(word: u64) -> usize
    ensures { result ≡ caption_length word }
{
    (word / CAPTION % CAPTION_LENGTHS) as usize
}

// Internal: as `set_link`, the cell is one of an earlier link, and the new link has a row and an entry.
// Stores a link in a cell, with two links of its own. The answer is the root's link.
#[tactic(auto, using(crate::proofs::LinkLaws::attached))]
pub fn attach(
    words: &mut [u64],
    entries: &mut [u32],
    root: usize,
    cell: usize,
    link: usize,
    left: usize,
    right: usize,
) -> usize
    requires fact { cell ≡ 1 → ⊥ }
    requires cell_bound { cell / 2 < link }
    requires link_in_bounds { 2 * link ≤ length words.old }
    requires link_in_bounds_2 { link ≤ length entries.old }
    requires link_lt_links { link < links }
    requires left_lt_links { left < links }
    requires right_lt_links { right < links }
    ensures { Attached root words.old entries.old result words.new entries.new cell link left right }
{
    let first = set_link(words, entries, root, 2 * link, left);
    let second = set_link(words, entries, first, 2 * link + 1, right);
    set_link(words, entries, second, cell, link)
}
