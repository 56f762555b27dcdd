// Lent tables and packed words: record rows, batch operations, and how many rows are lent.
// Definitions: specs/Packed.antt for fields in a word, specs/Rows.antt for rows and operations, specs/Lent.antt.
#![tactic(auto)]

ghost use Rattle.std.specs.Prelude.{◌+◌, ◌*◌, ◌<◌, ◌≡◌, length};
ghost use Rattle.rows.specs.Rows.{row_word, row_of, row_at, set_row, RowFits, operation_word, operation_of, operation_at, OperationFits};
ghost use Rattle.rows.specs.Lent.{rows_lent, rows_lent_plain};

use config::Config;

// A place in the record table. 32 bits, as an active entry has.
#[derive(Clone, Copy)]
pub struct Node(pub u32);

// The application's number.
#[derive(Clone, Copy)]
pub struct Id(pub u64);

// `at` is the offset of the first coordinate byte in the log, or in the snapshot.
#[derive(Clone, Copy)]
pub struct Row {
    pub id: Id,
    pub deleted: bool,
    pub from_log: bool,
    pub caption_length: usize,
    pub at: usize,
}

// `at` is the caption's offset in its buffer.
#[derive(Clone, Copy)]
pub struct Operation {
    pub id: Id,
    pub put: bool,
    pub caption_length: usize,
    pub at: usize,
}

// What a field counts by in its packed word, and how many values a caption length has.
const CAPTION_LENGTHS: u64 = 32_768;

const ROW_CAPTION: u64 = 140_737_488_355_328;

const ROW_SOURCE: u64 = 4_611_686_018_427_387_904;

const ROW_DELETED: u64 = 9_223_372_036_854_775_808;

const OPERATION_CAPTION: u64 = 281_474_976_710_656;

const OPERATION_PUT: u64 = 9_223_372_036_854_775_808;

impl Row {
    // Internal: the fields keep to their widths. A field that is too wide has no word, and every caller has tested the length and the offset.
    #[tactic(auto, using(crate::proofs::RowLaws::row_word_sum))]
    pub fn pack(self) -> u64
        requires { RowFits self }
        ensures { result ≡ row_word self }
    {
        let high = u64::from(self.deleted) * ROW_DELETED + u64::from(self.from_log) * ROW_SOURCE;
        high + (self.caption_length as u64) * ROW_CAPTION + (self.at as u64)
    }

    #[tactic(auto, using(crate::proofs::RowLaws::row_of_parts))]
    pub fn unpack(id: Id, word: u64) -> Row
        ensures { result ≡ row_of id.0 word }
    {
        Row {
            id,
            deleted: word / ROW_DELETED % 2 == 1,
            from_log: word / ROW_SOURCE % 2 == 1,
            caption_length: (word / ROW_CAPTION % CAPTION_LENGTHS) as usize,
            at: (word % ROW_CAPTION) as usize,
        }
    }
}

impl Operation {
    // Internal: the fields keep to their widths, as for a row.
    #[tactic(auto, using(crate::proofs::RowLaws::operation_word_sum))]
    pub fn pack(self) -> u64
        requires { OperationFits self }
        ensures { result ≡ operation_word self }
    {
        u64::from(self.put) * OPERATION_PUT
            + (self.caption_length as u64) * OPERATION_CAPTION
            + (self.at as u64)
    }

    #[tactic(auto, using(crate::proofs::RowLaws::operation_of_parts))]
    pub fn unpack(id: Id, word: u64) -> Operation
        ensures { result ≡ operation_of id.0 word }
    {
        Operation {
            id,
            put: word / OPERATION_PUT % 2 == 1,
            caption_length: (word / OPERATION_CAPTION % CAPTION_LENGTHS) as usize,
            at: (word % OPERATION_CAPTION) as usize,
        }
    }
}

// Internal: the node's two words lie in the table.
#[tactic(auto, unfolding(crate::specs::Rows::row_at))]
pub fn row_at(rows: &[u64], node: Node) -> Row
    requires { 2 * node.0 + 1 < length rows.now }
    ensures { result ≡ row_at rows.now node.0 }
{
    let at = 2 * (node.0 as usize);
    Row::unpack(Id(rows[at]), rows[at + 1])
}

// Internal: as `row_at`, and the row's fields keep to their widths.
#[tactic(auto, unfolding(crate::specs::Rows::set_row))]
pub fn set_row(rows: &mut [u64], node: Node, row: Row)
    requires node_in_bounds { 2 * node.0 + 1 < length rows.old }
    requires row_fits { RowFits row }
    ensures { rows.new ≡ set_row rows.old node.0 row }
{
    let first = 2 * (node.0 as usize);
    let id = row.id;
    rows[first] = id.0;
    rows[first + 1] = row.pack();
}

// Internal: the operation's two words lie in the request.
#[tactic(auto, unfolding(crate::specs::Rows::operation_at))]
pub fn operation_at(words: &[u64], i: usize) -> Operation
    requires { 2 * i + 1 < length words.now }
    ensures { result ≡ operation_at words.now i }
{
    let at = 2 * i;
    Operation::unpack(Id(words[at]), words[at + 1])
}

// For a call that is lent no active entries.
pub fn rows_lent_plain(rows: &[u64]) -> usize
    ensures { result ≡ rows_lent_plain rows.now }
{
    (rows.len() / 2).min(Config::MAX_RECORDS)
}

pub fn rows_lent(rows: &[u64], active: &[u32]) -> usize
    ensures { result ≡ rows_lent rows.now active.now }
{
    rows_lent_plain(rows).min(active.len())
}
