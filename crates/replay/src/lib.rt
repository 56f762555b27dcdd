// Replay: what the operations of a log's frames do to the rows in lent memory.
// The definitions are those of `meaning` (Replay); specs/Stands.antt says how rows stand in memory while replay runs.
#![tactic(auto)]

ghost use Rattle.std.specs.Prelude.{◌≡◌, List, ◌+◌, ◌*◌, ◌≤◌, ◌<◌, length, Ok};
ghost use Rattle.config.specs.Limits.{max_records, max_dimensions, max_log_bytes};
ghost use Rattle.layout.specs.declared.Shape.TheVariants.{Batch};
ghost use Rattle.rows.specs.Rows.{RowFits};
ghost use Rattle.rows.specs.declared.Row.{Row};
ghost use Rattle.meaning.specs.Log.{operations_at};
ghost use Rattle.meaning.specs.Log as Meant;
ghost use Rattle.meaning.specs.Replay.{apply_put, apply_remove, apply_one, apply_all};
ghost use Rattle.meaning.specs.Replay as Replays;
ghost use Rattle.store_log.specs.Stored.{StoredAll, FrameThere, IsFrame};
ghost use Rattle.store_log.specs.Told.{operation_as};
ghost use Rattle.meaning.specs.Records.{row_kind};
ghost use Rattle.meaning.specs.Recovery.{bounds_for};
ghost use Rattle.tree_meaning.specs.Spares.{Spares};
ghost use Rattle.replay.specs.Stands.{TableStands, Kept, TakenOut, Applicable, AppliedAs};

use config::Config;
use layout::Shape;
use refusal::Refusal;
use rows::{Id, Row};
use store_log::{Frame, Operation};
use tree::Tree;

// What replay keeps of the rows beside lent memory: the tree that finds them, and their encoded size.
#[derive(Clone, Copy)]
pub struct Table {
    pub tree: Tree,
    pub size: usize,
}

// The live row of an ID, marked: its link, or 0 where there was none; the cell of the tree where a row of the ID belongs; the size left.
#[derive(Clone, Copy)]
struct Outed {
    link: usize,
    cell: usize,
    size: usize,
}

// Marks the live row of an ID deleted, if there is one.
fn take_out(d: usize, words: &mut [u64], entries: &[u32], table: Table, id: u64) -> Outed
    requires { Kept d words.old entries.now table }
    ensures { (rows : List Row) → TableStands d words.old entries.now table rows → TakenOut d id words.new entries.now table result rows }
{
    let tree = table.tree;
    let place = tree::find(words, entries, tree, id);
    let link = place.link;
    let cell = place.cell;
    let freed = tree::mark(words, link);
    Outed {
        link,
        cell,
        size: table.size - freed,
    }
}

// A put marks the old row of its ID, adds its size, then 28, then 19, then appends a row.
fn put_row(
    d: usize,
    lent: usize,
    words: &mut [u64],
    entries: &mut [u32],
    table: Table,
    row: Row,
) -> Result<Table, Refusal>
    requires d_le_max_dimensions { d ≤ max_dimensions }
    requires lent_in_bounds { 2 * lent ≤ length words.old }
    requires lent_in_bounds_2 { lent ≤ length entries.old }
    requires row_fits { RowFits row }
    requires spares { Spares row }
    requires kept { Kept d words.old entries.old table }
    ensures { (rows : List Row) → TableStands d words.old entries.old table rows → AppliedAs d (apply_put (row_kind d) (bounds_for lent) row rows) result words.new entries.new }
{
    let id = row.id;
    let out = take_out(d, words, entries, table, id.0);
    let tree = table.tree;
    let count = tree.count;
    let size = out.size + layout::record_length(d, row.caption_length);
    if Config::MAX_RECORDS <= count {
        return Err(Refusal::StorageLimits);
    }
    if Config::MAX_SNAPSHOT_BYTES < layout::HEADER_LENGTH + layout::CRC_LENGTH + size {
        return Err(Refusal::StorageLimits);
    }
    if lent <= count {
        return Err(Refusal::TooFewRows);
    }
    let tree = tree::put(words, entries, tree, out.cell, id.0, row.pack());
    Ok(Table { tree, size })
}

// A delete marks the live row of its ID. Of an inactive ID it is 29 in a single frame, and does nothing in a batch.
fn remove_row(
    d: usize,
    shape: Shape,
    words: &mut [u64],
    entries: &[u32],
    table: Table,
    id: Id,
) -> Result<Table, Refusal>
    requires { Kept d words.old entries.now table }
    ensures { (rows : List Row) → TableStands d words.old entries.now table rows → AppliedAs d (apply_remove (row_kind d) shape id.0 rows) result words.new entries.now }
{
    let out = take_out(d, words, entries, table, id.0);
    let tree = table.tree;
    let size = out.size;
    if 0 < out.link {
        return Ok(Table { tree, size });
    }
    match shape {
        Shape::Single => Err(Refusal::InactiveDelete),
        Shape::Batch => Ok(Table { tree, size }),
    }
}

// One operation that was accepted.
fn apply_operation(
    d: usize,
    lent: usize,
    shape: Shape,
    words: &mut [u64],
    entries: &mut [u32],
    table: Table,
    operation: Operation,
) -> Result<Table, Refusal>
    requires d_le_max_dimensions { d ≤ max_dimensions }
    requires lent_in_bounds { 2 * lent ≤ length words.old }
    requires lent_in_bounds_2 { lent ≤ length entries.old }
    requires applicable { Applicable operation }
    requires kept { Kept d words.old entries.old table }
    ensures { (x : Replays.Operation Row) (rows : List Row) → operation ≡ operation_as x → TableStands d words.old entries.old table rows → AppliedAs d (apply_one (row_kind d) (bounds_for lent) shape x rows) result words.new entries.new }
{
    match operation {
        Operation::Put(row) => put_row(d, lent, words, entries, table, row),
        Operation::Remove(id) => remove_row(d, shape, words, entries, table, id),
    }
}

// n operations from `at` on, each behind its tag, read again where they lie.
fn apply_batch(
    config: Config,
    log: &[u8],
    end: usize,
    n: usize,
    at: usize,
    lent: usize,
    words: &mut [u64],
    entries: &mut [u32],
    table: Table,
) -> Result<Table, Refusal>
    requires dimensions_le_max_dimensions { config.dimensions ≤ max_dimensions }
    requires log_len_bound { length log.now ≤ max_log_bytes }
    requires end_in_bounds { end ≤ length log.now }
    requires stored_all { StoredAll (operations_at n config log.now end at) }
    requires lent_in_bounds { 2 * lent ≤ length words.old }
    requires lent_in_bounds_2 { lent ≤ length entries.old }
    requires kept { Kept config.dimensions words.old entries.old table }
    ensures { (x : Meant.ReadOperations) (rows : List Row) → operations_at n config log.now end at ≡ Ok x → TableStands config.dimensions words.old entries.old table rows → AppliedAs config.dimensions (apply_all (row_kind config.dimensions) (bounds_for lent) Batch x.operations rows) result words.new entries.new }
{
    let d = config.dimensions;
    let mut kept = table;
    let mut next = at;
    for _ in 0..n {
        let read = store_log::stored_operation(config, log, end, log[next], next + 1);
        kept = apply_operation(d, lent, Shape::Batch, words, entries, kept, read.operation)?;
        next = read.next;
    }
    Ok(kept)
}

// Internal: the frame was read there, in a log within its bound; the tables have room for the rows lent, and rows stand in them.
// The operations of a frame, in order.
pub fn apply_frame(
    config: Config,
    log: &[u8],
    lent: usize,
    frame: Frame,
    words: &mut [u64],
    entries: &mut [u32],
    table: Table,
) -> Result<Table, Refusal>
    requires dimensions_le_max_dimensions { config.dimensions ≤ max_dimensions }
    requires log_len_bound { length log.now ≤ max_log_bytes }
    requires lent_in_bounds { 2 * lent ≤ length words.old }
    requires lent_in_bounds_2 { lent ≤ length entries.old }
    requires frame_there { FrameThere config log.now frame }
    requires kept { Kept config.dimensions words.old entries.old table }
    ensures { (f : Replays.Frame Row) (rows : List Row) → IsFrame config log.now frame f → TableStands config.dimensions words.old entries.old table rows → AppliedAs config.dimensions (apply_all (row_kind config.dimensions) (bounds_for lent) f.shape f.operations rows) result words.new entries.new }
{
    let d = config.dimensions;
    let start = frame.start;
    let first = start + 17;
    let end = frame.next - layout::CRC_LENGTH;
    let shape = frame.shape;
    match shape {
        Shape::Single => {
            let read = store_log::stored_operation(config, log, end, log[start + 8], first);
            apply_operation(
                d,
                lent,
                Shape::Single,
                words,
                entries,
                table,
                read.operation,
            )
        }
        Shape::Batch => apply_batch(
            config,
            log,
            end,
            frame.operations,
            first + 4,
            lent,
            words,
            entries,
            table,
        ),
    }
}
