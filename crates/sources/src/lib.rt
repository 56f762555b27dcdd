// Where a record's bytes lie: a part of the snapshot or of the log, and which part shows a row's caption or vector.
// Definitions: specs/Sources.antt.
#![tactic(auto)]

ghost use Rattle.std.specs.Prelude.{◌≡◌, ◌≤◌, length};
ghost use Rattle.config.specs.Limits.{max_dimensions};
ghost use Rattle.rows.specs.Rows.{RowFits};
ghost use Rattle.sources.specs.Sources.{source_of, bytes_of, start_of, outside as outside_of, Inside, shown_part};

use rows::Row;

// What is shown of a row.
#[derive(Clone, Copy)]
pub enum Shown {
    Caption,
    Vector,
}

// The `count` bytes from `at` of the log, or of the snapshot.
#[derive(Clone, Copy)]
pub struct Part {
    pub from_log: bool,
    pub at: usize,
    pub count: usize,
}

// Internal: d is a valid number of coordinates, and the row's fields keep to their widths.
pub fn shown_part(shown: Shown, d: usize, row: Row) -> Part
    requires d_le_max_dimensions { d ≤ max_dimensions }
    requires row_fits { RowFits row }
    ensures { result ≡ shown_part shown d row }
{
    let from_log = row.from_log;
    match shown {
        Shown::Caption => {
            Part {
                from_log,
                at: row.at + layout::caption_offset(d),
                count: row.caption_length,
            }
        }
        Shown::Vector => {
            Part {
                from_log,
                at: row.at,
                count: 4 * d,
            }
        }
    }
}

fn source_length(snapshot: &[u8], log: &[u8], logged: bool) -> usize
    ensures { result ≡ length (source_of snapshot.now log.now logged) }
{
    if logged { log.len() } else { snapshot.len() }
}

// Internal: whether a part passes its source's end. The sum of its first byte and its length may not fit a usize.
pub fn outside(snapshot: &[u8], log: &[u8], part: Part) -> bool
    ensures { result ≡ outside_of snapshot.now log.now part }
{
    let n = source_length(snapshot, log, part.from_log);
    if n < part.at {
        return true;
    }
    n - part.at < part.count
}

// Internal: the part lies in its source. Its bytes, in place.
pub fn cut<'a>(snapshot: &'a [u8], log: &'a [u8], part: Part) -> &'a [u8]
    requires { Inside snapshot.now log.now part }
    ensures result_value { result.now ≡ bytes_of snapshot.now log.now part }
    ensures ref_ptr_value { result.ref_ptr ≡ start_of snapshot.entry.ref_ptr log.entry.ref_ptr part }
{
    let at = part.at;
    if part.from_log {
        let end = at + part.count;
        return &log[at..end];
    }
    let end = at + part.count;
    &snapshot[at..end]
}
