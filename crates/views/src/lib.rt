// Lookup by ID, and the views: a node's caption or vector as a part of the snapshot or of the log, in place.
// The definitions are those of `meaning` (Views); specs/Told.antt says how an answer tells them.
#![tactic(auto)]

ghost use Rattle.std.specs.Prelude.{◌≡◌, ◌≤◌};
ghost use Rattle.config.specs.Limits.{max_dimensions};
ghost use Rattle.refusal.specs.Refusal.{number_told};
ghost use Rattle.rows.specs.Lent.{rows_lent_plain};
ghost use Rattle.rows.specs.Rows.{RowFits};
ghost use Rattle.sources.specs.Sources.{bytes_of, start_of};
ghost use Rattle.sources.specs.declared.Shown.TheVariants.{Caption, Vector};
ghost use Rattle.meaning.specs.Replay.{live_as};
ghost use Rattle.meaning.specs.Records.{row_kind};
ghost use Rattle.meaning.specs.Tables.{rows_in};
ghost use Rattle.meaning.specs.Views.{find_from, lookup as lookup_of, row_for, part_for, view as view_of, given};
ghost use Rattle.views.specs.Told.{found, found_told};

use config::Config;
use refusal::Refusal;
use rows::{Id, Node, Row};
use sources::{Part, Shown};

fn live_as(row: Row, id: Id) -> bool
    ensures { result ≡ live_as (row_kind 0) id.0 row }
{
    !row.deleted && row.id.0 == id.0
}

// The rows below the count are lent.
#[tactic(auto, using(crate::proofs::FindLaws::find_here, crate::proofs::FindLaws::find_next, crate::proofs::FindLaws::find_none))]
fn find(rows: &[u64], count: usize, id: Id) -> Option<Node>
    requires { count ≤ rows_lent_plain rows.now }
    ensures { result ≡ found (find_from id.0 0 (rows_in count rows.now)) }
{
    for i in 0..count {
        let node = Node(i as u32);
        if live_as(rows::row_at(rows, node), id) {
            return Some(node);
        }
    }
    None
}

// The lowest live node of an ID below the count, or none.
#[tactic(auto, unfolding(meaning::specs::Views::lookup))]
pub fn lookup(rows: &[u64], count: usize, id: Id) -> Result<Option<Node>, Refusal>
    ensures { result ≡ found_told (lookup_of rows.now count id.0) }
{
    if rows::rows_lent_plain(rows) < count {
        return Err(Refusal::NoSuchNode);
    }
    Ok(find(rows, count, id))
}

// What both views test before they look at the sources: 6, then 30.
#[tactic(auto, unfolding(meaning::specs::Views::row_for))]
fn row_for(rows: &[u64], count: usize, node: Node, d: usize) -> Result<Row, Refusal>
    ensures { result ≡ row_for d rows.now count node.0 }
{
    let n = node.0 as usize;
    if d < Config::MIN_DIMENSIONS || Config::MAX_DIMENSIONS < d {
        return Err(Refusal::WrongDimensions);
    }
    if count <= n || rows::rows_lent_plain(rows) < count {
        return Err(Refusal::NoSuchNode);
    }
    Ok(rows::row_at(rows, node))
}

// 31.
#[tactic(auto, unfolding(meaning::specs::Views::part_for))]
fn part_for(shown: Shown, d: usize, row: Row, snapshot: &[u8], log: &[u8]) -> Result<Part, Refusal>
    requires d_le_max_dimensions { d ≤ max_dimensions }
    requires row_fits { RowFits row }
    ensures { result ≡ part_for shown d snapshot.now log.now row }
{
    let part = sources::shown_part(shown, d, row);
    if sources::outside(snapshot, log, part) {
        return Err(Refusal::RowDoesNotFit);
    }
    Ok(part)
}

// Where the caption or the vector lies: for a caller that cannot be handed a slice, and for the views below.
#[tactic(auto, using(crate::proofs::ViewLaws::row_small), unfolding(meaning::specs::Views::view))]
pub fn view(
    shown: Shown,
    snapshot: &[u8],
    log: &[u8],
    rows: &[u64],
    count: usize,
    node: Node,
    d: usize,
) -> Result<Part, Refusal>
    ensures { result ≡ view_of shown d rows.now count node.0 snapshot.now log.now }
{
    let row = row_for(rows, count, node, d)?;
    part_for(shown, d, row, snapshot, log)
}

// Where the view refuses, the empty part at the snapshot's start.
fn part_given(seen: Result<Part, Refusal>) -> Part
    ensures { result ≡ given seen }
{
    seen.unwrap_or(Part {
        from_log: false,
        at: 0,
        count: 0,
    })
}

fn number_told(seen: Result<Part, Refusal>) -> u32
    ensures { result ≡ number_told seen }
{
    match seen {
        Ok(_) => 0,
        Err(why) => why.number(),
    }
}

// The caption's bytes where they lie; where it refuses, the empty part at the snapshot's start. `caption_number` tells the number.
#[tactic(auto, using(crate::proofs::ViewLaws::given_inside))]
pub fn caption_view<'a>(
    snapshot: &'a [u8],
    log: &'a [u8],
    rows: &[u64],
    count: usize,
    node: Node,
    d: usize,
) -> &'a [u8]
    ensures result_value { result.now ≡ bytes_of snapshot.now log.now (given (view_of Caption d rows.now count node.0 snapshot.now log.now)) }
    ensures ref_ptr_value { result.ref_ptr ≡ start_of snapshot.entry.ref_ptr log.entry.ref_ptr (given (view_of Caption d rows.now count node.0 snapshot.now log.now)) }
{
    let part = part_given(view(Shown::Caption, snapshot, log, rows, count, node, d));
    sources::cut(snapshot, log, part)
}

// 0 where nothing is refused.
pub fn caption_number(
    snapshot: &[u8],
    log: &[u8],
    rows: &[u64],
    count: usize,
    node: Node,
    d: usize,
) -> u32
    ensures { result ≡ number_told (view_of Caption d rows.now count node.0 snapshot.now log.now) }
{
    number_told(view(Shown::Caption, snapshot, log, rows, count, node, d))
}

// The vector's coordinate bytes where they lie, as `caption_view`. `vector_number` tells the number.
#[tactic(auto, using(crate::proofs::ViewLaws::given_inside))]
pub fn vector_view<'a>(
    snapshot: &'a [u8],
    log: &'a [u8],
    rows: &[u64],
    count: usize,
    node: Node,
    d: usize,
) -> &'a [u8]
    ensures result_value { result.now ≡ bytes_of snapshot.now log.now (given (view_of Vector d rows.now count node.0 snapshot.now log.now)) }
    ensures ref_ptr_value { result.ref_ptr ≡ start_of snapshot.entry.ref_ptr log.entry.ref_ptr (given (view_of Vector d rows.now count node.0 snapshot.now log.now)) }
{
    let part = part_given(view(Shown::Vector, snapshot, log, rows, count, node, d));
    sources::cut(snapshot, log, part)
}

// 0 where nothing is refused.
pub fn vector_number(
    snapshot: &[u8],
    log: &[u8],
    rows: &[u64],
    count: usize,
    node: Node,
    d: usize,
) -> u32
    ensures { result ≡ number_told (view_of Vector d rows.now count node.0 snapshot.now log.now) }
{
    number_told(view(Shown::Vector, snapshot, log, rows, count, node, d))
}
