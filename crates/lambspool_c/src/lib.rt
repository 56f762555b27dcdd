// The larger door under its C names, for an archive: each hands on the call of the crate `lambspool` that has its name, and promises
// what that promises. host/lambspool.h has the C declarations; a result of more than 16 bytes is there a pointer that is passed first.
// A C caller is checked by nothing, so no call has a `requires`.
#![tactic(auto)]

ghost use Rattle.std.specs.Prelude.{◌≡◌, length};
ghost use Rattle.std.specs.Int.Bits.{bit_xor};
ghost use Rattle.crc32.specs.Crc.{all_ones, bytes_in, crc_of};
ghost use Rattle.refusal.specs.Refusal.{written_told};
ghost use Rattle.layout.specs.declared.Extent.TheVariants.{Full, Compacted};
ghost use Rattle.sources.specs.declared.Shown.TheVariants.{Caption, Vector};
ghost use Rattle.meaning.specs.Calls.{read_call, read_tables, recover_call, recover_tables, output_after};
ghost use Rattle.meaning.specs.Views.{lookup as lookup_of, view as view_of};
ghost use Rattle.graph.specs.Neighbours.{neighbours as neighbours_of};
ghost use Rattle.graph.specs.Told.{cache_told, starts_after};
ghost use Rattle.snapshot.specs.Told.{read_told};
ghost use Rattle.recovery.specs.Told.{recovery_answer};
ghost use Rattle.store_log.specs.Told.{frame_told, operation_told};
ghost use Rattle.views.specs.Told.{found_told};
ghost use Rattle.listing_text.specs.Listing.{fitted, first_line_call, node_line_call};
ghost use Rattle.lambspool.specs.Lines.{heading, refusal_text};
ghost use Rattle.lambspool.specs.Asked.{frame_asked, operation_asked, cache_asked, write_asked, encode_asked};
ghost use Rattle.lambspool.specs.Said.{snapshot_said, store_said, frame_said, operation_said, found_said, part_said, cache_said, neighbours_said, bytes_said};

use lambspool::{Bytes, Cache, Frame, Lookup, Neighbours, Operation, Part, Snapshot, Store};
use layout::Shape;

#[unsafe(no_mangle)]
pub extern "C" fn lambspool_crc32_start() -> u32
    ensures { result ≡ all_ones }
{
    lambspool::lambspool_crc32_start()
}

#[unsafe(no_mangle)]
pub extern "C" fn lambspool_crc32_update(crc: u32, bytes: &[u8]) -> u32
    ensures { result ≡ bytes_in crc bytes.now }
{
    lambspool::lambspool_crc32_update(crc, bytes)
}

#[unsafe(no_mangle)]
pub extern "C" fn lambspool_crc32_finish(crc: u32) -> u32
    ensures { result ≡ bit_xor crc all_ones }
{
    lambspool::lambspool_crc32_finish(crc)
}

// The three at once. Not `lambspool_crc32`: `playout` has that name, and a host may link both archives.
#[unsafe(no_mangle)]
pub extern "C" fn lambspool_crc32_of(bytes: &[u8]) -> u32
    ensures { result ≡ crc_of bytes.now }
{
    lambspool::lambspool_crc32_of(bytes)
}

#[unsafe(no_mangle)]
pub extern "C" fn lambspool_read_snapshot(
    bytes: &[u8],
    rows: &mut [u64],
    active: &mut [u32],
) -> Snapshot
    ensures value { result ≡ snapshot_said (read_told (read_call rows.old active.old bytes.now)) }
    ensures rows_after { rows.new ≡ (read_tables rows.old active.old (read_call rows.old active.old bytes.now)).rows }
    ensures active_after { active.new ≡ (read_tables rows.old active.old (read_call rows.old active.old bytes.now)).active }
{
    lambspool::lambspool_read_snapshot(bytes, rows, active)
}

#[unsafe(no_mangle)]
pub extern "C" fn lambspool_recover(
    snapshot: &[u8],
    log: &[u8],
    rows: &mut [u64],
    active: &mut [u32],
) -> Store
    ensures value { result ≡ store_said (recovery_answer log.now (recover_call rows.old active.old snapshot.now log.now)) }
    ensures rows_after { rows.new ≡ (recover_tables rows.old active.old (recover_call rows.old active.old snapshot.now log.now)).rows }
    ensures active_after { active.new ≡ (recover_tables rows.old active.old (recover_call rows.old active.old snapshot.now log.now)).active }
{
    lambspool::lambspool_recover(snapshot, log, rows, active)
}

#[unsafe(no_mangle)]
pub extern "C" fn lambspool_lookup(rows: &[u64], count: usize, id: u64) -> Lookup
    ensures { result ≡ found_said (found_told (lookup_of rows.now count id)) }
{
    lambspool::lambspool_lookup(rows, count, id)
}

#[unsafe(no_mangle)]
pub extern "C" fn lambspool_caption(
    snapshot: &[u8],
    log: &[u8],
    rows: &[u64],
    count: usize,
    node: u32,
    d: usize,
) -> Part
    ensures { result ≡ part_said ((view_of Caption d rows.now count node snapshot.now log.now)) }
{
    lambspool::lambspool_caption(snapshot, log, rows, count, node, d)
}

#[unsafe(no_mangle)]
pub extern "C" fn lambspool_vector(
    snapshot: &[u8],
    log: &[u8],
    rows: &[u64],
    count: usize,
    node: u32,
    d: usize,
) -> Part
    ensures { result ≡ part_said ((view_of Vector d rows.now count node snapshot.now log.now)) }
{
    lambspool::lambspool_vector(snapshot, log, rows, count, node, d)
}

#[unsafe(no_mangle)]
pub extern "C" fn lambspool_frame_at(
    d: usize,
    m: usize,
    ef: usize,
    seed: u64,
    metric: u32,
    log: &[u8],
    previous: u64,
    at: usize,
) -> Frame
    ensures { result ≡ frame_said (frame_told (frame_asked d m ef seed metric log.now previous at)) }
{
    lambspool::lambspool_frame_at(d, m, ef, seed, metric, log, previous, at)
}

#[unsafe(no_mangle)]
pub extern "C" fn lambspool_operation_at(
    d: usize,
    m: usize,
    ef: usize,
    seed: u64,
    metric: u32,
    log: &[u8],
    kind: u32,
    end: usize,
    at: usize,
) -> Operation
    ensures { result ≡ operation_said d (operation_told (operation_asked d m ef seed metric log.now kind end at)) }
{
    lambspool::lambspool_operation_at(d, m, ef, seed, metric, log, kind, end, at)
}

#[unsafe(no_mangle)]
pub extern "C" fn lambspool_read_cache(
    bytes: &[u8],
    d: usize,
    m: usize,
    ef: usize,
    seed: u64,
    metric: u32,
    crc: u32,
    sequence: u64,
    count: usize,
    starts: &mut [u64],
) -> Cache
    ensures value { result ≡ cache_said (cache_told (cache_asked d m ef seed metric crc sequence count starts.old bytes.now)) }
    ensures starts_after { starts.new ≡ starts_after (length starts.old) (cache_asked d m ef seed metric crc sequence count starts.old bytes.now) }
{
    lambspool::lambspool_read_cache(bytes, d, m, ef, seed, metric, crc, sequence, count, starts)
}

#[unsafe(no_mangle)]
pub extern "C" fn lambspool_neighbours(
    cache: &[u8],
    starts: &[u64],
    count: usize,
    node: u32,
    level: usize,
) -> Neighbours
    ensures { result ≡ neighbours_said (neighbours_of cache.now starts.now count node level) }
{
    lambspool::lambspool_neighbours(cache, starts, count, node, level)
}

#[unsafe(no_mangle)]
pub extern "C" fn lambspool_write_snapshot<'a>(
    d: usize,
    m: usize,
    ef: usize,
    seed: u64,
    metric: u32,
    sequence: u64,
    rows: &[u64],
    count: usize,
    snapshot: &'a [u8],
    log: &'a [u8],
    out: &mut [u8],
) -> Bytes
    ensures value { result ≡ bytes_said (written_told (write_asked Full d m ef seed metric sequence rows.now count snapshot.now log.now out.old)) }
    ensures out_after { out.new ≡ output_after out.old (write_asked Full d m ef seed metric sequence rows.now count snapshot.now log.now out.old) }
{
    lambspool::lambspool_write_snapshot(
        d, m, ef, seed, metric, sequence, rows, count, snapshot, log, out,
    )
}

#[unsafe(no_mangle)]
pub extern "C" fn lambspool_write_compacted_snapshot<'a>(
    d: usize,
    m: usize,
    ef: usize,
    seed: u64,
    metric: u32,
    sequence: u64,
    rows: &[u64],
    count: usize,
    snapshot: &'a [u8],
    log: &'a [u8],
    out: &mut [u8],
) -> Bytes
    ensures value { result ≡ bytes_said (written_told (write_asked Compacted d m ef seed metric sequence rows.now count snapshot.now log.now out.old)) }
    ensures out_after { out.new ≡ output_after out.old (write_asked Compacted d m ef seed metric sequence rows.now count snapshot.now log.now out.old) }
{
    lambspool::lambspool_write_compacted_snapshot(
        d, m, ef, seed, metric, sequence, rows, count, snapshot, log, out,
    )
}

#[unsafe(no_mangle)]
pub extern "C" fn lambspool_encode_frame(
    d: usize,
    m: usize,
    ef: usize,
    seed: u64,
    metric: u32,
    sequence: u64,
    operations: &[u64],
    coordinates: &[u32],
    captions: &[u8],
    out: &mut [u8],
) -> Bytes
    ensures value { result ≡ bytes_said (written_told (encode_asked Shape.Single d m ef seed metric sequence operations.now coordinates.now captions.now out.old)) }
    ensures out_after { out.new ≡ output_after out.old (encode_asked Shape.Single d m ef seed metric sequence operations.now coordinates.now captions.now out.old) }
{
    lambspool::lambspool_encode_frame(
        d,
        m,
        ef,
        seed,
        metric,
        sequence,
        operations,
        coordinates,
        captions,
        out,
    )
}

#[unsafe(no_mangle)]
pub extern "C" fn lambspool_encode_batch(
    d: usize,
    m: usize,
    ef: usize,
    seed: u64,
    metric: u32,
    sequence: u64,
    operations: &[u64],
    coordinates: &[u32],
    captions: &[u8],
    out: &mut [u8],
) -> Bytes
    ensures value { result ≡ bytes_said (written_told (encode_asked Shape.Batch d m ef seed metric sequence operations.now coordinates.now captions.now out.old)) }
    ensures out_after { out.new ≡ output_after out.old (encode_asked Shape.Batch d m ef seed metric sequence operations.now coordinates.now captions.now out.old) }
{
    lambspool::lambspool_encode_batch(
        d,
        m,
        ef,
        seed,
        metric,
        sequence,
        operations,
        coordinates,
        captions,
        out,
    )
}

#[unsafe(no_mangle)]
pub extern "C" fn lambspool_first_line(
    sequence: u64,
    records: usize,
    active: usize,
    replayed: usize,
    skipped: usize,
    keep: usize,
    tail: usize,
    out: &mut [u8],
) -> Bytes
    ensures value { result ≡ bytes_said (written_told (first_line_call (heading sequence records active replayed skipped keep tail) out.old)) }
    ensures out_after { out.new ≡ output_after out.old (first_line_call (heading sequence records active replayed skipped keep tail) out.old) }
{
    lambspool::lambspool_first_line(
        sequence, records, active, replayed, skipped, keep, tail, out,
    )
}

#[unsafe(no_mangle)]
pub extern "C" fn lambspool_refusal_line(
    source: u32,
    number: u32,
    at: usize,
    out: &mut [u8],
) -> Bytes
    ensures value { result ≡ bytes_said (written_told (fitted out.old (refusal_text source number at))) }
    ensures out_after { out.new ≡ output_after out.old (fitted out.old (refusal_text source number at)) }
{
    lambspool::lambspool_refusal_line(source, number, at, out)
}

#[unsafe(no_mangle)]
pub extern "C" fn lambspool_node_line<'a>(
    snapshot: &'a [u8],
    log: &'a [u8],
    rows: &[u64],
    count: usize,
    node: u32,
    d: usize,
    out: &mut [u8],
) -> Bytes
    ensures value { result ≡ bytes_said (written_told (node_line_call d rows.now count node snapshot.now log.now out.old)) }
    ensures out_after { out.new ≡ output_after out.old (node_line_call d rows.now count node snapshot.now log.now out.old) }
{
    lambspool::lambspool_node_line(snapshot, log, rows, count, node, d, out)
}
