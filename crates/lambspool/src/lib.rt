// The larger door for C: a store of any legal size, read, recovered, looked at and written, by calls that hand on the proved ones.
// A C caller is checked by nothing, so no call has a `requires`. An answer is document 01's number, 0 where nothing is refused, and
// values: specs/Said.antt has both for each case of the answers of the proved calls. Settings are handed over as their numbers:
// specs/Asked.antt. host/ has the C declarations; a result of more than 16 bytes is there a pointer that is passed first.
#![tactic(auto)]

ghost use Rattle.std.specs.Prelude.{◌≡◌, ◌+◌, ◌≤◌, length};
ghost use Rattle.std.specs.Int.Bits.{bit_xor};
ghost use Rattle.crc32.specs.Crc.{all_ones, bytes_in, crc_of};
ghost use Rattle.refusal.specs.Refusal.{written_told};
ghost use Rattle.layout.specs.declared.Extent.TheVariants.{Full, Compacted};
ghost use Rattle.sources.specs.declared.Shown.TheVariants.{Caption, Vector};
ghost use Rattle.meaning.specs.Calls.{read_call, read_tables, recover_call, recover_tables, first_operation, output_after};
ghost use Rattle.meaning.specs.Views.{lookup as lookup_of, view as view_of};
ghost use Rattle.graph.specs.Neighbours.{neighbours as neighbours_of};
ghost use Rattle.graph.specs.Told.{cache_told, starts_after};
ghost use Rattle.snapshot.specs.Told.{read_told};
ghost use Rattle.recovery.specs.Told.{recovery_answer};
ghost use Rattle.store_log.specs.Told.{frame_told, operation_told};
ghost use Rattle.views.specs.Told.{found_told};
ghost use Rattle.listing_text.specs.Listing.{fitted, first_line_call, node_line_call};
ghost use Rattle.lambspool.specs.Lines.{heading, refusal_text};
ghost use Rattle.lambspool.specs.Asked.{settings_of, frame_asked, operation_of, operation_asked, cache_asked, write_asked, encode_asked};
ghost use Rattle.lambspool.specs.Fits.{FrameFits, ChangeFits, OperationFits};
ghost use Rattle.lambspool.specs.Said.{snapshot_said, refused_store, store_said, kind_number, no_frame, frame_said, change_said, operation_said, found_said, entry_said, source_number, part_said, cache_said, neighbours_said, bytes_said};

use config::{Config, Metric};
use graph::{CacheInfo, CachePart};
use layout::{Extent, Shape};
use listing_text::Heading;
use recovery::{NotRecovered, RecoveryInfo};
use refusal::Refusal;
use rows::{Id, Node};
use snapshot::SnapshotInfo;
use sources::Shown;
use store_log::{Operation as LogOperation, ReadOperation};

// What a caller asks of a writer or an encoder in numbers: d, M, ef, the seed, the metric and the sequence.
#[derive(Clone, Copy)]
struct Asked {
    dimensions: usize,
    m: usize,
    ef_construction: usize,
    seed: u64,
    metric: u32,
    sequence: u64,
}

// A snapshot that was read.
#[repr(C)]
#[derive(Clone, Copy)]
pub struct Snapshot {
    pub number: u32,
    pub crc: u32,
    pub metric: u32,
    pub dimensions: usize,
    pub m: usize,
    pub ef_construction: usize,
    pub seed: u64,
    pub sequence: u64,
    pub records: usize,
    pub active: usize,
    pub size: usize,
}

// A store that was recovered. A refusal comes from the snapshot, `source` 0, or from the log, 1, at the byte `at`.
#[repr(C)]
#[derive(Clone, Copy)]
pub struct Store {
    pub number: u32,
    pub source: u32,
    pub crc: u32,
    pub metric: u32,
    pub at: usize,
    pub dimensions: usize,
    pub m: usize,
    pub ef_construction: usize,
    pub seed: u64,
    pub sequence: u64,
    pub records: usize,
    pub active: usize,
    pub replayed: usize,
    pub skipped: usize,
    pub keep: usize,
    pub tail: usize,
    pub size: usize,
}

// A frame of a log; `kind` is 1 for a single frame, 2 for a batch, and 0 where there is none.
#[repr(C)]
#[derive(Clone, Copy)]
pub struct Frame {
    pub number: u32,
    pub kind: u32,
    pub sequence: u64,
    pub operations: usize,
    pub at: usize,
    pub first: usize,
    pub end: usize,
    pub next: usize,
}

// An operation of a frame: `tag` is 1 for a put, 2 for a delete, and the places are bytes of the log.
#[repr(C)]
#[derive(Clone, Copy)]
pub struct Operation {
    pub number: u32,
    pub tag: u32,
    pub id: u64,
    pub vector: usize,
    pub caption: usize,
    pub caption_length: usize,
    pub next: usize,
}

// The lowest live node of an ID; `NO_NODE` where there is none.
#[repr(C)]
#[derive(Clone, Copy)]
pub struct Lookup {
    pub number: u32,
    pub node: u32,
}

// `length` bytes from `at` of the snapshot, 0, or of the log, 1.
#[repr(C)]
#[derive(Clone, Copy)]
pub struct Part {
    pub number: u32,
    pub source: u32,
    pub at: usize,
    pub length: usize,
}

// A cache that was read; its entry is `NO_NODE` where it has none.
#[repr(C)]
#[derive(Clone, Copy)]
pub struct Cache {
    pub number: u32,
    pub entry: u32,
    pub nodes: usize,
    pub rng_state: u64,
}

// `length` bytes from `at` of the cache, 4 for each neighbour.
#[repr(C)]
#[derive(Clone, Copy)]
pub struct Neighbours {
    pub number: u32,
    pub at: usize,
    pub length: usize,
}

// How many bytes stand at the front of the output.
#[repr(C)]
#[derive(Clone, Copy)]
pub struct Bytes {
    pub number: u32,
    pub length: usize,
}

// No table has so many nodes.
const NO_NODE: u32 = 0xffff_ffff;

// ---- CRC

#[unsafe(no_mangle)]
pub extern "C" fn lambspool_crc32_start() -> u32
    ensures { result ≡ all_ones }
{
    crc32::start()
}

#[unsafe(no_mangle)]
pub extern "C" fn lambspool_crc32_update(crc: u32, bytes: &[u8]) -> u32
    ensures { result ≡ bytes_in crc bytes.now }
{
    crc32::part(crc, bytes)
}

#[unsafe(no_mangle)]
pub extern "C" fn lambspool_crc32_finish(crc: u32) -> u32
    ensures { result ≡ bit_xor crc all_ones }
{
    crc32::finish(crc)
}

// The three at once. Not `lambspool_crc32`: `playout` has that name, and a host may link both archives.
#[unsafe(no_mangle)]
pub extern "C" fn lambspool_crc32_of(bytes: &[u8]) -> u32
    ensures { result ≡ crc_of bytes.now }
{
    crc32::crc32(bytes)
}

// ---- a snapshot

fn snapshot_said(answer: Result<SnapshotInfo, Refusal>) -> Snapshot
    ensures { result ≡ snapshot_said answer }
{
    match answer {
        Ok(info) => {
            let config = info.config;
            let metric = config.metric;
            Snapshot {
                number: 0,
                crc: info.crc,
                metric: metric.number(),
                dimensions: config.dimensions,
                m: config.m,
                ef_construction: config.ef_construction,
                seed: config.seed,
                sequence: info.sequence,
                records: info.records,
                active: info.active,
                size: info.size,
            }
        }
        Err(why) => Snapshot {
            number: why.number(),
            crc: 0,
            metric: 0,
            dimensions: 0,
            m: 0,
            ef_construction: 0,
            seed: 0,
            sequence: 0,
            records: 0,
            active: 0,
            size: 0,
        },
    }
}

#[unsafe(no_mangle)]
pub extern "C" fn lambspool_read_snapshot(
    bytes: &[u8],
    rows: &mut [u64],
    active: &mut [u32],
) -> Snapshot
    ensures value { result ≡ snapshot_said (read_told (read_call rows.old active.old bytes.now)) }
    ensures rows_after { rows.new ≡ (read_tables rows.old active.old (read_call rows.old active.old bytes.now)).rows }
    ensures active_after { active.new ≡ (read_tables rows.old active.old (read_call rows.old active.old bytes.now)).active }
{
    snapshot_said(snapshot::read_snapshot(bytes, rows, active))
}

// ---- recovery

fn refused_store(number: u32, source: u32, at: usize) -> Store
    ensures { result ≡ refused_store number source at }
{
    Store {
        number,
        source,
        crc: 0,
        metric: 0,
        at,
        dimensions: 0,
        m: 0,
        ef_construction: 0,
        seed: 0,
        sequence: 0,
        records: 0,
        active: 0,
        replayed: 0,
        skipped: 0,
        keep: 0,
        tail: 0,
        size: 0,
    }
}

fn store_said(answer: Result<RecoveryInfo, NotRecovered>) -> Store
    ensures { result ≡ store_said answer }
{
    match answer {
        Ok(info) => {
            let config = info.config;
            let metric = config.metric;
            Store {
                number: 0,
                source: 0,
                crc: info.crc,
                metric: metric.number(),
                at: 0,
                dimensions: config.dimensions,
                m: config.m,
                ef_construction: config.ef_construction,
                seed: config.seed,
                sequence: info.sequence,
                records: info.records,
                active: info.active,
                replayed: info.replayed,
                skipped: info.skipped,
                keep: info.keep,
                tail: info.tail,
                size: info.size,
            }
        }
        Err(NotRecovered::Snapshot(why)) => refused_store(why.number(), 0, 0),
        Err(NotRecovered::Log(why, at)) => refused_store(why.number(), 1, at),
    }
}

#[unsafe(no_mangle)]
pub extern "C" fn lambspool_recover(
    snapshot: &[u8],
    log: &[u8],
    rows: &mut [u64],
    active: &mut [u32],
) -> Store
    ensures value { result ≡ store_said (recovery_answer log.now (recover_call rows.old active.old snapshot.now log.now)) }
    ensures rows_after { rows.new ≡ (recover_tables rows.old active.old (recover_call rows.old active.old snapshot.now log.now)).rows }
    ensures active_after { active.new ≡ (recover_tables rows.old active.old (recover_call rows.old active.old snapshot.now log.now)).active }
{
    store_said(recovery::recover(snapshot, log, rows, active))
}

// ---- lookup and views

fn found_said(answer: Result<Option<Node>, Refusal>) -> Lookup
    ensures { result ≡ found_said answer }
{
    match answer {
        Ok(Some(node)) => Lookup {
            number: 0,
            node: node.0,
        },
        Ok(None) => Lookup {
            number: 0,
            node: NO_NODE,
        },
        Err(why) => Lookup {
            number: why.number(),
            node: NO_NODE,
        },
    }
}

#[unsafe(no_mangle)]
pub extern "C" fn lambspool_lookup(rows: &[u64], count: usize, id: u64) -> Lookup
    ensures { result ≡ found_said (found_told (lookup_of rows.now count id)) }
{
    found_said(views::lookup(rows, count, Id(id)))
}

fn source_number(from_log: bool) -> u32
    ensures { result ≡ source_number from_log }
{
    if from_log { 1 } else { 0 }
}

fn part_said(answer: Result<sources::Part, Refusal>) -> Part
    ensures { result ≡ part_said answer }
{
    match answer {
        Ok(part) => Part {
            number: 0,
            source: source_number(part.from_log),
            at: part.at,
            length: part.count,
        },
        Err(why) => Part {
            number: why.number(),
            source: 0,
            at: 0,
            length: 0,
        },
    }
}

#[unsafe(no_mangle)]
pub extern "C" fn lambspool_caption(
    snapshot: &[u8],
    log: &[u8],
    rows: &[u64],
    count: usize,
    node: u32,
    d: usize,
) -> Part
    ensures { result ≡ part_said ((view_of Caption d rows.now count node snapshot.now log.now)) }
{
    part_said(views::view(Shown::Caption, snapshot, log, rows, count, Node(node), d))
}

#[unsafe(no_mangle)]
pub extern "C" fn lambspool_vector(
    snapshot: &[u8],
    log: &[u8],
    rows: &[u64],
    count: usize,
    node: u32,
    d: usize,
) -> Part
    ensures { result ≡ part_said ((view_of Vector d rows.now count node snapshot.now log.now)) }
{
    part_said(views::view(Shown::Vector, snapshot, log, rows, count, Node(node), d))
}

// ---- settings

#[tactic(auto, unfolding(crate::specs::Asked::settings_of))]
fn settings(d: usize, m: usize, ef: usize, seed: u64, metric: u32) -> Result<Config, Refusal>
    ensures { result ≡ settings_of d m ef seed metric }
{
    let known = Metric::from_u32(metric)?;
    Ok(Config {
        dimensions: d,
        m,
        ef_construction: ef,
        seed,
        metric: known,
    })
}

// ---- a log, frame by frame

// Too little, or a refusal.
fn no_frame(number: u32) -> Frame
    ensures { result ≡ no_frame number }
{
    Frame {
        number,
        kind: 0,
        sequence: 0,
        operations: 0,
        at: 0,
        first: 0,
        end: 0,
        next: 0,
    }
}

fn kind_number(shape: Shape) -> u32
    ensures { result ≡ kind_number shape }
{
    match shape {
        Shape::Single => 1,
        Shape::Batch => 2,
    }
}

// A frame has 29 bytes at least.
fn first_operation(frame: store_log::Frame) -> usize
    requires { frame.start + 29 ≤ frame.next }
    ensures { result ≡ first_operation frame.shape frame.start }
{
    let start = frame.start;
    let shape = frame.shape;
    match shape {
        Shape::Single => start + layout::FRAME_HEAD,
        Shape::Batch => start + layout::FRAME_HEAD + layout::BATCH_HEAD,
    }
}

fn frame_said(answer: Result<Option<store_log::Frame>, Refusal>) -> Frame
    requires { FrameFits answer }
    ensures { result ≡ frame_said answer }
{
    match answer {
        Ok(None) => no_frame(0),
        Ok(Some(frame)) => {
            let shape = frame.shape;
            Frame {
                number: 0,
                kind: kind_number(shape),
                sequence: frame.sequence,
                operations: frame.operations,
                at: frame.start,
                first: first_operation(frame),
                end: frame.next - layout::CRC_LENGTH,
                next: frame.next,
            }
        }
        Err(why) => no_frame(why.number()),
    }
}

#[unsafe(no_mangle)]
pub extern "C" fn lambspool_frame_at(
    d: usize,
    m: usize,
    ef: usize,
    seed: u64,
    metric: u32,
    log: &[u8],
    previous: u64,
    at: usize,
) -> Frame
    ensures { result ≡ frame_said (frame_told (frame_asked d m ef seed metric log.now previous at)) }
{
    match settings(d, m, ef, seed, metric) {
        Ok(config) => frame_said(store_log::frame_at(config, log, previous, at)),
        Err(why) => frame_said(Err(why)),
    }
}

fn change_said(d: usize, read: ReadOperation) -> Operation
    requires { ChangeFits d read.operation read.next }
    ensures { result ≡ change_said d read.operation read.next }
{
    match read.operation {
        LogOperation::Put(row) => Operation {
            number: 0,
            tag: 1,
            id: row.id.0,
            vector: row.at,
            caption: row.at + layout::caption_offset(d),
            caption_length: row.caption_length,
            next: read.next,
        },
        LogOperation::Remove(id) => Operation {
            number: 0,
            tag: 2,
            id: id.0,
            vector: 0,
            caption: 0,
            caption_length: 0,
            next: read.next,
        },
    }
}

fn operation_said(d: usize, answer: Result<ReadOperation, Refusal>) -> Operation
    requires { OperationFits d answer }
    ensures { result ≡ operation_said d answer }
{
    match answer {
        Ok(read) => change_said(d, read),
        Err(why) => Operation {
            number: why.number(),
            tag: 0,
            id: 0,
            vector: 0,
            caption: 0,
            caption_length: 0,
            next: 0,
        },
    }
}

// A kind that is none is refused behind the settings.
fn operation_of(
    config: Config,
    log: &[u8],
    kind: u32,
    end: usize,
    at: usize,
) -> Result<ReadOperation, Refusal>
    ensures { result ≡ operation_told (operation_of config log.now kind end at) }
{
    if kind == 1 {
        return store_log::operation_at(config, log, Shape::Single, end, at);
    }
    if kind == 2 {
        return store_log::operation_at(config, log, Shape::Batch, end, at);
    }
    config.validate()?;
    Err(Refusal::RequestMalformed)
}

#[unsafe(no_mangle)]
pub extern "C" fn lambspool_operation_at(
    d: usize,
    m: usize,
    ef: usize,
    seed: u64,
    metric: u32,
    log: &[u8],
    kind: u32,
    end: usize,
    at: usize,
) -> Operation
    ensures { result ≡ operation_said d (operation_told (operation_asked d m ef seed metric log.now kind end at)) }
{
    match settings(d, m, ef, seed, metric) {
        Ok(config) => operation_said(d, operation_of(config, log, kind, end, at)),
        Err(why) => operation_said(d, Err(why)),
    }
}

// ---- the graph cache

fn entry_said(entry: Option<Node>) -> u32
    ensures { result ≡ entry_said entry }
{
    match entry {
        Some(node) => node.0,
        None => NO_NODE,
    }
}

fn cache_said(answer: Result<CacheInfo, Refusal>) -> Cache
    ensures { result ≡ cache_said answer }
{
    match answer {
        Ok(info) => {
            let entry = info.entry;
            Cache {
                number: 0,
                entry: entry_said(entry),
                nodes: info.nodes,
                rng_state: info.rng_state,
            }
        }
        Err(why) => Cache {
            number: why.number(),
            entry: NO_NODE,
            nodes: 0,
            rng_state: 0,
        },
    }
}

#[unsafe(no_mangle)]
pub extern "C" fn lambspool_read_cache(
    bytes: &[u8],
    d: usize,
    m: usize,
    ef: usize,
    seed: u64,
    metric: u32,
    crc: u32,
    sequence: u64,
    count: usize,
    starts: &mut [u64],
) -> Cache
    ensures value { result ≡ cache_said (cache_told (cache_asked d m ef seed metric crc sequence count starts.old bytes.now)) }
    ensures starts_after { starts.new ≡ starts_after (length starts.old) (cache_asked d m ef seed metric crc sequence count starts.old bytes.now) }
{
    match settings(d, m, ef, seed, metric) {
        Ok(config) => { cache_said(graph::read_cache(bytes, config, crc, sequence, count, starts)) }
        Err(why) => {
            fields::fill_zero64(starts);
            cache_said(Err(why))
        }
    }
}

fn neighbours_said(answer: Result<CachePart, Refusal>) -> Neighbours
    ensures { result ≡ neighbours_said answer }
{
    match answer {
        Ok(CachePart { at, size }) => Neighbours {
            number: 0,
            at,
            length: size,
        },
        Err(why) => Neighbours {
            number: why.number(),
            at: 0,
            length: 0,
        },
    }
}

#[unsafe(no_mangle)]
pub extern "C" fn lambspool_neighbours(
    cache: &[u8],
    starts: &[u64],
    count: usize,
    node: u32,
    level: usize,
) -> Neighbours
    ensures { result ≡ neighbours_said (neighbours_of cache.now starts.now count node level) }
{
    neighbours_said(graph::neighbours_part(cache, starts, count, Node(node), level))
}

// ---- writing

fn bytes_said(answer: Result<usize, Refusal>) -> Bytes
    ensures { result ≡ bytes_said answer }
{
    match answer {
        Ok(length) => Bytes { number: 0, length },
        Err(why) => Bytes {
            number: why.number(),
            length: 0,
        },
    }
}

// Both writers, with the settings asked: 5 where the metric's number is none, before all else.
fn write_asked<'a>(
    extent: Extent,
    asked: Asked,
    rows: &[u64],
    count: usize,
    snapshot: &'a [u8],
    log: &'a [u8],
    out: &mut [u8],
) -> Result<usize, Refusal>
    ensures value { result ≡ written_told (write_asked extent asked.dimensions asked.m asked.ef_construction asked.seed asked.metric asked.sequence rows.now count snapshot.now log.now out.old) }
    ensures out_after { out.new ≡ output_after out.old (write_asked extent asked.dimensions asked.m asked.ef_construction asked.seed asked.metric asked.sequence rows.now count snapshot.now log.now out.old) }
{
    let sequence = asked.sequence;
    let config = settings(
        asked.dimensions,
        asked.m,
        asked.ef_construction,
        asked.seed,
        asked.metric,
    )?;
    match extent {
        Extent::Full => writer::write_snapshot(config, sequence, rows, count, snapshot, log, out),
        Extent::Compacted => {
            writer::write_compacted_snapshot(config, sequence, rows, count, snapshot, log, out)
        }
    }
}

// Both encoders, as `write_asked`.
fn encode_asked(
    shape: Shape,
    asked: Asked,
    operations: &[u64],
    coordinates: &[u32],
    captions: &[u8],
    out: &mut [u8],
) -> Result<usize, Refusal>
    ensures value { result ≡ written_told (encode_asked shape asked.dimensions asked.m asked.ef_construction asked.seed asked.metric asked.sequence operations.now coordinates.now captions.now out.old) }
    ensures out_after { out.new ≡ output_after out.old (encode_asked shape asked.dimensions asked.m asked.ef_construction asked.seed asked.metric asked.sequence operations.now coordinates.now captions.now out.old) }
{
    let sequence = asked.sequence;
    let config = settings(
        asked.dimensions,
        asked.m,
        asked.ef_construction,
        asked.seed,
        asked.metric,
    )?;
    match shape {
        Shape::Single => {
            encoder::encode_frame(config, sequence, operations, coordinates, captions, out)
        }
        Shape::Batch => {
            encoder::encode_batch(config, sequence, operations, coordinates, captions, out)
        }
    }
}

#[unsafe(no_mangle)]
pub extern "C" fn lambspool_write_snapshot<'a>(
    d: usize,
    m: usize,
    ef: usize,
    seed: u64,
    metric: u32,
    sequence: u64,
    rows: &[u64],
    count: usize,
    snapshot: &'a [u8],
    log: &'a [u8],
    out: &mut [u8],
) -> Bytes
    ensures value { result ≡ bytes_said (written_told (write_asked Full d m ef seed metric sequence rows.now count snapshot.now log.now out.old)) }
    ensures out_after { out.new ≡ output_after out.old (write_asked Full d m ef seed metric sequence rows.now count snapshot.now log.now out.old) }
{
    let asked = Asked {
        dimensions: d,
        m,
        ef_construction: ef,
        seed,
        metric,
        sequence,
    };
    bytes_said(write_asked(Extent::Full, asked, rows, count, snapshot, log, out))
}

#[unsafe(no_mangle)]
pub extern "C" fn lambspool_write_compacted_snapshot<'a>(
    d: usize,
    m: usize,
    ef: usize,
    seed: u64,
    metric: u32,
    sequence: u64,
    rows: &[u64],
    count: usize,
    snapshot: &'a [u8],
    log: &'a [u8],
    out: &mut [u8],
) -> Bytes
    ensures value { result ≡ bytes_said (written_told (write_asked Compacted d m ef seed metric sequence rows.now count snapshot.now log.now out.old)) }
    ensures out_after { out.new ≡ output_after out.old (write_asked Compacted d m ef seed metric sequence rows.now count snapshot.now log.now out.old) }
{
    let asked = Asked {
        dimensions: d,
        m,
        ef_construction: ef,
        seed,
        metric,
        sequence,
    };
    bytes_said(write_asked(Extent::Compacted, asked, rows, count, snapshot, log, out))
}

#[unsafe(no_mangle)]
pub extern "C" fn lambspool_encode_frame(
    d: usize,
    m: usize,
    ef: usize,
    seed: u64,
    metric: u32,
    sequence: u64,
    operations: &[u64],
    coordinates: &[u32],
    captions: &[u8],
    out: &mut [u8],
) -> Bytes
    ensures value { result ≡ bytes_said (written_told (encode_asked Shape.Single d m ef seed metric sequence operations.now coordinates.now captions.now out.old)) }
    ensures out_after { out.new ≡ output_after out.old (encode_asked Shape.Single d m ef seed metric sequence operations.now coordinates.now captions.now out.old) }
{
    let asked = Asked {
        dimensions: d,
        m,
        ef_construction: ef,
        seed,
        metric,
        sequence,
    };
    bytes_said(encode_asked(Shape::Single, asked, operations, coordinates, captions, out))
}

#[unsafe(no_mangle)]
pub extern "C" fn lambspool_encode_batch(
    d: usize,
    m: usize,
    ef: usize,
    seed: u64,
    metric: u32,
    sequence: u64,
    operations: &[u64],
    coordinates: &[u32],
    captions: &[u8],
    out: &mut [u8],
) -> Bytes
    ensures value { result ≡ bytes_said (written_told (encode_asked Shape.Batch d m ef seed metric sequence operations.now coordinates.now captions.now out.old)) }
    ensures out_after { out.new ≡ output_after out.old (encode_asked Shape.Batch d m ef seed metric sequence operations.now coordinates.now captions.now out.old) }
{
    let asked = Asked {
        dimensions: d,
        m,
        ef_construction: ef,
        seed,
        metric,
        sequence,
    };
    bytes_said(encode_asked(Shape::Batch, asked, operations, coordinates, captions, out))
}

// ---- the lines of a listing

#[unsafe(no_mangle)]
pub extern "C" fn lambspool_first_line(
    sequence: u64,
    records: usize,
    active: usize,
    replayed: usize,
    skipped: usize,
    keep: usize,
    tail: usize,
    out: &mut [u8],
) -> Bytes
    ensures value { result ≡ bytes_said (written_told (first_line_call (heading sequence records active replayed skipped keep tail) out.old)) }
    ensures out_after { out.new ≡ output_after out.old (first_line_call (heading sequence records active replayed skipped keep tail) out.old) }
{
    let heading = Heading {
        sequence,
        records,
        active,
        replayed,
        skipped,
        keep,
        tail,
    };
    bytes_said(listing_text::first_line(heading, out))
}

#[unsafe(no_mangle)]
pub extern "C" fn lambspool_refusal_line(
    source: u32,
    number: u32,
    at: usize,
    out: &mut [u8],
) -> Bytes
    ensures value { result ≡ bytes_said (written_told (fitted out.old (refusal_text source number at))) }
    ensures out_after { out.new ≡ output_after out.old (fitted out.old (refusal_text source number at)) }
{
    if source == 0 {
        return bytes_said(listing_text::number_line(b"refused snapshot ", number as u64, out));
    }
    if source == 1 {
        return bytes_said(listing_text::log_line(number as u64, at as u64, out));
    }
    bytes_said(listing_text::number_line(b"refused file ", number as u64, out))
}

#[unsafe(no_mangle)]
pub extern "C" fn lambspool_node_line<'a>(
    snapshot: &'a [u8],
    log: &'a [u8],
    rows: &[u64],
    count: usize,
    node: u32,
    d: usize,
    out: &mut [u8],
) -> Bytes
    ensures value { result ≡ bytes_said (written_told (node_line_call d rows.now count node snapshot.now log.now out.old)) }
    ensures out_after { out.new ≡ output_after out.old (node_line_call d rows.now count node snapshot.now log.now out.old) }
{
    bytes_said(listing_text::node_line(snapshot, log, rows, count, Node(node), d, out))
}
