// A log, read: one operation, one frame. Every operation of a frame is decoded before anything is applied, and nothing is kept
// of a batch but how many operations it has: whoever applies them reads them again where they lie.
// The definitions are those of `meaning` (Log); specs/Told.antt says how an answer tells them.
#![tactic(auto)]

ghost use Rattle.std.specs.Prelude.{◌≡◌, ◌+◌, ◌≤◌, length, Ok};
ghost use Rattle.crc32.specs.Steps.{Rows};
ghost use Rattle.config.specs.Limits.{min_frame, max_dimensions};
ghost use Rattle.layout.specs.Layout.{item_length, frame_length};
ghost use Rattle.meaning.specs.Calls.{frame_call, id_offset, operation_within, operation_call};
ghost use Rattle.meaning.specs.Log.{put_row, operation_at, operations_at, batch_at, operations_of, shape_of, out_of_order, decoded_at, frame_read, frame_at};
ghost use Rattle.store_log.specs.Stored.{Stored};
ghost use Rattle.store_log.specs.Told.{operation_read, operation_told, next_told, nexts_told, operation_count, frame_told};

use config::Config;
use layout::Shape;
use refusal::Refusal;
use rows::{Id, Row};

#[derive(Clone, Copy)]
pub enum Operation {
    Put(Row),
    Remove(Id),
}

// An operation, and where the next one begins.
#[derive(Clone, Copy)]
pub struct ReadOperation {
    pub operation: Operation,
    pub next: usize,
}

// `operations` is how many; `next` is the byte behind the frame.
#[derive(Clone, Copy)]
pub struct Frame {
    pub start: usize,
    pub sequence: u64,
    pub shape: Shape,
    pub operations: usize,
    pub next: usize,
}

// A put whose ID stands at `at` and whose caption has n bytes.
fn put_at(config: Config, log: &[u8], at: usize, n: usize) -> ReadOperation
    requires dimensions_le_max_dimensions { config.dimensions ≤ max_dimensions }
    requires n_in_bounds { at + 8 + item_length config.dimensions n ≤ length log.now }
    requires n_bound { n ≤ 4294967295 }
    ensures { result ≡ operation_read (put_row config log.now at n) }
{
    let d = config.dimensions;
    let id = Id(fields::get_u64(log, at));
    let first = at + 8;
    let row = Row {
        id,
        deleted: false,
        from_log: true,
        caption_length: n,
        at: first,
    };
    ReadOperation {
        operation: Operation::Put(row),
        next: first + layout::item_length(d, n),
    }
}

// Internal: the settings are valid, `at` is not past `end`, nor `end` past the log's end.
// One operation by its tag, whose ID stands at `at`.
#[tactic(auto, unfolding(meaning::specs::Log::operation_at))]
pub fn read_operation(
    config: Config,
    log: &[u8],
    end: usize,
    tag: u8,
    at: usize,
) -> Result<ReadOperation, Refusal>
    requires dimensions_le_max_dimensions { config.dimensions ≤ max_dimensions }
    requires end_in_bounds { end ≤ length log.now }
    requires at_le_end { at ≤ end }
    ensures { result ≡ operation_told (operation_at config log.now end tag at) }
{
    let start = at + 8;
    if end < start {
        return Err(Refusal::PastTheEnd);
    }
    if tag == 1 {
        let n = items::check_item(Refusal::PastTheEnd, config, log, end, start)?;
        return Ok(put_at(config, log, at, n));
    }
    if tag == 2 {
        let operation = Operation::Remove(Id(fields::get_u64(log, at)));
        return Ok(ReadOperation {
            operation,
            next: start,
        });
    }
    Err(Refusal::UnknownOperation)
}

// Where an operation ends.
fn operation_end(
    config: Config,
    log: &[u8],
    end: usize,
    tag: u8,
    at: usize,
) -> Result<usize, Refusal>
    requires dimensions_le_max_dimensions { config.dimensions ≤ max_dimensions }
    requires end_in_bounds { end ≤ length log.now }
    requires at_le_end { at ≤ end }
    ensures { result ≡ next_told (operation_at config log.now end tag at) }
{
    let read = read_operation(config, log, end, tag, at)?;
    Ok(read.next)
}

// Where n operations end, each behind its tag.
fn check_operations(
    config: Config,
    log: &[u8],
    end: usize,
    n: usize,
    at: usize,
) -> Result<usize, Refusal>
    requires dimensions_le_max_dimensions { config.dimensions ≤ max_dimensions }
    requires end_in_bounds { end ≤ length log.now }
    requires at_le_end { at ≤ end }
    ensures { result ≡ nexts_told (operations_at n config log.now end at) }
{
    let mut next = at;
    for _ in 0..n {
        let first = next + 1;
        if end < first {
            return Err(Refusal::PastTheEnd);
        }
        next = operation_end(config, log, end, log[next], first)?;
    }
    Ok(next)
}

// 25, then the operations. The count's field is there.
#[tactic(auto, unfolding(meaning::specs::Log::batch_at))]
fn check_batch(config: Config, log: &[u8], end: usize, at: usize) -> Result<usize, Refusal>
    requires dimensions_le_max_dimensions { config.dimensions ≤ max_dimensions }
    requires end_in_bounds { end ≤ length log.now }
    requires at_bound { at + 4 ≤ end }
    ensures { result ≡ nexts_told (batch_at config log.now end at) }
{
    let n = fields::get_u32(log, at) as usize;
    let first = at + 4;
    if n < 1 {
        return Err(Refusal::WrongBatchCount);
    }
    if Config::MAX_BATCH_OPERATIONS < n {
        return Err(Refusal::WrongBatchCount);
    }
    if (end - first) / 9 < n {
        return Err(Refusal::WrongBatchCount);
    }
    check_operations(config, log, end, n, first)
}

// 24. No frame bears 0, so that `previous` is 0 before the first.
fn out_of_order(previous: u64, sequence: u64) -> bool
    ensures { result ≡ out_of_order previous sequence }
{
    if sequence == 0 {
        return true;
    }
    if previous == 0 {
        return false;
    }
    sequence - 1 != previous
}

fn shape_of(opcode: u8) -> Shape
    ensures { result ≡ shape_of opcode }
{
    if opcode == 3 {
        return Shape::Batch;
    }
    Shape::Single
}

// Where the operations behind opcode and sequence end.
fn check_body(
    config: Config,
    log: &[u8],
    end: usize,
    shape: Shape,
    opcode: u8,
    at: usize,
) -> Result<usize, Refusal>
    requires dimensions_le_max_dimensions { config.dimensions ≤ max_dimensions }
    requires end_in_bounds { end ≤ length log.now }
    requires at_bound { at + 4 ≤ end }
    ensures { result ≡ nexts_told (operations_of shape config log.now end opcode at) }
{
    match shape {
        Shape::Single => operation_end(config, log, end, opcode, at),
        Shape::Batch => check_batch(config, log, end, at),
    }
}

// How many operations stand behind opcode and sequence.
fn operation_count(log: &[u8], shape: Shape, at: usize) -> usize
    requires { at + 4 ≤ length log.now }
    ensures { result ≡ operation_count shape log.now at }
{
    match shape {
        Shape::Single => 1,
        Shape::Batch => fields::get_u32(log, at) as usize,
    }
}

// The payload of n bytes of the frame at `at`, once its CRC holds: opcode, sequence, 24, every operation, 16.
fn decode(
    config: Config,
    log: &[u8],
    previous: u64,
    at: usize,
    n: usize,
) -> Result<Option<Frame>, Refusal>
    requires dimensions_le_max_dimensions { config.dimensions ≤ max_dimensions }
    requires min_frame_le_n { min_frame ≤ n }
    requires n_in_bounds { at + frame_length n ≤ length log.now }
    ensures { result ≡ frame_told (frame_read (at + frame_length n) (decoded_at config log.now previous at n)) }
{
    let sequence = fields::get_u64(log, at + 9);
    if out_of_order(previous, sequence) {
        return Err(Refusal::WrongSequence);
    }
    let opcode = log[at + 8];
    let shape = shape_of(opcode);
    let first = at + 17;
    let end = at + 8 + n;
    let next = check_body(config, log, end, shape, opcode, first)?;
    if next != end {
        return Err(Refusal::BytesLeftOver);
    }
    Ok(Some(Frame {
        start: at,
        sequence,
        shape,
        operations: operation_count(log, shape, first),
        next: at + (n + layout::FRAME_AROUND),
    }))
}

// Internal: `tables` is what `crc32::tables` gives, the settings are valid, and `at` is a byte of the log or its end.
// What stands at `at`, where the frame before has the sequence `previous`, or 0 where there is none.
pub fn read_frame(
    tables: &[u32; 4096],
    config: Config,
    log: &[u8],
    previous: u64,
    at: usize,
) -> Result<Option<Frame>, Refusal>
    requires rows { Rows 16 tables.now }
    requires dimensions_le_max_dimensions { config.dimensions ≤ max_dimensions }
    requires at_in_bounds { at ≤ length log.now }
    ensures { result ≡ frame_told (frame_at config log.now previous at) }
{
    let Some(n) = frames::read_envelope(log, at)? else {
        return Ok(None);
    };
    if !frames::payload_crc_holds(tables, log, at, n) {
        return Err(Refusal::WrongPayloadCrc);
    }
    decode(config, log, previous, at, n)
}

// A frame for users, as `read_frame` reads it.
#[tactic(auto, using(crate::proofs::FrameLaws::few_of_valid))]
pub fn frame_at(
    config: Config,
    log: &[u8],
    previous: u64,
    at: usize,
) -> Result<Option<Frame>, Refusal>
    ensures { result ≡ frame_told (frame_call config log.now previous at) }
{
    config.validate()?; // 6, 7, 8, then the frame
    valid_frame(config, log, previous, at)
}

// A byte past the log's end has too little. The CRC's tables are made for this call.
#[tactic(auto, unfolding(meaning::specs::Log::frame_at))]
fn valid_frame(
    config: Config,
    log: &[u8],
    previous: u64,
    at: usize,
) -> Result<Option<Frame>, Refusal>
    requires { config.dimensions ≤ max_dimensions }
    ensures { result ≡ frame_told (frame_at config log.now previous at) }
{
    if log.len() < at {
        return Ok(None);
    }
    let tables = crc32::tables();
    read_frame(&tables, config, log, previous, at)
}

// An operation of a frame for users. `shape` is the frame's, `end` the byte behind its operations, and the tag stands at `at`.
#[tactic(auto, using(crate::proofs::FrameLaws::few_of_valid))]
pub fn operation_at(
    config: Config,
    log: &[u8],
    shape: Shape,
    end: usize,
    at: usize,
) -> Result<ReadOperation, Refusal>
    ensures { result ≡ operation_told (operation_call config log.now shape end at) }
{
    config.validate()?; // 6, 7, 8, then the operation
    valid_operation(config, log, shape, end, at)
}

// From an operation's tag to its ID.
fn id_offset(shape: Shape) -> usize
    ensures { (result ≡ id_offset shape) × (1 ≤ result) }
{
    match shape {
        Shape::Single => layout::OPCODE_AND_SEQUENCE,
        Shape::Batch => 1,
    }
}

// Any `end` and any `at` can be handed in.
fn valid_operation(
    config: Config,
    log: &[u8],
    shape: Shape,
    end: usize,
    at: usize,
) -> Result<ReadOperation, Refusal>
    requires { config.dimensions ≤ max_dimensions }
    ensures { result ≡ operation_told (operation_within config log.now shape end at) }
{
    let offset = id_offset(shape);
    if log.len() < end {
        return Err(Refusal::PastTheEnd);
    }
    if end < at {
        return Err(Refusal::PastTheEnd);
    }
    if end - at < offset {
        return Err(Refusal::PastTheEnd);
    }
    read_operation(config, log, end, log[at], at + offset)
}

// Internal: the settings are valid, `end` is not past the log's end, and the operation there was accepted.
// As `read_operation`, with nothing tested again.
pub fn stored_operation(config: Config, log: &[u8], end: usize, tag: u8, at: usize) -> ReadOperation
    requires dimensions_le_max_dimensions { config.dimensions ≤ max_dimensions }
    requires end_in_bounds { end ≤ length log.now }
    requires stored { Stored (operation_at config log.now end tag at) }
    ensures { operation_told (operation_at config log.now end tag at) ≡ Ok result }
{
    let first = at + 8;
    if tag == 1 {
        let n = fields::get_u32(log, first + 4 * config.dimensions) as usize;
        return put_at(config, log, at, n);
    }
    ReadOperation {
        operation: Operation::Remove(Id(fields::get_u64(log, at))),
        next: first,
    }
}
