// Frames and batches, written. Every test comes before the first store, since a refused call changes no byte; then each operation
// is written into the rest of the lent output. The definitions are those of `meaning`, whose parts are the code's;
// specs/Requests.antt says what an operation is written as.
// Coordinates come as the bits of their f32: a NaN that is made an f32 need not keep its bits.
#![tactic(auto)]

ghost use Rattle.std.specs.Prelude.{◌≡◌, true, ◌∷◌, suc, ◌+◌, ◌*◌, ◌/◌, ◌≤◌, length};
ghost use Rattle.coordinates.specs.Coordinates.{coordinate_bytes};
ghost use Rattle.config.specs.Limits.{max_dimensions, max_metadata, max_batch_operations};
ghost use Rattle.layout.specs.Layout.{id_length, item_length, batch_head};
ghost use Rattle.fields.specs.Placed.{placed};
ghost use Rattle.rows.specs.Rows.{OperationFits, operation_of};
ghost use Rattle.refusal.specs.Refusal.{passes, size_told, written_told};
ghost use Rattle.meaning.specs.Encoder.{asked, put_count, put_fields, put_for, encode_operation as encode_one, encode_all, tagged_bytes, payload_bytes, words_checked, encode_operations, encode_valid};
ghost use Rattle.meaning.specs.Calls.{output_after, encode_call};
ghost use Rattle.encoder.specs.Requests.{taken as taken_by, tag_of, fields_of, tagged_length, caption_told, Fits, head_length, tagged_of, Accepted};

use config::Config;
use layout::Shape;
use refusal::Refusal;
use rows::Operation;

// One operation in a frame of its own.
pub fn encode_frame(
    config: Config,
    sequence: u64,
    operations: &[u64],
    coordinates: &[u32],
    captions: &[u8],
    out: &mut [u8],
) -> Result<usize, Refusal>
    ensures value { result ≡ written_told (encode_call Shape.Single config sequence operations.now coordinates.now captions.now out.old) }
    ensures out_after { out.new ≡ output_after out.old (encode_call Shape.Single config sequence operations.now coordinates.now captions.now out.old) }
{
    encode(
        Shape::Single,
        config,
        sequence,
        operations,
        coordinates,
        captions,
        out,
    )
}

pub fn encode_batch(
    config: Config,
    sequence: u64,
    operations: &[u64],
    coordinates: &[u32],
    captions: &[u8],
    out: &mut [u8],
) -> Result<usize, Refusal>
    ensures value { result ≡ written_told (encode_call Shape.Batch config sequence operations.now coordinates.now captions.now out.old) }
    ensures out_after { out.new ≡ output_after out.old (encode_call Shape.Batch config sequence operations.now coordinates.now captions.now out.old) }
{
    encode(
        Shape::Batch,
        config,
        sequence,
        operations,
        coordinates,
        captions,
        out,
    )
}

// ---- the tests of a request, in document 01's order
#[tactic(auto, unfolding(meaning::specs::Encoder::encode))]
fn encode(
    shape: Shape,
    config: Config,
    sequence: u64,
    operations: &[u64],
    coordinates: &[u32],
    captions: &[u8],
    out: &mut [u8],
) -> Result<usize, Refusal>
    ensures value { result ≡ written_told (encode_call shape config sequence operations.now coordinates.now captions.now out.old) }
    ensures out_after { out.new ≡ output_after out.old (encode_call shape config sequence operations.now coordinates.now captions.now out.old) }
{
    config.validate()?;
    encode_valid(
        shape,
        config,
        sequence,
        operations,
        coordinates,
        captions,
        out,
    )
}

// 24, 25, 33.
#[tactic(auto, unfolding(meaning::specs::Encoder::encode_valid))]
fn encode_valid(
    shape: Shape,
    config: Config,
    sequence: u64,
    operations: &[u64],
    coordinates: &[u32],
    captions: &[u8],
    out: &mut [u8],
) -> Result<usize, Refusal>
    requires { config.dimensions ≤ max_dimensions }
    ensures value { result ≡ written_told (encode_valid shape config sequence operations.now coordinates.now captions.now (length out.old)) }
    ensures out_after { out.new ≡ output_after out.old (encode_valid shape config sequence operations.now coordinates.now captions.now (length out.old)) }
{
    if sequence == 0 {
        return Err(Refusal::WrongSequence);
    }
    check_words(shape, operations.len())?;
    encode_operations(
        shape,
        config,
        sequence,
        operations,
        coordinates,
        captions,
        out,
    )
}

// 33, what the operations refuse, 22, 32; then the payload, and the seal around it.
fn encode_operations(
    shape: Shape,
    config: Config,
    sequence: u64,
    operations: &[u64],
    coordinates: &[u32],
    captions: &[u8],
    out: &mut [u8],
) -> Result<usize, Refusal>
    requires dimensions_le_max_dimensions { config.dimensions ≤ max_dimensions }
    requires operations_value { words_checked shape (length operations.now) ≡ passes }
    ensures value { result ≡ written_told (encode_operations shape config sequence operations.now coordinates.now captions.now (length out.old)) }
    ensures out_after { out.new ≡ output_after out.old (encode_operations shape config sequence operations.now coordinates.now captions.now (length out.old)) }
{
    let d = config.dimensions;
    let puts = put_count(operations);
    if coordinates.len() != d * puts {
        return Err(Refusal::RequestMalformed);
    }
    let n = check_operations(config, operations, coordinates, captions)?;
    let before = head(shape);
    if Config::MAX_FRAME - before < n {
        return Err(Refusal::WrongLength);
    }
    let payload = before + n;
    if out.len() < payload + layout::FRAME_AROUND {
        return Err(Refusal::OutputTooShort);
    }
    write_payload(
        &mut out[layout::FRAME_HEAD..],
        shape,
        config,
        sequence,
        operations,
        coordinates,
        captions,
    );
    frames::seal(out, payload);
    Ok(payload + layout::FRAME_AROUND)
}

// 25, then 33.
fn check_words(shape: Shape, words: usize) -> Result<(), Refusal>
    ensures { result ≡ words_checked shape words }
{
    match shape {
        Shape::Single => check_single(words),
        Shape::Batch => check_batch(words),
    }
}

// A single frame has one operation.
#[tactic(auto, unfolding(meaning::specs::Encoder::words_checked))]
fn check_single(words: usize) -> Result<(), Refusal>
    ensures { result ≡ words_checked Shape.Single words }
{
    if words % 2 != 0 {
        return Err(Refusal::RequestMalformed);
    }
    if words / 2 != 1 {
        return Err(Refusal::RequestMalformed);
    }
    Ok(())
}

#[tactic(auto, unfolding(meaning::specs::Encoder::words_checked))]
fn check_batch(words: usize) -> Result<(), Refusal>
    ensures { result ≡ words_checked Shape.Batch words }
{
    let n = words / 2;
    if n < 1 {
        return Err(Refusal::WrongBatchCount);
    }
    if Config::MAX_BATCH_OPERATIONS < n {
        return Err(Refusal::WrongBatchCount);
    }
    if words % 2 != 0 {
        return Err(Refusal::RequestMalformed);
    }
    Ok(())
}

fn head(shape: Shape) -> usize
    ensures { (result ≡ head_length shape) × (result ≤ batch_head) }
{
    match shape {
        Shape::Single => layout::SEQUENCE_LENGTH,
        Shape::Batch => layout::BATCH_HEAD,
    }
}

fn put_count(operations: &[u64]) -> usize
    ensures value { result ≡ put_count (asked operations.now) }
    ensures upper_bound { result ≤ length operations.now / 2 }
{
    let mut count = 0;
    for k in 0..operations.len() / 2 {
        let o = rows::operation_at(operations, k);
        count += taken(o.put, 1);
    }
    count
}

fn taken(put: bool, n: usize) -> usize
    ensures { (result ≡ taken_by put n) × (result ≤ n) }
{
    if put { n } else { 0 }
}

// ---- the tests of the operations: how many bytes they are written as
fn check_operations(
    config: Config,
    operations: &[u64],
    coordinates: &[u32],
    captions: &[u8],
) -> Result<usize, Refusal>
    requires dimensions_le_max_dimensions { config.dimensions ≤ max_dimensions }
    requires operations_len_bound { length operations.now / 2 ≤ max_batch_operations }
    requires coordinates_len { length coordinates.now ≡ config.dimensions * put_count (asked operations.now) }
    ensures { result ≡ size_told (λ es. length (tagged_bytes es)) (encode_all config coordinates.now captions.now (asked operations.now)) }
{
    let d = config.dimensions;
    let mut sum = 0;
    let mut at = 0;
    for k in 0..operations.len() / 2 {
        let o = rows::operation_at(operations, k);
        let word = operations[2 * k + 1];
        sum += check_operation(config, o, word, &coordinates[at..], captions)?;
        at += taken(o.put, d);
    }
    Ok(sum)
}

// A delete's 33, or what a put refuses.
#[tactic(auto, unfolding(meaning::specs::Encoder::encode_delete))]
fn check_operation(
    config: Config,
    o: Operation,
    word: u64,
    coordinates: &[u32],
    captions: &[u8],
) -> Result<usize, Refusal>
    requires dimensions_le_max_dimensions { config.dimensions ≤ max_dimensions }
    requires o_value { o ≡ operation_of o.id.0 word }
    requires dimensions_in_bounds { o.put ≡ true → config.dimensions ≤ length coordinates.now }
    ensures { result ≡ size_told tagged_length (encode_one config coordinates.now captions.now (record { id = o.id.0; word = word })) }
{
    if o.put {
        let d = config.dimensions;
        return check_put(config, o, &coordinates[..d], captions);
    }
    if word != 0 {
        return Err(Refusal::RequestMalformed);
    }
    Ok(layout::DELETE_LENGTH)
}

// 14, 33, 12, 13, 15.
fn check_put(
    config: Config,
    o: Operation,
    coordinates: &[u32],
    captions: &[u8],
) -> Result<usize, Refusal>
    requires operation_fits { OperationFits o }
    requires coordinates_len { length coordinates.now ≡ config.dimensions }
    requires dimensions_le_max_dimensions { config.dimensions ≤ max_dimensions }
    ensures { result ≡ size_told tagged_length (put_for config coordinates.now captions.now o.id.0 o.caption_length o.at) }
{
    let n = o.caption_length;
    let start = o.at;
    if config.caption_limit() < n {
        return Err(Refusal::CaptionTooLong);
    }
    let end = start + n;
    if captions.len() < end {
        return Err(Refusal::RequestMalformed);
    }
    coordinates::check_bits(coordinates, config.metric.is_cosine())?;
    check_caption(&captions[start..end], coordinates.len())
}

fn check_caption(caption: &[u8], d: usize) -> Result<usize, Refusal>
    requires caption_len_bound { length caption.now ≤ max_metadata }
    requires d_le_max_dimensions { d ≤ max_dimensions }
    ensures { result ≡ caption_told d caption.now }
{
    if !utf8::is_utf8(caption) {
        return Err(Refusal::NotUtf8);
    }
    Ok(layout::record_length(d, caption.len()))
}

// ---- what is written once nothing is refused
fn write_payload(
    out: &mut [u8],
    shape: Shape,
    config: Config,
    sequence: u64,
    operations: &[u64],
    coordinates: &[u32],
    captions: &[u8],
)
    requires accepted { Accepted config operations.now coordinates.now captions.now }
    requires operations_value { words_checked shape (length operations.now) ≡ passes }
    requires captions_in_bounds { length (payload_bytes shape sequence (tagged_of config operations.now coordinates.now captions.now)) ≤ length out.old }
    ensures { out.new ≡ placed 0 (payload_bytes shape sequence (tagged_of config operations.now coordinates.now captions.now)) out.old }
{
    match shape {
        Shape::Single => write_single(out, config, sequence, operations, coordinates, captions),
        Shape::Batch => write_batch(out, config, sequence, operations, coordinates, captions),
    }
}

fn write_single(
    out: &mut [u8],
    config: Config,
    sequence: u64,
    operations: &[u64],
    coordinates: &[u32],
    captions: &[u8],
)
    requires accepted { Accepted config operations.now coordinates.now captions.now }
    requires operations_len { length operations.now ≡ 2 }
    requires captions_in_bounds { length (payload_bytes Shape.Single sequence (tagged_of config operations.now coordinates.now captions.now)) ≤ length out.old }
    ensures { out.new ≡ placed 0 (payload_bytes Shape.Single sequence (tagged_of config operations.now coordinates.now captions.now)) out.old }
{
    let o = rows::operation_at(operations, 0);
    frames::write_opcode(out, tag(o.put), sequence);
    write_fields(
        &mut out[layout::OPCODE_AND_SEQUENCE..],
        config,
        o,
        coordinates,
        captions,
    );
}

fn write_batch(
    out: &mut [u8],
    config: Config,
    sequence: u64,
    operations: &[u64],
    coordinates: &[u32],
    captions: &[u8],
)
    requires accepted { Accepted config operations.now coordinates.now captions.now }
    requires operations_len_bound { length operations.now / 2 ≤ max_batch_operations }
    requires captions_in_bounds { length (payload_bytes Shape.Batch sequence (tagged_of config operations.now coordinates.now captions.now)) ≤ length out.old }
    ensures { out.new ≡ placed 0 (payload_bytes Shape.Batch sequence (tagged_of config operations.now coordinates.now captions.now)) out.old }
{
    frames::write_opcode(out, 3, sequence);
    fields::put_u32(
        out,
        layout::OPCODE_AND_SEQUENCE,
        (operations.len() / 2) as u32,
    );
    write_operations(
        &mut out[layout::BATCH_HEAD..],
        config,
        operations,
        coordinates,
        captions,
    );
}

fn write_operations(
    out: &mut [u8],
    config: Config,
    operations: &[u64],
    coordinates: &[u32],
    captions: &[u8],
)
    requires accepted { Accepted config operations.now coordinates.now captions.now }
    requires captions_in_bounds { length (tagged_bytes (tagged_of config operations.now coordinates.now captions.now)) ≤ length out.old }
    ensures { out.new ≡ placed 0 (tagged_bytes (tagged_of config operations.now coordinates.now captions.now)) out.old }
{
    let d = config.dimensions;
    let mut at = 0;
    let mut from = 0;
    for k in 0..operations.len() / 2 {
        let o = rows::operation_at(operations, k);
        at += write_operation(&mut out[at..], config, o, &coordinates[from..], captions);
        from += taken(o.put, d);
    }
}

// An operation of a batch: its tag, then its fields. The answer is how many bytes.
fn write_operation(
    out: &mut [u8],
    config: Config,
    o: Operation,
    coordinates: &[u32],
    captions: &[u8],
) -> usize
    requires dimensions_le_max_dimensions { config.dimensions ≤ max_dimensions }
    requires fits { Fits config.dimensions coordinates.now captions.now o }
    requires o_in_bounds { suc (length (fields_of config.dimensions coordinates.now captions.now o)) ≤ length out.old }
    ensures value { result ≡ suc (length (fields_of config.dimensions coordinates.now captions.now o)) }
    ensures out_after { out.new ≡ placed 0 (tag_of o.put ∷ fields_of config.dimensions coordinates.now captions.now o) out.old }
{
    fields::put_u8(out, 0, tag(o.put));
    1 + write_fields(&mut out[1..], config, o, coordinates, captions)
}

fn tag(put: bool) -> u8
    ensures { result ≡ tag_of put }
{
    if put { 1 } else { 2 }
}

// The fields of a put or a delete. The answer is how many bytes.
fn write_fields(
    out: &mut [u8],
    config: Config,
    o: Operation,
    coordinates: &[u32],
    captions: &[u8],
) -> usize
    requires dimensions_le_max_dimensions { config.dimensions ≤ max_dimensions }
    requires fits { Fits config.dimensions coordinates.now captions.now o }
    requires o_in_bounds { length (fields_of config.dimensions coordinates.now captions.now o) ≤ length out.old }
    ensures value { result ≡ length (fields_of config.dimensions coordinates.now captions.now o) }
    ensures out_after { out.new ≡ placed 0 (fields_of config.dimensions coordinates.now captions.now o) out.old }
{
    let id = o.id.0;
    if o.put {
        let d = config.dimensions;
        let n = o.caption_length;
        let stop = o.at + n;
        write_put(out, id, &coordinates[..d], &captions[o.at..stop]);
        return layout::ID_LENGTH + layout::item_length(d, n);
    }
    fields::put_u64(out, 0, id);
    layout::ID_LENGTH
}

// ID, coordinates, caption length, caption.
fn write_put(out: &mut [u8], id: u64, coordinates: &[u32], caption: &[u8])
    requires caption_len_bound { length caption.now ≤ max_metadata }
    requires caption_in_bounds { id_length + item_length (length coordinates.now) (length caption.now) ≤ length out.old }
    ensures { out.new ≡ placed 0 (put_fields id coordinates.now (length caption.now) caption.now) out.old }
{
    fields::put_u64(out, 0, id);
    write_coordinates(&mut out[layout::ID_LENGTH..], coordinates);
    let at = layout::ID_LENGTH + 4 * coordinates.len();
    fields::put_u32(out, at, caption.len() as u32);
    let rest = at + 4;
    fields::copy(&mut out[rest..], caption);
}

fn write_coordinates(out: &mut [u8], coordinates: &[u32])
    requires { 4 * length coordinates.now ≤ length out.old }
    ensures { out.new ≡ placed 0 (coordinate_bytes coordinates.now) out.old }
{
    for i in 0..coordinates.len() {
        fields::put_u32(out, 4 * i, coordinates[i]);
    }
}
