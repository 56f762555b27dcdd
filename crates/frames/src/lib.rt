// What every frame of a log has, written and read: an opcode and a sequence at its payload's front, and the envelope around the
// payload, which is its length, the CRC of those 4 bytes, and behind it its CRC. The definitions are those of `meaning`;
// specs/Envelope.antt says which envelope stands at a byte of the log.
#![tactic(auto)]

ghost use Rattle.std.specs.Prelude.{◌≡◌, ◌∷◌, ◌++◌, ◌+◌, ◌≤◌, length};
ghost use Rattle.crc32.specs.Steps.{Rows};
ghost use Rattle.config.specs.Limits.{max_frame};
ghost use Rattle.layout.specs.Layout.{frame_head, frame_length};
ghost use Rattle.fields.specs.Fields.{part, bytes};
ghost use Rattle.fields.specs.Placed.{placed};
ghost use Rattle.meaning.specs.Encoder.{frame_bytes};
ghost use Rattle.meaning.specs.Log.{length_at, payload_crc_holds};
ghost use Rattle.frames.specs.Envelope.{payload_in, envelope_at};

use config::Config;
use refusal::Refusal;

// Internal: the caller knows the room. A payload's opcode and sequence.
pub fn write_opcode(out: &mut [u8], opcode: u8, sequence: u64)
    requires { 9 ≤ length out.old }
    ensures { out.new ≡ placed 0 (opcode ∷ bytes 8 sequence) out.old }
{
    fields::put_u8(out, 0, opcode);
    fields::put_u64(out, 1, sequence);
}

// Internal: as `write_opcode`. The payload of a frame of one delete.
pub fn write_delete(out: &mut [u8], sequence: u64, id: u64)
    requires { 17 ≤ length out.old }
    ensures { out.new ≡ placed 0 (2 ∷ (bytes 8 sequence ++ bytes 8 id)) out.old }
{
    write_opcode(out, 2, sequence);
    fields::put_u64(out, layout::OPCODE_AND_SEQUENCE, id);
}

// Internal: a payload of n bytes stands behind the place of its envelope's head.
pub fn seal(out: &mut [u8], n: usize)
    requires n_le_max_frame { n ≤ max_frame }
    requires n_in_bounds { frame_length n ≤ length out.old }
    ensures { out.new ≡ placed 0 (frame_bytes (part out.old frame_head n)) out.old }
{
    let end = n + layout::FRAME_HEAD;
    let whole = crc32::crc32(&out[layout::FRAME_HEAD..end]);
    fields::put_u32(out, 0, n as u32);
    let length = crc32::crc32(&out[..4]);
    fields::put_u32(out, 4, length);
    fields::put_u32(out, end, whole);
}

// Internal: `at` is a byte of the log, or its end.
// What stands there: a payload of so many bytes that is all there with its CRC, a refusal, or nothing where too little is left for a
// frame.
#[tactic(auto, unfolding(crate::specs::Envelope::envelope_at))]
pub fn read_envelope(log: &[u8], at: usize) -> Result<Option<usize>, Refusal>
    requires { at ≤ length log.now }
    ensures { result ≡ envelope_at log.now at }
{
    let left = log.len() - at;
    if left < layout::FRAME_HEAD {
        return Ok(None);
    }
    let n = read_length(log, at)?;
    Ok(within(left, n))
}

// A payload or its CRC that is not all there is a tail.
fn within(left: usize, n: usize) -> Option<usize>
    requires { n ≤ max_frame }
    ensures { result ≡ payload_in left n }
{
    if left < n + layout::FRAME_AROUND {
        return None;
    }
    Some(n)
}

// 21, then 22.
#[tactic(auto, unfolding(meaning::specs::Log::length_at))]
fn read_length(log: &[u8], at: usize) -> Result<usize, Refusal>
    requires { at + frame_head ≤ length log.now }
    ensures { result ≡ length_at log.now at }
{
    let end = at + 4;
    if crc32::crc32(&log[at..end]) != fields::get_u32(log, end) {
        return Err(Refusal::WrongLengthCrc);
    }
    let n = fields::get_u32(log, at) as usize;
    if n < Config::MIN_FRAME {
        return Err(Refusal::WrongLength);
    }
    if Config::MAX_FRAME < n {
        return Err(Refusal::WrongLength);
    }
    Ok(n)
}

// Internal: `tables` is what `crc32::tables` gives, and the frame of n payload bytes at `at` is all there.
// Where this is false the frame is refused by 23.
pub fn payload_crc_holds(tables: &[u32; 4096], log: &[u8], at: usize, n: usize) -> bool
    requires rows { Rows 16 tables.now }
    requires n_in_bounds { at + frame_length n ≤ length log.now }
    ensures { result ≡ payload_crc_holds log.now at n }
{
    let start = at + layout::FRAME_HEAD;
    let end = start + n;
    crc32::crc32_with(tables, &log[start..end]) == fields::get_u32(log, end)
}
