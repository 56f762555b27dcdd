// Little-endian numbers read from bytes and written into lent memory. The definitions are in specs/Fields.antt.
// A reader takes a slice and a cursor by value, and answers the number and the cursor behind it, or `None` where it runs past the end.
#![tactic(auto)]

ghost use Rattle.std.specs.Prelude.{◌≡◌, ◌++◌, ◌+◌, ◌≤◌, ◌<◌, length, take, drop, replicate};
ghost use Rattle.fields.specs.Placed.{placed};
ghost use Rattle.fields.specs.Fields.{num, bytes, field8, field32, field64};

// The sum of a cursor and a width may not fit a usize, so the readers subtract from the length.
#[tactic(auto, using(crate::proofs::Readers::field8_past))]
pub fn read_u8(s: &[u8], at: usize) -> Option<(u8, usize)>
    ensures { result ≡ field8 s.now at }
{
    if s.len() <= at {
        return None;
    }
    Some((s[at], at + 1))
}

#[tactic(auto, using(crate::proofs::Readers::field32_past))]
pub fn read_u32(s: &[u8], at: usize) -> Option<(u32, usize)>
    ensures { result ≡ field32 s.now at }
{
    if s.len() < 4 {
        return None;
    }
    if s.len() - 4 < at {
        return None;
    }
    Some((get_u32(s, at), at + 4))
}

#[tactic(auto, using(crate::proofs::Readers::field64_past))]
pub fn read_u64(s: &[u8], at: usize) -> Option<(u64, usize)>
    ensures { result ≡ field64 s.now at }
{
    if s.len() < 8 {
        return None;
    }
    if s.len() - 8 < at {
        return None;
    }
    Some((get_u64(s, at), at + 8))
}

// Internal: the caller knows the room.
pub fn get_u32(s: &[u8], at: usize) -> u32
    requires { at + 4 ≤ length s.now }
    ensures { result ≡ num s.now at 4 }
{
    wide(s[at]) + wide(s[at + 1]) * 256 + wide(s[at + 2]) * 65536 + wide(s[at + 3]) * 16777216
}

// Internal: the caller knows the room.
pub fn get_u64(s: &[u8], at: usize) -> u64
    requires { at + 8 ≤ length s.now }
    ensures { result ≡ num s.now at 8 }
{
    let low = get_u32(s, at) as u64;
    let high = get_u32(s, at + 4) as u64;
    low + high * 4294967296
}

fn wide(x: u8) -> u32
    ensures { (result ≡ x) × (result < 256) }
{
    x as u32
}

// Internal: the caller knows the room. No byte but the field's is touched; at 0 the number is at the front.
pub fn put_u8(out: &mut [u8], at: usize, v: u8)
    requires { at + 1 ≤ length out.old }
    ensures { out.new ≡ placed at (bytes 1 v) out.old }
{
    out[at] = v;
}

// Internal: as put_u8.
pub fn put_u32(out: &mut [u8], at: usize, v: u32)
    requires { at + 4 ≤ length out.old }
    ensures { out.new ≡ placed at (bytes 4 v) out.old }
{
    let v1 = v / 256;
    let v2 = v1 / 256;
    let v3 = v2 / 256;
    out[at] = (v % 256) as u8;
    out[at + 1] = (v1 % 256) as u8;
    out[at + 2] = (v2 % 256) as u8;
    out[at + 3] = (v3 % 256) as u8;
}

// Internal: as put_u8.
pub fn put_u64(out: &mut [u8], at: usize, v: u64)
    requires { at + 8 ≤ length out.old }
    ensures { out.new ≡ placed at (bytes 8 v) out.old }
{
    let low = (v % 4294967296) as u32;
    let high = (v / 4294967296) as u32;
    put_u32(out, at, low);
    put_u32(out, at + 4, high);
}

// Internal: `src` at the front of `out`, which has room for it.
// Byte by byte, which the compiler makes wide: `copy_from_slice` is a call, and writes a snapshot of 768 dimensions in 1.2 times the time.
pub fn copy(out: &mut [u8], src: &[u8])
    requires { length src.now ≤ length out.old }
    ensures { out.new ≡ placed 0 src.now out.old }
{
    for i in 0..src.len() {
        out[i] = src[i];
    }
}

// Zeros throughout a lent table: what a refused reading leaves.
pub fn fill_zero64(words: &mut [u64])
    ensures { words.new ≡ replicate (length words.old) 0 }
{
    words.fill(0);
}

pub fn fill_zero32(entries: &mut [u32])
    ensures { entries.new ≡ replicate (length entries.old) 0 }
{
    entries.fill(0);
}
