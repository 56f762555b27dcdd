// The CRC-32 of IEEE 802.3, proved equal to its bit-serial definition, crc_of of specs/Crc.antt.
// `crc32` and `part` make what they need for one call; a caller with many short runs makes `tables` once and lends them.
#![tactic(auto)]

ghost use Rattle.std.specs.Prelude.{◌≡◌};
ghost use Rattle.std.specs.Int.Bits.{bit_xor};
ghost use Rattle.crc32.specs.Crc.{all_ones, bytes_in, crc_of};
ghost use Rattle.crc32.specs.Steps.{Rows};

mod constants;
mod eliminated;
mod halves;
mod nibbles;
mod rows;

const ALL_ONES: u32 = 0xffff_ffff;

// From here on elimination pays: it ends with 2400 bytes by the table.
const LONG: usize = 4096;

#[tactic(auto, unfolding(crate::specs::Crc::crc_of))]
pub fn crc32(bytes: &[u8]) -> u32
    ensures { result ≡ crc_of bytes.now }
{
    finish(part(start(), bytes))
}

// A CRC over several parts: `start`, a `part` for each in turn, `finish`.
pub fn start() -> u32
    ensures { result ≡ all_ones }
{
    ALL_ONES
}

// (`long` gets a slice made anew: one handed on as it came is copied whole on entry, and even a run of four bytes waits for that,
// 26 ns on an x86-64 machine.)
pub fn part(c: u32, bytes: &[u8]) -> u32
    ensures { result ≡ bytes_in c bytes.now }
{
    if bytes.len() < 16 {
        return nibbles::update(c, bytes, 0);
    }
    if bytes.len() < 384 {
        return halves::update(c, bytes);
    }
    long(c, &bytes[0..])
}

pub fn finish(c: u32) -> u32
    ensures { result ≡ bit_xor c all_ones }
{
    c ^ ALL_ONES
}

// The tables are made for this call. Apart from `part`, whose short ways would else set up the tables' room too.
fn long(c: u32, bytes: &[u8]) -> u32
    ensures { result ≡ bytes_in c bytes.now }
{
    let t = tables();
    if bytes.len() < LONG {
        return rows::sixteens(&t, c, bytes);
    }
    eliminated::update(&t, c, bytes)
}

// The rows of every byte followed by 0 to 15 zero bytes, to lend to the calls below.
pub fn tables() -> [u32; 4096]
    ensures { Rows 16 result }
{
    constants::ROWS
}

// Internal: `t` is what `tables` gives.
#[tactic(auto, unfolding(crate::specs::Crc::crc_of))]
pub fn crc32_with(t: &[u32; 4096], bytes: &[u8]) -> u32
    requires { Rows 16 t.now }
    ensures { result ≡ crc_of bytes.now }
{
    finish(update(t, start(), bytes))
}

// Internal: `part` with `t`, which is what `tables` gives.
// (It calls `eliminated` itself, as `long` does: a function that is called once is inlined, and short runs would set up its room.)
pub fn update(t: &[u32; 4096], c: u32, bytes: &[u8]) -> u32
    requires { Rows 16 t.now }
    ensures { result ≡ bytes_in c bytes.now }
{
    if bytes.len() < LONG {
        return rows::sixteens(t, c, &bytes[0..]);
    }
    eliminated::update(t, c, &bytes[0..])
}
