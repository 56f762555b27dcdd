// The way with no table in memory: four bits at a time, by a match that is compiled to constants.
ghost use Rattle.std.specs.Prelude.{◌≡◌, ◌≤◌, ◌<◌, length, drop};
ghost use Rattle.crc32.specs.Crc.{bits_in, bytes_in};
ghost use Rattle.crc32.specs.Steps.{shifts};

// Internal: k and then four zero bits.
#[tactic(auto, unfolding(crate::specs::Steps::shift, crate::specs::Steps::shifts))]
fn nibble(k: u32) -> u32
    requires { k < 16 }
    ensures { result ≡ shifts 4 k }
{
    match k {
        0 => 0x00000000,
        1 => 0x1db71064,
        2 => 0x3b6e20c8,
        3 => 0x26d930ac,
        4 => 0x76dc4190,
        5 => 0x6b6b51f4,
        6 => 0x4db26158,
        7 => 0x5005713c,
        8 => 0xedb88320,
        9 => 0xf00f9344,
        10 => 0xd6d6a3e8,
        11 => 0xcb61b38c,
        12 => 0x9b64c2b0,
        13 => 0x86d3d2d4,
        14 => 0xa00ae278,
        _ => 0xbdbdf21c,
    }
}

#[tactic(auto, using(crate::proofs::Shift::shifts_split))]
fn half(c: u32) -> u32
    ensures { result ≡ shifts 4 c }
{
    nibble(c % 16) ^ (c / 16)
}

#[tactic(auto, using(crate::proofs::Slices::byte_halves))]
fn byte(c: u32, b: u8) -> u32
    ensures { result ≡ bits_in 8 c b }
{
    half(half(c ^ (b as u32)))
}

// Internal: the bytes from `at` on go into the register c.
#[tactic(auto, using(crate::proofs::Slices::underway_one, crate::proofs::Slices::underway_past))]
pub fn update(c: u32, bytes: &[u8], at: usize) -> u32
    requires { at ≤ length bytes.now }
    ensures { result ≡ bytes_in c (drop at bytes.now) }
{
    let mut c = c;
    for &b in &bytes[at..] {
        c = byte(c, b);
    }
    c
}
