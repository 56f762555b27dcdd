// The CRC of a file that is read or written from front to back, taken along in pieces while their bytes are in the cache:
// a pass for the CRC alone would have them come from memory once more. The definition of a sum is in specs/Sums.antt.
#![tactic(auto)]

ghost use Rattle.std.specs.Prelude.{◌≡◌, List, ℕ, ◌+◌, ◌≤◌, length, take};
ghost use Rattle.crc32.specs.Crc.{crc_of};
ghost use Rattle.pieces.specs.Sums.{Sums, piece_length};

// The register when the first `upto` bytes have gone in.
#[derive(Clone, Copy)]
pub struct Sum {
    pub register: u32,
    pub upto: usize,
}

// Much beside what the CRC costs for a piece whatever its length, and little beside a core's second cache.
const PIECE: usize = 131_072;

// A quarter of a piece.
const STRETCH: usize = 32_768;

// Internal: no byte has gone in.
#[tactic(auto, unfolding(crc32::specs::Crc::bytes_in))]
pub fn none() -> Sum
    ensures by_index { (s : List ℕ) → Sums s result }
    ensures upto_value { result.upto ≡ 0 }
{
    Sum {
        register: crc32::start(),
        upto: 0,
    }
}

// The bytes up to `to` go in.
#[tactic(auto, using(crate::proofs::SumLaws::sum_onward))]
fn onward(sum: Sum, s: &[u8], to: usize) -> Sum
    requires sums { Sums s.now sum }
    requires upto_le_to { sum.upto ≤ to }
    requires to_in_bounds { to ≤ length s.now }
    ensures sums_2 { Sums s.now result }
    ensures upto_value { result.upto ≡ to }
{
    let from = sum.upto;
    let register = crc32::part(sum.register, &s[from..to]);
    Sum { register, upto: to }
}

// Internal: a sum of these bytes, none of them past `at`, which is not past the slice's end.
// For one who has written up to `at`: what is written goes in when it is a piece.
pub fn behind(sum: Sum, s: &[u8], at: usize) -> Sum
    requires sums { Sums s.now sum }
    requires upto_le_at { sum.upto ≤ at }
    requires at_in_bounds { at ≤ length s.now }
    ensures sums_2 { Sums s.now result }
    ensures upto_le_at_2 { result.upto ≤ at }
{
    let from = sum.upto;
    if at - from < PIECE {
        return sum;
    }
    onward(sum, s, at)
}

// One byte of every 64 of a piece, of four stretches in turn, so that the CRC and the reader find the piece in the cache.
// A processor has many of these reads under way at once; of the CRC's own, which wait for more between them, it has few.
fn glance(s: &[u8], from: usize) -> u8
    requires { from + piece_length ≤ length s.now }
{
    let mut seen: u8 = 0;
    let mut i: usize = 0;
    while i < STRETCH {
        let a = from + i;
        let b = a + STRETCH;
        let c = b + STRETCH;
        let d = c + STRETCH;
        seen = seen ^ (s[a] ^ (s[b] ^ (s[c] ^ s[d])));
        i += 64;
    }
    seen
}

// Internal: a sum of these bytes, none of them past `end`, which is not past the slice's end.
// For one who reads on from `at`: the next piece goes in when he comes to it.
// It is shorter by what the glance saw, 255 bytes at most: a glance that changed nothing would be left out by the compiler.
pub fn ahead(sum: Sum, s: &[u8], end: usize, at: usize) -> Sum
    requires sums { Sums s.now sum }
    requires upto_le_end { sum.upto ≤ end }
    requires end_in_bounds { end ≤ length s.now }
    ensures sums_2 { Sums s.now result }
    ensures upto_le_end_2 { result.upto ≤ end }
{
    let from = sum.upto;
    if at < from {
        return sum;
    }
    if end - from < PIECE {
        return onward(sum, s, end);
    }
    let seen = glance(s, from) as usize;
    onward(sum, s, from + PIECE - seen)
}

// Internal: as `ahead`. The CRC of the first `end` bytes.
#[tactic(auto, unfolding(crc32::specs::Crc::crc_of))]
pub fn finish(sum: Sum, s: &[u8], end: usize) -> u32
    requires sums { Sums s.now sum }
    requires upto_le_end { sum.upto ≤ end }
    requires end_in_bounds { end ≤ length s.now }
    ensures { result ≡ crc_of (take end s.now) }
{
    let all = onward(sum, s, end);
    crc32::finish(all.register)
}
