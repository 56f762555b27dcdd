// The way for some thousand bytes, for what elimination leaves of longer runs, and for callers that keep the table: sixteen bytes
// at a time, then four, then one.
ghost use Rattle.std.specs.Prelude.{◌≡◌, suc, ◌+◌, ◌%◌, ◌≤◌, ◌<◌, length, take, drop};
ghost use Rattle.std.specs.Int.Bits.{bit_xor};
ghost use Rattle.crc32.specs.Crc.{bits_in, bytes_in};
ghost use Rattle.crc32.specs.Steps.{rounds, Rows};

// Internal: the byte b goes into c, of which only the low byte counts, and `row` zero bytes after it.
fn look(t: &[u32; 4096], row: usize, c: u32, b: u8) -> u32
    requires row_bound { row < 16 }
    requires rows { Rows 16 t.now }
    ensures { result ≡ rounds (suc row) (bit_xor c b % 256) }
{
    t[row * 256 + ((c ^ (b as u32)) % 256) as usize]
}

// Internal: one byte goes into c.
#[tactic(auto, using(crate::proofs::Slices::byte_split), unfolding(crate::specs::Steps::turns))]
fn one(t: &[u32; 4096], c: u32, b: u8) -> u32
    requires { Rows 16 t.now }
    ensures { result ≡ bits_in 8 c b }
{
    look(t, 0, c, b) ^ (c / 256)
}

// Internal: the four bytes from `at` on go into c, and `row` zero bytes after them.
fn four(t: &[u32; 4096], row: usize, c: u32, s: &[u8], at: usize) -> u32
    requires row_bound { row ≤ 12 }
    requires at_in_bounds { at + 4 ≤ length s.now }
    requires rows { Rows 16 t.now }
    ensures { result ≡ rounds row (bytes_in c (take 4 (drop at s.now))) }
{
    look(t, row + 3, c, s[at])
        ^ (look(t, row + 2, c / 256, s[at + 1])
            ^ (look(t, row + 1, c / 65536, s[at + 2]) ^ look(t, row, c / 16777216, s[at + 3])))
}

// Internal: the sixteen bytes from `at` on go into c. The first four, which wait for c, stand last: the machine xors in this
// order, so it has the others' sum by the time c is known.
fn sixteen(t: &[u32; 4096], c: u32, s: &[u8], at: usize) -> u32
    requires at_in_bounds { at + 16 ≤ length s.now }
    requires rows { Rows 16 t.now }
    ensures { result ≡ bytes_in c (take 16 (drop at s.now)) }
{
    four(t, 0, 0, s, at + 12)
        ^ (four(t, 4, 0, s, at + 8) ^ (four(t, 8, 0, s, at + 4) ^ four(t, 12, c, s, at)))
}

// Internal: the bytes from `at` on go into c, one at a time.
#[tactic(auto, using(crate::proofs::Slices::underway_one, crate::proofs::Slices::underway_past))]
fn ones(t: &[u32; 4096], c: u32, s: &[u8], at: usize) -> u32
    requires at_in_bounds { at ≤ length s.now }
    requires rows { Rows 16 t.now }
    ensures { result ≡ bytes_in c (drop at s.now) }
{
    let mut c = c;
    for &b in &s[at..] {
        c = one(t, c, b);
    }
    c
}

// Internal: the same, four at a time as far as they go.
#[tactic(auto, using(crate::proofs::Slices::underway_four))]
fn fours(t: &[u32; 4096], c: u32, s: &[u8], at: usize) -> u32
    requires at_in_bounds { at ≤ length s.now }
    requires rows { Rows 16 t.now }
    ensures { result ≡ bytes_in c (drop at s.now) }
{
    let mut c = c;
    let mut i = at;
    while 4 <= s.len() - i {
        c = four(t, 0, c, s, i);
        i += 4;
    }
    ones(t, c, s, i)
}

// Internal: the bytes go into c, sixteen at a time as far as they go.
#[tactic(auto, using(crate::proofs::Slices::underway_on))]
pub fn sixteens(t: &[u32; 4096], c: u32, s: &[u8]) -> u32
    requires { Rows 16 t.now }
    ensures { result ≡ bytes_in c s.now }
{
    let mut c = c;
    let mut i: usize = 0;
    while 16 <= s.len() - i {
        c = sixteen(t, c, s, i);
        i += 16;
    }
    fours(t, c, s, i)
}
