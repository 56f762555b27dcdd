// The way for long runs: all but 2400 bytes are eliminated, which takes no table, and these go in by the table.
ghost use Rattle.std.specs.Prelude.{◌≡◌, ◌%◌, ◌≤◌, length};
ghost use Rattle.crc32.specs.Crc.{bytes_in};
ghost use Rattle.crc32.specs.Steps.{Rows};

use crate::rows;

fn low(c: u32) -> u8
    ensures { result ≡ c % 256 }
{
    (c % 256) as u8
}

// Internal: the bytes go into c.
pub fn update(t: &[u32; 4096], c: u32, s: &[u8]) -> u32
    requires in_bounds { 2404 ≤ length s.now }
    requires rows { Rows 16 t.now }
    ensures { result ≡ bytes_in c s.now }
{
    let mut out: [u8; 2400] = [0; 2400];
    let d = c / 256;
    let e = d / 256;
    elimination::eliminate(
        s[0] ^ low(c),
        s[1] ^ low(d),
        s[2] ^ low(e),
        s[3] ^ low(e / 256),
        s,
        &mut out,
    );
    rows::sixteens(t, 0, &out)
}
