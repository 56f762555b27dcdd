// Published CRC-32 vectors, and runs of every length at which the way of computing changes, each by `crc32`, by
// `crc32_with`, and by `update` over two parts. A line has the length and the three answers in hexadecimal. expected.py makes `stdout`
// with the CRC of Python's zlib.
#![tactic(auto)]

ghost use Rattle.crc32.specs.Steps.{Rows};

use std::io;

fn number(rt: &impl Print, n: u32) -> io::Result<()> {
    print!(rt; "{n:08x}")
}

fn show(rt: &impl Print, t: &[u32; 4096], s: &[u8]) -> io::Result<()>
    requires { Rows 16 t.now }
{
    let half = s.len() / 2;
    let c = crc32::update(t, crc32::start(), &s[..half]);
    let parts = crc32::finish(crc32::update(t, c, &s[half..]));
    let length = s.len();
    print!(rt; "{length} ")?;
    number(rt, crc32::crc32(s))?;
    print!(rt; " ")?;
    number(rt, crc32::crc32_with(t, s))?;
    print!(rt; " ")?;
    number(rt, parts)?;
    println!(rt)
}

fn published(rt: &impl Print, t: &[u32; 4096]) -> io::Result<()>
    requires { Rows 16 t.now }
{
    show(rt, t, b"")?;
    show(rt, t, b"a")?;
    show(rt, t, b"abc")?;
    show(rt, t, b"123456789")?;
    show(rt, t, b"message digest")?;
    show(rt, t, b"abcdefghijklmnopqrstuvwxyz")?;
    show(rt, t, b"The quick brown fox jumps over the lazy dog")
}

// 32 bytes: zeros, ones, rising, falling.
fn patterns(rt: &impl Print, t: &[u32; 4096]) -> io::Result<()>
    requires { Rows 16 t.now }
{
    show(rt, t, &[0u8; 32])?;
    show(rt, t, &[255u8; 32])?;
    show(
        rt,
        t,
        b"\x00\x01\x02\x03\x04\x05\x06\x07\x08\x09\x0a\x0b\x0c\x0d\x0e\x0f\x10\x11\x12\x13\x14\x15\x16\x17\x18\x19\x1a\x1b\x1c\x1d\x1e\x1f",
    )?;
    show(
        rt,
        t,
        b"\x1f\x1e\x1d\x1c\x1b\x1a\x19\x18\x17\x16\x15\x14\x13\x12\x11\x10\x0f\x0e\x0d\x0c\x0b\x0a\x09\x08\x07\x06\x05\x04\x03\x02\x01\x00",
    )
}

// Byte i is 7 * i + 3 modulo 256.
fn fill(s: &mut [u8]) {
    let mut b: u8 = 3;
    for byte in s {
        *byte = b;
        b = b.wrapping_add(7);
    }
}

// The runs of `from` bytes and more, below `to`.
fn lengths(rt: &impl Print, t: &[u32; 4096], s: &[u8], from: usize, to: usize) -> io::Result<()>
    requires { Rows 16 t.now }
{
    for n in from..to {
        if n <= s.len() {
            show(rt, t, &s[..n])?;
        }
    }
    Ok(())
}

fn switches(rt: &impl Print, t: &[u32; 4096], s: &[u8]) -> io::Result<()>
    requires { Rows 16 t.now }
{
    lengths(rt, t, s, 0, 71)?;
    lengths(rt, t, s, 255, 258)?;
    lengths(rt, t, s, 380, 405)?;
    lengths(rt, t, s, 1023, 1026)?;
    lengths(rt, t, s, 4094, 4099)?;
    lengths(rt, t, s, 10594, 10599)?;
    lengths(rt, t, s, 18787, 18790)
}

fn main(rt: HostRuntime) -> io::Result<()> {
    let t = crc32::tables();
    published(&rt, &t)?;
    patterns(&rt, &t)?;
    let mut s: [u8; 20000] = [0; 20000];
    fill(&mut s);
    switches(&rt, &t, &s)
}
