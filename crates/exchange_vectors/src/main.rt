// The atoms of an answer at the lengths at which their form changes, over memory prepared as for a call. expected.py makes
// `stdout` with the CRC of Python's zlib.
#![tactic(auto)]

use exchange::text::Cursor;
use exchange::{atoms, lend, text};
use std::io;

fn write(rt: &impl Print, answer: &[u8], c: Cursor) -> io::Result<()> {
    let n = text::length(answer, c);
    rt.write_all(&answer[..n])
}

fn front(s: &[u8], n: usize) -> &[u8] {
    s.get(..n).unwrap_or(s)
}

fn front_words(w: &[u64], n: usize) -> &[u64] {
    w.get(..n).unwrap_or(w)
}

fn front_entries(e: &[u32], n: usize) -> &[u32] {
    e.get(..n).unwrap_or(e)
}

fn show_bytes(rt: &impl Print, s: &[u8], n: usize) -> io::Result<()> {
    let mut answer = [0u8; 16384];
    let c = atoms::bytes_line(&mut answer, text::start(), b"bytes ", front(s, n));
    write(rt, &answer, c)
}

fn show_words(rt: &impl Print, w: &[u64], e: &[u32], n: usize) -> io::Result<()> {
    let mut answer = [0u8; 16384];
    let c = atoms::words_line(
        &mut answer,
        text::start(),
        b"words ",
        front_words(w, n),
        front_entries(e, n),
    );
    write(rt, &answer, c)
}

// Byte i is 7 * i + 3 modulo 256.
fn rise(s: &mut [u8]) {
    let mut b: u8 = 3;
    for byte in s {
        *byte = b;
        b = b.wrapping_add(7);
    }
}

fn lengths_of_bytes(rt: &impl Print, s: &[u8]) -> io::Result<()> {
    show_bytes(rt, s, 0)?;
    show_bytes(rt, s, 1)?;
    show_bytes(rt, s, 300)?;
    show_bytes(rt, s, 4096)?;
    show_bytes(rt, s, 4097)
}

// Of the two one is empty.
fn lengths_of_words(rt: &impl Print, w: &[u64], e: &[u32]) -> io::Result<()> {
    show_words(rt, w, e, 0)?;
    show_words(rt, w, e, 1)?;
    show_words(rt, w, e, 3)?;
    show_words(rt, w, e, 64)?;
    show_words(rt, w, e, 65)
}

// What the part has, and the fill behind it.
fn filled(rt: &impl Print, part: &[u8], fill: u64) -> io::Result<()> {
    let mut w = [0u64; 65];
    let mut e = [0u32; 65];
    lend::load64(&mut w, part, fill);
    lend::load32(&mut e, part, (fill % 4294967296) as u32);
    lengths_of_words(rt, &w, &e[..0])?;
    lengths_of_words(rt, &w[..0], &e)
}

fn main(rt: HostRuntime) -> io::Result<()> {
    let mut s = [0u8; 4097];
    rise(&mut s);
    lengths_of_bytes(&rt, &s)?;
    filled(&rt, &s, 0)?;
    filled(&rt, front(&s, 20), 7)?;
    filled(&rt, front(&s, 0), u64::MAX)?;
    filled(&rt, front(&s, 0), 0)?;
    filled(&rt, b"\0\0\0\0\0\0\0\0\n\0\0\0\0\0\0\0", 0)?;
    lend::fill_bytes(&mut s, 255);
    lengths_of_bytes(&rt, &s)
}
