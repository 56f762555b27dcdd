// The three atoms of an answer, and the lines that consist of a name and an atom.
use crate::text;
use crate::text::Cursor;
use config::Config;

const MAX_HEX: usize = 4096;

const MAX_WORDS: usize = 64;

// SET
pub fn set(answer: &mut [u8], c: Cursor, config: Config) -> Cursor {
    let metric = config.metric;
    let a = text::named(answer, c, b"d ", config.dimensions as u64);
    let b = text::named(answer, a, b" m ", config.m as u64);
    let e = text::named(answer, b, b" ef ", config.ef_construction as u64);
    let s = text::named(answer, e, b" seed ", config.seed);
    text::named(answer, s, b" metric ", metric.number() as u64)
}

// BYTES
pub fn bytes(answer: &mut [u8], c: Cursor, s: &[u8]) -> Cursor {
    let at = text::decimal(answer, c, s.len() as u64);
    if MAX_HEX < s.len() {
        return text::named(answer, at, b"#", crc32::crc32(s) as u64);
    }
    let behind = text::byte(answer, at, b':');
    hex_all(answer, behind, s)
}

// WORDS: of `w`, rows or starts, or, where `w` is empty, of `e`, active entries.
pub fn words(answer: &mut [u8], c: Cursor, w: &[u64], e: &[u32]) -> Cursor {
    let n = count(w, e);
    let at = text::decimal(answer, c, n as u64);
    if MAX_WORDS < n {
        return text::named(answer, at, b"#", crc_of_words(w, e, n) as u64);
    }
    let behind = text::byte(answer, at, b':');
    list(answer, behind, w, e, without_zeros(w, e, n))
}

// `name` ends in a space.
pub fn bytes_line(answer: &mut [u8], c: Cursor, name: &[u8], s: &[u8]) -> Cursor {
    let at = text::put(answer, c, name);
    let behind = bytes(answer, at, s);
    text::byte(answer, behind, b'\n')
}

pub fn words_line(answer: &mut [u8], c: Cursor, name: &[u8], w: &[u64], e: &[u32]) -> Cursor {
    let at = text::put(answer, c, name);
    let behind = words(answer, at, w, e);
    text::byte(answer, behind, b'\n')
}

fn hex_all(answer: &mut [u8], c: Cursor, s: &[u8]) -> Cursor {
    let mut at = c;
    for b in s {
        at = text::hex(answer, at, *b);
    }
    at
}

fn count(w: &[u64], e: &[u32]) -> usize {
    if w.is_empty() { e.len() } else { w.len() }
}

fn word(w: &[u64], e: &[u32], i: usize) -> u64 {
    if i < w.len() {
        return w[i];
    }
    e.get(i).map_or(0, |n| u64::from(*n))
}

// The CRC-32 of the first n words as u64 little-endian.
fn crc_of_words(w: &[u64], e: &[u32], n: usize) -> u32 {
    let t = crc32::tables();
    let mut crc = crc32::start();
    let mut bytes = [0u8; 8];
    for i in 0..n {
        fields::put_u64(&mut bytes, 0, word(w, e, i));
        crc = crc32::update(&t, crc, &bytes);
    }
    crc32::finish(crc)
}

// How many of the first n words are left without the zeros at the end.
fn without_zeros(w: &[u64], e: &[u32], n: usize) -> usize {
    for i in (0..n).rev() {
        if word(w, e, i) != 0 {
            return i + 1;
        }
    }
    0
}

fn list(answer: &mut [u8], c: Cursor, w: &[u64], e: &[u32], n: usize) -> Cursor {
    let mut at = c;
    for i in 0..n {
        at = listed(answer, at, i, word(w, e, i));
    }
    at
}

fn listed(answer: &mut [u8], c: Cursor, place: usize, word: u64) -> Cursor {
    if place == 0 {
        return text::decimal(answer, c, word);
    }
    text::named(answer, c, b",", word)
}
