// UTF-8 by RFC 3629, section 4: whether bytes are UTF-8, and how far.
// The definition is `specs/Utf8.antt`. Every byte string has an answer: nothing is refused.
#![tactic(auto)]

ghost use Rattle.std.specs.Prelude.{◌≡◌, ◌+◌, ◌<◌, ◌≤◌, length, get_or, take, drop};
ghost use Rattle.std.specs.Int.Bits.{bit_or};
ghost use Rattle.utf8.specs.Utf8.{Range, char_length, valid_front, is_utf8};
ghost use Rattle.utf8.specs.Steps.{Passes, bound_of, or_all, or_eight, word_of, ascii_front};

// Whether s is UTF-8.
#[tactic(auto, unfolding(crate::specs::Utf8::is_utf8))]
pub fn is_utf8(s: &[u8]) -> bool
    ensures { result ≡ is_utf8 s.now }
{
    valid_front(s) == s.len()
}

// The length of the longest front of s that is whole characters.
#[tactic(auto, using(crate::proofs::Passing::passes_none, crate::proofs::Passing::passes_on, crate::proofs::Passing::passes_next, crate::proofs::Passing::ends_at, crate::proofs::Passing::ends_all))]
pub fn valid_front(s: &[u8]) -> usize
    ensures { result ≡ valid_front s.now }
{
    let mut at: usize = 0;
    while at < s.len() {
        if s[at] < 128 {
            at = after_ascii(s, at);
        } else {
            let n = char_length(s, at);
            if n == 0 {
                return at;
            }
            at = after_run(s, at + n, n);
        }
    }
    at
}

// The length of the character that starts at `at`, 0 if none does: the leading ones of its first byte choose the length.
fn char_length(s: &[u8], at: usize) -> usize
    requires { at < length s.now }
    ensures { result ≡ char_length (drop at s.now) }
{
    match u8::leading_zeros(!s[at]) {
        0 => 1,
        2 => two(s, at),
        3 => three(s, at),
        4 => four(s, at),
        _ => 0,
    }
}

fn two(s: &[u8], at: usize) -> usize
    requires at_in_bounds { at < length s.now }
    requires range { Range 0xC0 0xDF (get_or s.now at 0) }
    ensures { result ≡ char_length (drop at s.now) }
{
    if s.len() - at < 2 {
        return 0;
    }
    if s[at] < 0xC2 {
        return 0;
    }
    if s[at + 1] / 64 != 2 {
        return 0;
    }
    2
}

fn three(s: &[u8], at: usize) -> usize
    requires at_in_bounds { at < length s.now }
    requires range { Range 0xE0 0xEF (get_or s.now at 0) }
    ensures { result ≡ char_length (drop at s.now) }
{
    if s.len() - at < 3 {
        return 0;
    }
    let a = s[at];
    let b = s[at + 1];
    if b < bound(a, 0xE0, 0xA0, 0x80) {
        return 0;
    }
    if bound(a, 0xED, 0x9F, 0xBF) < b {
        return 0;
    }
    if s[at + 2] / 64 != 2 {
        return 0;
    }
    3
}

fn four(s: &[u8], at: usize) -> usize
    requires at_in_bounds { at < length s.now }
    requires range { Range 0xF0 0xF7 (get_or s.now at 0) }
    ensures { result ≡ char_length (drop at s.now) }
{
    if s.len() - at < 4 {
        return 0;
    }
    let a = s[at];
    let b = s[at + 1];
    if 0xF4 < a {
        return 0;
    }
    if b < bound(a, 0xF0, 0x90, 0x80) {
        return 0;
    }
    if bound(a, 0xF4, 0x8F, 0xBF) < b {
        return 0;
    }
    if s[at + 2] / 64 != 2 {
        return 0;
    }
    if s[at + 3] / 64 != 2 {
        return 0;
    }
    4
}

// A bound of the second byte: one first byte has its own, so that no overlong form, no surrogate and nothing above 10FFFF is taken.
fn bound(a: u8, special: u8, own: u8, other: u8) -> u8
    ensures { result ≡ bound_of special own other a }
{
    if a == special { own } else { other }
}

// A character of n bytes is mostly followed by others of n bytes, which pass with fewer tests here.
fn after_run(s: &[u8], at: usize, n: usize) -> usize
    requires { at ≤ length s.now }
    ensures { Passes s.now at result }
{
    if n == 2 {
        return after_twos(s, at);
    }
    if n == 3 {
        return after_threes(s, at);
    }
    at
}

fn after_twos(s: &[u8], at: usize) -> usize
    requires { at ≤ length s.now }
    ensures { Passes s.now at result }
{
    let mut i = at;
    while 2 <= s.len() - i {
        if s[i] < 0xC2 {
            return i;
        }
        if 0xDF < s[i] {
            return i;
        }
        let n = two(s, i);
        if n == 0 {
            return i;
        }
        i += n;
    }
    i
}

fn after_threes(s: &[u8], at: usize) -> usize
    requires { at ≤ length s.now }
    ensures { Passes s.now at result }
{
    let mut i = at;
    while 3 <= s.len() - i {
        if s[i] < 0xE0 {
            return i;
        }
        if 0xEF < s[i] {
            return i;
        }
        let n = three(s, i);
        if n == 0 {
            return i;
        }
        i += n;
    }
    i
}

// Passes ASCII from `at` on, where there is some. A single byte of it, as a space between two words, has a test of its own.
#[tactic(auto, using(crate::proofs::Passing::passes_on, crate::proofs::Passing::passes_byte))]
fn after_ascii(s: &[u8], at: usize) -> usize
    requires at_in_bounds { at < length s.now }
    requires at_bound { get_or s.now at 0 < 128 }
    ensures { (Passes s.now at result) × (at < result) }
{
    let next = at + 1;
    if next < s.len() {
        if 128 <= s[next] {
            return next;
        }
    }
    after_words(s, next)
}

// By words of eight bytes, and after a word that is all ASCII by blocks of 32.
#[tactic(auto, using(crate::proofs::Passing::passes_on, crate::proofs::Words::word_passes, crate::proofs::Words::word_all_passes))]
fn after_words(s: &[u8], at: usize) -> usize
    requires { at ≤ length s.now }
    ensures { Passes s.now at result }
{
    let mut i = at;
    while 8 <= s.len() - i {
        let k = ascii_in_word(s, i);
        if k < 8 {
            return i + k;
        }
        i = after_blocks(s, i + 8);
    }
    after_bytes(s, i)
}

#[tactic(auto, using(crate::proofs::Passing::passes_on, crate::proofs::Words::or_passes))]
fn after_blocks(s: &[u8], at: usize) -> usize
    requires { at ≤ length s.now }
    ensures { Passes s.now at result }
{
    let mut i = at;
    while 32 <= s.len() - i {
        if 128 <= block(s, i) {
            return i;
        }
        i += 32;
    }
    i
}

// A `for` over the range makes another loop of `valid_front`'s, and Greek then takes a third more time.
#[tactic(auto, using(crate::proofs::Passing::passes_on, crate::proofs::Passing::passes_byte))]
fn after_bytes(s: &[u8], at: usize) -> usize
    requires { at ≤ length s.now }
    ensures { Passes s.now at result }
{
    let mut i = at;
    while i < s.len() {
        if 128 <= s[i] {
            return i;
        }
        i += 1;
    }
    i
}

// 32 bytes or-ed, with no way out between, so that they can go through wide registers.
fn block(s: &[u8], i: usize) -> u8
    requires { i + 32 ≤ length s.now }
    ensures { result ≡ bit_or (or_eight s.now i) (bit_or (or_eight s.now (i + 8)) (bit_or (or_eight s.now (i + 16)) (or_eight s.now (i + 24)))) }
{
    eight(s, i) | (eight(s, i + 8) | (eight(s, i + 16) | eight(s, i + 24)))
}

#[tactic(auto, using(crate::proofs::Words::or_eight_is))]
fn eight(s: &[u8], i: usize) -> u8
    requires { i + 8 ≤ length s.now }
    ensures { result ≡ or_eight s.now i }
{
    s[i] | (s[i + 1] | (s[i + 2] | (s[i + 3] | (s[i + 4] | (s[i + 5] | (s[i + 6] | s[i + 7]))))))
}

// How many of the eight bytes from i on are ASCII, up to the first that is not: the trailing zeros of their high bits.
#[tactic(auto, using(crate::proofs::Words::word_is))]
fn ascii_in_word(s: &[u8], i: usize) -> usize
    requires { i + 8 ≤ length s.now }
    ensures { result ≡ ascii_front (take 8 (drop i s.now)) }
{
    (u64::trailing_zeros(word(s, i) & 0x8080808080808080) / 8) as usize
}

#[tactic(auto, using(crate::proofs::Words::le_word))]
fn word(s: &[u8], i: usize) -> u64
    requires { i + 8 ≤ length s.now }
    ensures { result ≡ word_of (take 8 (drop i s.now)) }
{
    u64::from_le_bytes([
        s[i],
        s[i + 1],
        s[i + 2],
        s[i + 3],
        s[i + 4],
        s[i + 5],
        s[i + 6],
        s[i + 7],
    ])
}
