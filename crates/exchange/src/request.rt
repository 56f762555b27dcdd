// A request, read where it stands: call, how many numbers, the numbers, how many parts, the parts.
// A number or a part that a request does not have is read as 0 or as no bytes.
ghost use Rattle.std.specs.Prelude.{◌≤◌, ◌<◌};

use config::{Config, Metric};

// How a call is asked (docs/QUESTIONS.md), a digit for each of: how many numbers and how many parts it takes; how many of its parts,
// from the first on, hold words (of 8 bytes, then of 4); and the places of some numbers: the metric; the row words or starts
// lent, the active entries lent, the fill of both; the output's length and its fill. f: there is none. 0: there is no such call.
fn shape(call: u8) -> u64 {
    match call {
        1 | 2 | 21 | 22 => 0x010_f_fff_ff,
        3 => 0x100_f_fff_ff,
        4 => 0x500_4_fff_ff,
        5 => 0x110_0_fff_ff,
        6 => 0x200_f_fff_ff,
        7 => 0x310_f_012_ff,
        8 => 0x320_f_012_ff,
        9 => 0x020_f_fff_ff,
        10 | 11 => 0x832_4_fff_67,
        12 | 13 => 0x931_4_fff_78,
        14 | 15 => 0x520_f_014_23,
        16 => 0x211_f_fff_ff,
        17 | 18 => 0x331_f_fff_ff,
        19 => 0xa10_4_8f9_ff,
        20 => 0x321_f_fff_ff,
        23 => 0x400_f_fff_23,
        _ => 0,
    }
}

// What a digit of a shape counts by.
const NUMBERS: u64 = 0x100_000_000;

const PARTS: u64 = 0x10_000_000;

const WORD_PARTS: u64 = 0x1_000_000;

const METRIC: u64 = 0x100_000;

pub const WORDS: u64 = 0x10_000;

pub const ENTRIES: u64 = 0x1_000;

pub const TABLE_FILL: u64 = 0x100;

pub const OUTPUT: u64 = 0x10;

pub const OUTPUT_FILL: u64 = 0x1;

const NONE: u8 = 0xf;

// A digit of the call's shape.
fn digit(call: u8, what: u64) -> u8 {
    if what == 0 {
        return NONE;
    }
    (shape(call) / what % 16) as u8
}

// The call, if the request is no bad request.
pub fn call_of(request: &[u8]) -> Option<u8> {
    request
        .first()
        .copied()
        .filter(|call| is_good(request, *call))
}

fn is_good(request: &[u8], call: u8) -> bool {
    if shape(call) == 0 {
        return false;
    }
    if !adds_up(request, call) {
        return false;
    }
    if 2 < number_of(request, call, METRIC) {
        return false;
    }
    if !has_whole_words(request, digit(call, WORD_PARTS)) {
        return false;
    }
    match call {
        5 => is_vector(part(request, 0).len()),
        19 => number(request, 5) <= 4294967295,
        _ => true,
    }
}

fn adds_up(request: &[u8], call: u8) -> bool {
    let numbers = digit(call, NUMBERS);
    let parts = digit(call, PARTS);
    let at = after_numbers(numbers);
    if request.len() <= at {
        return false;
    }
    if request[1] != numbers {
        return false;
    }
    if request[at] != parts {
        return false;
    }
    after_parts(request, at + 1, parts) == Some(request.len())
}

fn has_whole_words(request: &[u8], word_parts: u8) -> bool {
    if 0 < word_parts {
        if part(request, 0).len() % 8 != 0 {
            return false;
        }
    }
    if 1 < word_parts {
        return part(request, 1).len() % 4 == 0;
    }
    true
}

// 1 to 4,096 coordinates.
fn is_vector(n: usize) -> bool {
    if n < 4 {
        return false;
    }
    if 4 * Config::MAX_DIMENSIONS < n {
        return false;
    }
    n % 4 == 0
}

// Number i, from 0 on.
pub fn number(request: &[u8], i: u8) -> u64 {
    fields::read_u64(request, after_numbers(i)).map_or(0, |(n, _)| n)
}

// The same for a call whose field has 32 bits: a number that it cannot hold is lent as the largest that it can.
pub fn number32(request: &[u8], i: u8) -> u32 {
    u32::try_from(number(request, i)).unwrap_or(u32::MAX)
}

// The number that the call has for `what`.
pub fn number_of(request: &[u8], call: u8, what: u64) -> u64 {
    let i = digit(call, what);
    if i == NONE {
        return 0;
    }
    number(request, i)
}

// Part i, from 0 on.
pub fn part(request: &[u8], i: u8) -> &[u8] {
    found_part(request, i).unwrap_or(&request[..0])
}

fn found_part(request: &[u8], i: u8) -> Option<&[u8]> {
    let numbers = *request.get(1)?;
    let at = after_parts(request, after_numbers(numbers) + 1, i)?;
    let (n, from) = fields::read_u32(request, at)?;
    let end = from.checked_add(n as usize)?;
    request.get(from..end)
}

// Part i if it holds words.
pub fn word_part(request: &[u8], call: u8, i: u8) -> &[u8] {
    if i < digit(call, WORD_PARTS) {
        return part(request, i);
    }
    &request[..0]
}

// The five numbers that every `set` starts with.
pub fn set_of(request: &[u8]) -> Config {
    match Metric::from_u32(number32(request, 4)) {
        Ok(metric) => numbers_of(request).with_metric(metric),
        Err(_) => numbers_of(request),
    }
}

fn numbers_of(request: &[u8]) -> Config {
    let sized = Config::new(number(request, 0) as usize).with_m(number(request, 1) as usize);
    sized
        .with_ef_construction(number(request, 2) as usize)
        .with_seed(number(request, 3))
}

// Where the count of parts stands behind k numbers; number k stands there if it is not the last.
fn after_numbers(k: u8) -> usize
    ensures { (2 ≤ result) × (result < 2048) }
{
    2 + 8 * (k as usize)
}

// Where the field behind so many parts is, if none of them runs past the end.
fn after_parts(request: &[u8], from: usize, count: u8) -> Option<usize> {
    let mut at = from;
    for _ in 0..count {
        at = after_part(request, at)?;
    }
    Some(at)
}

fn after_part(request: &[u8], at: usize) -> Option<usize> {
    let (n, from) = fields::read_u32(request, at)?;
    let end = from.checked_add(n as usize)?;
    if request.len() < end {
        return None;
    }
    Some(end)
}
