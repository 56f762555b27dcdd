// The answers of docs/QUESTIONS.md to calls that read a graph cache: 19, 20. A tool for tests: proved to be safe and to end.
#![tactic(auto)]

pub mod nodes;

use exchange::text::Cursor;
use exchange::{atoms, request, text};
use graph::CacheInfo;
use rows::Node;

// The lines of the answer, without the last. What is lent is as long as the request has it, and filled; neither call is lent
// entries.
pub fn lines(
    call: u8,
    request: &[u8],
    starts: &mut [u64],
    entries: &[u32],
    answer: &mut [u8],
) -> Cursor {
    match call {
        19 => read(request, starts, entries, answer),
        _ => neighbours(request, starts, answer),
    }
}

fn read(request: &[u8], starts: &mut [u64], entries: &[u32], answer: &mut [u8]) -> Cursor {
    let config = request::set_of(request);
    let crc = request::number32(request, 5);
    let sequence = request::number(request, 6);
    let count = request::number(request, 7) as usize;
    let cache = request::part(request, 0);
    match graph::read_cache(cache, config, crc, sequence, count, starts) {
        Ok(info) => accepted(info, cache, starts, entries, answer),
        Err(why) => {
            let at = text::refused(answer, b"refused ", why);
            atoms::words_line(answer, at, b"starts ", starts, entries)
        }
    }
}

fn accepted(
    info: CacheInfo,
    cache: &[u8],
    starts: &[u64],
    entries: &[u32],
    answer: &mut [u8],
) -> Cursor {
    let a = text::named(answer, text::start(), b"accepted nodes ", info.nodes as u64);
    let b = entry(answer, a, info.entry);
    let c = text::number_line(answer, b, b" rng ", info.rng_state);
    let at = atoms::words_line(answer, c, b"starts ", starts, entries);
    nodes::lines(answer, at, cache, starts, info.nodes)
}

fn entry(answer: &mut [u8], c: Cursor, entry: Option<Node>) -> Cursor {
    match entry {
        Some(node) => text::named(answer, c, b" entry ", node.0 as u64),
        None => text::put(answer, c, b" entry none"),
    }
}

fn neighbours(request: &[u8], starts: &[u64], answer: &mut [u8]) -> Cursor {
    let count = request::number(request, 0) as usize;
    let node = request::number32(request, 1);
    let level = request::number(request, 2) as usize;
    let cache = request::part(request, 1);
    let number = graph::neighbours_number(cache, starts, count, Node(node), level);
    let part = graph::neighbours(cache, starts, count, Node(node), level);
    let at = text::number_line(answer, text::start(), b"number ", number as u64);
    atoms::bytes_line(answer, at, b"part ", part)
}
