// The nodes of a cache that was accepted: levels as the starts give them, neighbours as the view gives them.
use exchange::text;
use exchange::text::Cursor;
use rows::Node;

pub fn lines(answer: &mut [u8], c: Cursor, cache: &[u8], starts: &[u64], count: usize) -> Cursor {
    let mut at = c;
    for node in 0..u32::try_from(count).unwrap_or(u32::MAX) {
        at = line(answer, at, cache, starts, count, Node(node));
    }
    at
}

fn line(
    answer: &mut [u8],
    c: Cursor,
    cache: &[u8],
    starts: &[u64],
    count: usize,
    node: Node,
) -> Cursor {
    let levels = levels_of(cache, starts, node);
    let a = text::decimal(answer, c, node.0 as u64);
    let b = text::named(answer, a, b" ", levels as u64);
    let e = text::byte(answer, b, b' ');
    let f = lists(answer, e, cache, starts, count, node, levels);
    text::byte(answer, f, b'\n')
}

fn levels_of(cache: &[u8], starts: &[u64], node: Node) -> u8 {
    let start = starts.get(node.0 as usize);
    let levels = start.and_then(|at| cache.get(*at as usize));
    levels.copied().unwrap_or(0)
}

fn lists(
    answer: &mut [u8],
    c: Cursor,
    cache: &[u8],
    starts: &[u64],
    count: usize,
    node: Node,
    levels: u8,
) -> Cursor {
    let mut at = c;
    for level in 0..usize::from(levels) {
        let part = graph::neighbours(cache, starts, count, node, level);
        at = list(answer, at, level, part);
    }
    at
}

fn list(answer: &mut [u8], c: Cursor, level: usize, part: &[u8]) -> Cursor {
    let at = separated(answer, c, level, b'|');
    if part.is_empty() {
        return text::byte(answer, at, b'-');
    }
    numbers(answer, at, part)
}

// The separator stands before each but the first.
fn separated(answer: &mut [u8], c: Cursor, place: usize, separator: u8) -> Cursor {
    if place == 0 {
        return c;
    }
    text::byte(answer, c, separator)
}

fn numbers(answer: &mut [u8], c: Cursor, part: &[u8]) -> Cursor {
    let mut at = c;
    for i in 0..part.len() / 4 {
        at = separated(answer, at, i, b',');
        at = text::decimal(answer, at, fields::get_u32(part, 4 * i) as u64);
    }
    at
}
