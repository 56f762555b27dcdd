// What the tables hold after a reading: their words, and each record by its row and the views.
use config::Config;
use exchange::text::Cursor;
use exchange::{atoms, text};
use rows::{Id, Node, Row};

pub fn heading(answer: &mut [u8], config: Config, crc: u32, sequence: u64) -> Cursor {
    let a = text::put(answer, text::start(), b"accepted ");
    let b = atoms::set(answer, a, config);
    let c = text::named(answer, b, b" crc ", crc as u64);
    text::named(answer, c, b" sequence ", sequence)
}

pub fn tables(answer: &mut [u8], c: Cursor, rows: &[u64], active: &[u32]) -> Cursor {
    let at = atoms::words_line(answer, c, b"rows ", rows, &active[..0]);
    atoms::words_line(answer, at, b"active ", &rows[..0], active)
}

pub fn lines<'a>(
    answer: &mut [u8],
    c: Cursor,
    rows: &[u64],
    count: usize,
    snapshot: &'a [u8],
    log: &'a [u8],
    d: usize,
) -> Cursor {
    let mut at = c;
    for node in 0..count.min(4_294_967_295) {
        at = record(answer, at, rows, count, Node(node as u32), snapshot, log, d);
    }
    at
}

fn record<'a>(
    answer: &mut [u8],
    c: Cursor,
    rows: &[u64],
    count: usize,
    node: Node,
    snapshot: &'a [u8],
    log: &'a [u8],
    d: usize,
) -> Cursor {
    let n = node.0;
    let vector = views::vector_view(snapshot, log, rows, count, Node(n), d);
    let caption = views::caption_view(snapshot, log, rows, count, Node(n), d);
    let at = row(answer, c, rows, Node(n));
    parts(answer, at, vector, caption)
}

fn row(answer: &mut [u8], c: Cursor, rows: &[u64], node: Node) -> Cursor {
    let first = 2 * (node.0 as usize);
    let second = first + 1;
    if rows.len() <= second {
        return c;
    }
    let row = Row::unpack(Id(rows[first]), rows[second]);
    let a = text::decimal(answer, c, node.0 as u64);
    let b = text::named(answer, a, b" ", rows[first]);
    if row.deleted {
        text::put(answer, b, b" gone ")
    } else {
        text::put(answer, b, b" live ")
    }
}

fn parts(answer: &mut [u8], c: Cursor, vector: &[u8], caption: &[u8]) -> Cursor {
    let a = atoms::bytes(answer, c, vector);
    let b = text::byte(answer, a, b' ');
    let e = atoms::bytes(answer, b, caption);
    text::byte(answer, e, b'\n')
}
