// The answers of docs/QUESTIONS.md to calls that read a store: 7, 16, 17, 18. A tool for tests: proved to be safe and to end.
#![tactic(auto)]

pub mod records;

use exchange::text::Cursor;
use exchange::{atoms, request, text};
use rows::{Id, Node};
use snapshot::SnapshotInfo;

// The lines of the answer, without the last. What is lent is as long as the request has it, and filled.
pub fn lines(
    call: u8,
    request: &[u8],
    rows: &mut [u64],
    active: &mut [u32],
    answer: &mut [u8],
) -> Cursor {
    match call {
        7 => read(request::part(request, 0), rows, active, answer),
        16 => found(request, rows, answer),
        _ => view(call, request, rows, answer),
    }
}

fn read(bytes: &[u8], rows: &mut [u64], active: &mut [u32], answer: &mut [u8]) -> Cursor {
    match snapshot::read_snapshot(bytes, rows, active) {
        Ok(info) => accepted(info, bytes, rows, active, answer),
        Err(why) => {
            let at = text::refused(answer, b"refused snapshot ", why);
            records::tables(answer, at, rows, active)
        }
    }
}

fn accepted(
    info: SnapshotInfo,
    bytes: &[u8],
    rows: &[u64],
    active: &[u32],
    answer: &mut [u8],
) -> Cursor {
    let config = info.config;
    let a = records::heading(answer, config, info.crc, info.sequence);
    let b = counts(answer, a, info.records, info.active, info.size);
    let c = records::tables(answer, b, rows, active);
    records::lines(
        answer,
        c,
        rows,
        info.records,
        bytes,
        &bytes[..0],
        config.dimensions,
    )
}

fn counts(answer: &mut [u8], c: Cursor, records: usize, active: usize, size: usize) -> Cursor {
    let a = text::named(answer, c, b" records ", records as u64);
    let b = text::named(answer, a, b" active ", active as u64);
    text::number_line(answer, b, b" size ", size as u64)
}

fn found(request: &[u8], rows: &[u64], answer: &mut [u8]) -> Cursor {
    let count = request::number(request, 0) as usize;
    match views::lookup(rows, count, Id(request::number(request, 1))) {
        Ok(Some(node)) => text::number_line(answer, text::start(), b"node ", node.0 as u64),
        Ok(None) => text::line(answer, text::start(), b"none"),
        Err(why) => text::refused(answer, b"refused ", why),
    }
}

// 17 asks for the caption, 18 for the vector.
fn view(call: u8, request: &[u8], rows: &[u64], answer: &mut [u8]) -> Cursor {
    let d = request::number(request, 0) as usize;
    let count = request::number(request, 1) as usize;
    let node = request::number32(request, 2);
    let snapshot = request::part(request, 1);
    let log = request::part(request, 2);
    if call == 17 {
        let number = views::caption_number(snapshot, log, rows, count, Node(node), d);
        let part = views::caption_view(snapshot, log, rows, count, Node(node), d);
        return viewed(answer, number, part);
    }
    let number = views::vector_number(snapshot, log, rows, count, Node(node), d);
    let part = views::vector_view(snapshot, log, rows, count, Node(node), d);
    viewed(answer, number, part)
}

fn viewed(answer: &mut [u8], number: u32, part: &[u8]) -> Cursor {
    let at = text::number_line(answer, text::start(), b"number ", number as u64);
    atoms::bytes_line(answer, at, b"part ", part)
}
