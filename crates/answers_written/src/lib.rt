// The answers of docs/QUESTIONS.md to calls that write frames and snapshots, 10 to 13, and to the C entries, 21 to 23. A tool for
// tests: proved to be safe and to end.
#![tactic(auto)]

use exchange::text::Cursor;
use exchange::{atoms, request, text};
use refusal::Refusal;

// The lines of the answer, without the last. What is lent is as long as the request has it, and filled; words are operations or
// rows.
pub fn lines(
    call: u8,
    request: &[u8],
    words: &[u64],
    coordinates: &[u32],
    output: &mut [u8],
    answer: &mut [u8],
) -> Cursor {
    match call {
        21 => crc(request, answer),
        22 => text::utf8(
            answer,
            playout::lambspool_is_utf8(request::part(request, 0)),
        ),
        _ => with_output(call, request, words, coordinates, output, answer),
    }
}

fn crc(request: &[u8], answer: &mut [u8]) -> Cursor {
    let crc = playout::lambspool_crc32(request::part(request, 0));
    text::number_line(answer, text::start(), b"crc ", crc as u64)
}

fn with_output(
    call: u8,
    request: &[u8],
    words: &[u64],
    coordinates: &[u32],
    output: &mut [u8],
    answer: &mut [u8],
) -> Cursor {
    let at = first_line(call, request, words, coordinates, output, answer);
    atoms::bytes_line(answer, at, b"output ", output)
}

fn first_line(
    call: u8,
    request: &[u8],
    words: &[u64],
    coordinates: &[u32],
    output: &mut [u8],
    answer: &mut [u8],
) -> Cursor {
    match call {
        10 | 11 => encoded(answer, encode(call, request, words, coordinates, output)),
        12 | 13 => written(answer, write(call, request, words, output)),
        _ => delete_frame(request, output, answer),
    }
}

fn encode(
    call: u8,
    request: &[u8],
    operations: &[u64],
    coordinates: &[u32],
    output: &mut [u8],
) -> Result<usize, Refusal> {
    let config = request::set_of(request);
    let sequence = request::number(request, 5);
    let captions = request::part(request, 2);
    if call == 11 {
        return encoder::encode_batch(config, sequence, operations, coordinates, captions, output);
    }
    encoder::encode_frame(config, sequence, operations, coordinates, captions, output)
}

fn encoded(answer: &mut [u8], told: Result<usize, Refusal>) -> Cursor {
    match told {
        Ok(n) => text::number_line(answer, text::start(), b"encoded ", n as u64),
        Err(why) => text::refused(answer, b"refused ", why),
    }
}

fn write(call: u8, request: &[u8], rows: &[u64], output: &mut [u8]) -> Result<usize, Refusal> {
    let config = request::set_of(request);
    let sequence = request::number(request, 5);
    let count = request::number(request, 6) as usize;
    let snapshot = request::part(request, 1);
    let log = request::part(request, 2);
    if call == 13 {
        return writer::write_compacted_snapshot(
            config, sequence, rows, count, snapshot, log, output,
        );
    }
    writer::write_snapshot(config, sequence, rows, count, snapshot, log, output)
}

pub fn written(answer: &mut [u8], told: Result<usize, Refusal>) -> Cursor {
    match told {
        Ok(n) => text::number_line(answer, text::start(), b"written ", n as u64),
        Err(why) => text::refused(answer, b"refused ", why),
    }
}

fn delete_frame(request: &[u8], output: &mut [u8], answer: &mut [u8]) -> Cursor {
    let sequence = request::number(request, 0);
    let id = request::number(request, 1);
    let n = playout::lambspool_delete_frame(sequence, id, output);
    text::number_line(answer, text::start(), b"written ", n as u64)
}
