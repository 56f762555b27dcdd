// The answers of docs/QUESTIONS.md to calls over the leaves: 1 to 6. A tool for tests: proved to be safe and to end.
#![tactic(auto)]

use config::Config;
use coordinates::check_coordinates;
use exchange::text::Cursor;
use exchange::{atoms, request, text};

// The lines of the answer, without the last.
pub fn lines(call: u8, request: &[u8], answer: &mut [u8]) -> Cursor {
    match call {
        1 => crc(request, answer),
        2 => text::utf8(answer, utf8::is_utf8(request::part(request, 0))),
        3 => defaults(request, answer),
        4 => text::checked(answer, request::set_of(request).validate()),
        5 => vector(request, answer),
        _ => rng_state(request, answer),
    }
}

fn crc(request: &[u8], answer: &mut [u8]) -> Cursor {
    let crc = crc32::crc32(request::part(request, 0));
    text::number_line(answer, text::start(), b"crc ", crc as u64)
}

fn defaults(request: &[u8], answer: &mut [u8]) -> Cursor {
    let settings = Config::new(request::number(request, 0) as usize);
    let at = text::put(answer, text::start(), b"settings ");
    let behind = atoms::set(answer, at, settings);
    text::byte(answer, behind, b'\n')
}

fn vector(request: &[u8], answer: &mut [u8]) -> Cursor {
    let bytes = request::part(request, 0);
    let cosine = request::number(request, 0) == 1;
    text::checked(answer, check_coordinates(bytes, 0, bytes.len() / 4, cosine))
}

fn rng_state(request: &[u8], answer: &mut [u8]) -> Cursor {
    let state = rng::rng_state(request::number(request, 0), request::number(request, 1));
    text::number_line(answer, text::start(), b"rng ", state)
}
