// The answers of docs/QUESTIONS.md. A tool for tests: proved to be safe and to end, and to keep its text within the lent memory;
// what it answers is compared with the original.
//
// The calls are answered by the crates answers_*, one for each part of the store, so that a new call proves none of the others
// anew. Each has a function `lines`, which is handed a request that is no bad request, and lent memory of the length that the
// request has, filled; it writes the lines of the answer but the last, and gives the cursor behind them.
#![tactic(auto)]

ghost use Rattle.std.specs.Prelude.{◌≤◌, length};

use exchange::text::Cursor;
use exchange::{lend, request, text};

// The request is without its length field. Gives the length of the text, or 0 if the lent memory does not suffice. To a host in
// C each slice is a pointer and a length.
#[unsafe(no_mangle)]
pub extern "C" fn answer_request(
    request: &[u8],
    words: &mut [u64],
    entries: &mut [u32],
    output: &mut [u8],
    answer: &mut [u8],
) -> usize
    ensures { result ≤ length answer.old }
{
    let lines = lines(request, words, entries, output, answer);
    let whole = text::line(answer, lines, b".");
    text::length(answer, whole)
}

// The lines of the answer, without the last.
fn lines(
    request: &[u8],
    words: &mut [u64],
    entries: &mut [u32],
    output: &mut [u8],
    answer: &mut [u8],
) -> Cursor {
    match request::call_of(request) {
        Some(call) => lent(call, request, words, entries, output, answer),
        None => text::bad_request(answer),
    }
}

// The call is lent as much as the request has.
fn lent(
    call: u8,
    request: &[u8],
    words: &mut [u64],
    entries: &mut [u32],
    output: &mut [u8],
    answer: &mut [u8],
) -> Cursor {
    let w = lend::words_taken(request, call);
    let e = lend::entries_taken(request, call);
    let o = lend::output_taken(request, call);
    if words.len() < w || entries.len() < e || output.len() < o {
        return too_little(answer);
    }
    filled(
        call,
        request,
        &mut words[0..w],
        &mut entries[0..e],
        &mut output[0..o],
        answer,
    )
}

// The last line stands in the memory, and counts for nothing.
fn too_little(answer: &mut [u8]) -> Cursor {
    text::line(answer, text::start(), b".");
    text::too_little()
}

fn filled(
    call: u8,
    request: &[u8],
    words: &mut [u64],
    entries: &mut [u32],
    output: &mut [u8],
    answer: &mut [u8],
) -> Cursor {
    lend::fill_words(request, call, words);
    lend::fill_entries(request, call, entries);
    lend::fill_output(request, call, output);
    lines_of(call, request, words, entries, output, answer)
}

// A call that no arm has is in original/not-yet.txt.
fn lines_of(
    call: u8,
    request: &[u8],
    words: &mut [u64],
    entries: &mut [u32],
    output: &mut [u8],
    answer: &mut [u8],
) -> Cursor {
    match call {
        1 | 2 | 3 | 4 | 5 | 6 => answers_leaves::lines(call, request, answer),
        7 | 16 | 17 | 18 => answers_store::lines(call, request, words, entries, answer),
        10 | 11 | 12 | 13 | 21 | 22 | 23 => {
            answers_written::lines(call, request, words, entries, output, answer)
        }
        8 | 14 | 15 => answers_recovery::lines(call, request, words, entries, output, answer),
        19 | 20 => answers_graph::lines(call, request, words, entries, answer),
        _ => text::line(answer, text::start(), b"not yet"),
    }
}
