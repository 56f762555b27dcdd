// How much of the lent memory a call takes, and what is done with it before: words and entries hold what a part has of them and,
// behind that, the tables' fill; an output is full of its fill.
use crate::request;

pub fn words_taken(request: &[u8], call: u8) -> usize {
    let lent = request::number_of(request, call, request::WORDS) as usize;
    lent.max(request::word_part(request, call, 0).len() / 8)
}

pub fn entries_taken(request: &[u8], call: u8) -> usize {
    let lent = request::number_of(request, call, request::ENTRIES) as usize;
    lent.max(request::word_part(request, call, 1).len() / 4)
}

pub fn output_taken(request: &[u8], call: u8) -> usize {
    request::number_of(request, call, request::OUTPUT) as usize
}

pub fn fill_words(request: &[u8], call: u8, words: &mut [u64]) {
    let part = request::word_part(request, call, 0);
    let fill = request::number_of(request, call, request::TABLE_FILL);
    load64(words, part, fill);
}

// Of a fill the low 32 bits are used.
pub fn fill_entries(request: &[u8], call: u8, entries: &mut [u32]) {
    let part = request::word_part(request, call, 1);
    let fill = request::number_of(request, call, request::TABLE_FILL);
    load32(entries, part, (fill % 4294967296) as u32);
}

// Of a fill the low byte is used.
pub fn fill_output(request: &[u8], call: u8, output: &mut [u8]) {
    let fill = request::number_of(request, call, request::OUTPUT_FILL);
    fill_bytes(output, (fill % 256) as u8);
}

pub fn load64(words: &mut [u64], part: &[u8], fill: u64) {
    for (i, word) in words.iter_mut().enumerate() {
        *word = fields::read_u64(part, 8 * i).map_or(fill, |(n, _)| n);
    }
}

pub fn load32(entries: &mut [u32], part: &[u8], fill: u32) {
    for (i, entry) in entries.iter_mut().enumerate() {
        *entry = fields::read_u32(part, 4 * i).map_or(fill, |(n, _)| n);
    }
}

pub fn fill_bytes(output: &mut [u8], fill: u8) {
    output.fill(fill);
}
