// The answers of docs/QUESTIONS.md under their C name, for an archive that a native host links: the call of the crate `answers` is
// handed on.
#![tactic(auto)]

ghost use Rattle.std.specs.Prelude.{◌≤◌, length};

// The request is without its length field. Gives the length of the text, or 0 if the lent memory does not suffice. To a host in
// C each slice is a pointer and a length.
#[unsafe(no_mangle)]
pub extern "C" fn answer_request(
    request: &[u8],
    words: &mut [u64],
    entries: &mut [u32],
    output: &mut [u8],
    answer: &mut [u8],
) -> usize
    ensures { result ≤ length answer.old }
{
    answers::answer_request(request, words, entries, output, answer)
}
