// The lines of the listing, written into lent memory: the first line or a refusal's line, by themselves or as recovery's answer has them;
// the line of one node.
// Each call answers how many bytes it wrote at the front of its output, or refuses by number and changes no byte: nothing is
// written before the line's length is known to fit. The definitions are in specs/: Decimal, Lines, and Listing for the calls.
#![tactic(auto)]

ghost use Rattle.std.specs.Prelude.{◌≡◌, ◌++◌, ◌+◌, ◌≤◌, length};
ghost use Rattle.refusal.specs.Refusal.{written_told};
ghost use Rattle.meaning.specs.Calls.{output_after};
ghost use Rattle.fields.specs.Placed.{placed};
ghost use Rattle.listing_text.specs.Decimal.{digit, decimal};
ghost use Rattle.listing_text.specs.Lines.{ascii, newline, named, state_counts, log_counts, line_of, state_text};
ghost use Rattle.listing_text.specs.Listing.{heading_shown, stopped_by, fitted, first_line_call, refusal_line_call, answer_line_call, node_line_call};

use recovery::{NotRecovered, RecoveryInfo};
use refusal::Refusal;
use rows::{Node, Row};
use sources::Shown;

// What the first line tells.
#[derive(Clone, Copy)]
pub struct Heading {
    pub sequence: u64,
    pub records: usize,
    pub active: usize,
    pub replayed: usize,
    pub skipped: usize,
    pub keep: usize,
    pub tail: usize,
}

// What was refused: the snapshot; the log, with the byte; or a file that cannot be opened or read, or is too long.
#[derive(Clone, Copy)]
pub enum Stopped {
    Snapshot(Refusal),
    Log(Refusal, usize),
    File,
}

// ---- numbers
// How many digits a number has: 20 at most, so that no sum of lengths below passes a usize.
fn digit_count(n: u64) -> usize
    ensures value { result ≡ length (decimal n) }
    ensures upper_bound { result ≤ 20 }
{
    let mut count: usize = 1;
    let mut rest = n;
    while 10 <= rest {
        rest /= 10;
        count += 1;
    }
    count
}

// The digits at `at`, written from the last; the cursor behind them.
fn put_decimal(out: &mut [u8], at: usize, n: u64) -> usize
    requires { at + length (decimal n) ≤ length out.old }
    ensures value { result ≡ at + length (decimal n) }
    ensures out_after { out.new ≡ placed at (decimal n) out.old }
{
    let end = at + digit_count(n);
    let mut i = end;
    let mut rest = n;
    while 10 <= rest {
        i -= 1;
        out[i] = digit_of(rest % 10);
        rest /= 10;
    }
    out[at] = digit_of(rest);
    end
}

fn digit_of(d: u64) -> u8
    requires { d ≤ 9 }
    ensures { result ≡ digit d }
{
    48 + d as u8
}

// ---- words
// Bytes at `at`; the cursor behind them.
fn put(out: &mut [u8], at: usize, words: &[u8]) -> usize
    requires { at + length words.now ≤ length out.old }
    ensures value { result ≡ at + length words.now }
    ensures out_after { out.new ≡ placed at words.now out.old }
{
    let end = at + words.len();
    fields::copy(&mut out[at..], words);
    end
}

// Words and the number behind them.
fn put_named(out: &mut [u8], at: usize, words: &[u8], n: u64) -> usize
    requires { at + length (named words.now n) ≤ length out.old }
    ensures value { result ≡ at + length (named words.now n) }
    ensures out_after { out.new ≡ placed at (named words.now n) out.old }
{
    let next = put(out, at, words);
    put_decimal(out, next, n)
}

// ---- the first line, in two halves
// The words of the first take 21 bytes, those of the second 31.
fn state_length(h: Heading) -> usize
    ensures value { result ≡ length (state_counts h) }
    ensures upper_bound { result ≤ 81 }
{
    21 + digit_count(h.sequence) + digit_count(h.records as u64) + digit_count(h.active as u64)
}

fn log_length(h: Heading) -> usize
    ensures value { result ≡ length (log_counts h) }
    ensures upper_bound { result ≤ 111 }
{
    let frames = digit_count(h.replayed as u64) + digit_count(h.skipped as u64);
    let bytes = digit_count(h.keep as u64) + digit_count(h.tail as u64);
    31 + frames + bytes
}

fn put_state(out: &mut [u8], at: usize, h: Heading) -> usize
    requires { at + length (state_counts h) ≤ length out.old }
    ensures value { result ≡ at + length (state_counts h) }
    ensures out_after { out.new ≡ placed at (state_counts h) out.old }
{
    let a = put_named(out, at, b"seq ", h.sequence);
    let b = put_named(out, a, b" records ", h.records as u64);
    put_named(out, b, b" active ", h.active as u64)
}

fn put_log(out: &mut [u8], at: usize, h: Heading) -> usize
    requires { at + length (log_counts h) ≤ length out.old }
    ensures value { result ≡ at + length (log_counts h) }
    ensures out_after { out.new ≡ placed at (log_counts h) out.old }
{
    let a = put_named(out, at, b" replayed ", h.replayed as u64);
    let b = put_named(out, a, b" skipped ", h.skipped as u64);
    let c = put_named(out, b, b" keep ", h.keep as u64);
    put_named(out, c, b" tail ", h.tail as u64)
}

// The first line of an accepted recovery.
pub fn first_line(heading: Heading, out: &mut [u8]) -> Result<usize, Refusal>
    ensures value { result ≡ written_told (first_line_call heading out.old) }
    ensures out_after { out.new ≡ output_after out.old (first_line_call heading out.old) }
{
    let n = state_length(heading) + log_length(heading) + 1;
    if out.len() < n {
        return Err(Refusal::OutputTooShort);
    }
    let a = put_state(out, 0, heading);
    let b = put_log(out, a, heading);
    put(out, b, b"\n");
    Ok(n)
}

// ---- a refusal's line
// Words, a number and the newline.
pub fn number_line(words: &[u8], n: u64, out: &mut [u8]) -> Result<usize, Refusal>
    ensures value { result ≡ written_told (fitted out.old (named words.now n ++ newline)) }
    ensures out_after { out.new ≡ output_after out.old (fitted out.old (named words.now n ++ newline)) }
{
    let size = words.len() + digit_count(n) + 1;
    if out.len() < size {
        return Err(Refusal::OutputTooShort);
    }
    let end = put_named(out, 0, words, n);
    put(out, end, b"\n");
    Ok(size)
}

// `refused log N at B`: the words take 16 bytes, the newline one.
pub fn log_line(number: u64, at: u64, out: &mut [u8]) -> Result<usize, Refusal>
    ensures value { result ≡ written_told (fitted out.old (named (ascii "refused log ") number ++ (named (ascii " at ") at ++ newline))) }
    ensures out_after { out.new ≡ output_after out.old (fitted out.old (named (ascii "refused log ") number ++ (named (ascii " at ") at ++ newline))) }
{
    let size = 17 + digit_count(number) + digit_count(at);
    if out.len() < size {
        return Err(Refusal::OutputTooShort);
    }
    let a = put_named(out, 0, b"refused log ", number);
    let b = put_named(out, a, b" at ", at);
    put(out, b, b"\n");
    Ok(size)
}

// The line that stands in place of all others.
pub fn refusal_line(stopped: Stopped, out: &mut [u8]) -> Result<usize, Refusal>
    ensures value { result ≡ written_told (refusal_line_call stopped out.old) }
    ensures out_after { out.new ≡ output_after out.old (refusal_line_call stopped out.old) }
{
    match stopped {
        Stopped::Snapshot(why) => number_line(b"refused snapshot ", why.number() as u64, out),
        Stopped::Log(why, at) => log_line(why.number() as u64, at as u64, out),
        Stopped::File => {
            let why = Refusal::FileUnreadable;
            number_line(b"refused file ", why.number() as u64, out)
        }
    }
}

// ---- the line that recovery's answer is told by
fn heading_of(info: RecoveryInfo) -> Heading
    ensures { result ≡ heading_shown info }
{
    Heading {
        sequence: info.sequence,
        records: info.records,
        active: info.active,
        replayed: info.replayed,
        skipped: info.skipped,
        keep: info.keep,
        tail: info.tail,
    }
}

impl From<NotRecovered> for Stopped {
    fn from(why: NotRecovered) -> Stopped
        ensures { result ≡ stopped_by why }
    {
        match why {
            NotRecovered::Snapshot(why) => Stopped::Snapshot(why),
            NotRecovered::Log(why, at) => Stopped::Log(why, at),
        }
    }
}

// The first line of an answer that is no refusal, or the refusal's line.
pub fn answer_line(
    answer: Result<RecoveryInfo, NotRecovered>,
    out: &mut [u8],
) -> Result<usize, Refusal>
    ensures value { result ≡ written_told (answer_line_call answer out.old) }
    ensures out_after { out.new ≡ output_after out.old (answer_line_call answer out.old) }
{
    match answer {
        Ok(info) => first_line(heading_of(info), out),
        Err(why) => refusal_line(Stopped::from(why), out),
    }
}

// ---- the line of a node
// Node, ID, state and what follows it; the space between node and ID, and the newline, take two bytes.
fn line_of(
    node: u64,
    id: u64,
    state: &[u8],
    caption: &[u8],
    out: &mut [u8],
) -> Result<usize, Refusal>
    requires { length state.now ≤ 6 }
    ensures value { result ≡ written_told (fitted out.old (line_of node id (state.now ++ caption.now))) }
    ensures out_after { out.new ≡ output_after out.old (fitted out.old (line_of node id (state.now ++ caption.now))) }
{
    let size = digit_count(node) + digit_count(id) + state.len() + caption.len() + 2;
    if out.len() < size {
        return Err(Refusal::OutputTooShort);
    }
    let a = put_decimal(out, 0, node);
    let b = put_named(out, a, b" ", id);
    let c = put(out, b, state);
    let d = put(out, c, caption);
    put(out, d, b"\n");
    Ok(size)
}

fn state_line(node: Node, row: Row, caption: &[u8], out: &mut [u8]) -> Result<usize, Refusal>
    ensures value { result ≡ written_told (fitted out.old (line_of node.0 row.id.0 (state_text row.deleted caption.now))) }
    ensures out_after { out.new ≡ output_after out.old (fitted out.old (line_of node.0 row.id.0 (state_text row.deleted caption.now))) }
{
    let id = row.id;
    if row.deleted {
        return line_of(node.0 as u64, id.0, b" gone", b"", out);
    }
    line_of(node.0 as u64, id.0, b" live ", caption, out)
}

// The line of a node below the count; 6, 30 and 31 as the caption's view has them, then 32.
#[tactic(auto, using(crate::proofs::NodeLines::node_lent, crate::proofs::NodeLines::part_inside, crate::proofs::NodeLines::part_of_row), unfolding(crate::specs::Listing::node_line_call))]
pub fn node_line<'a>(
    snapshot: &'a [u8],
    log: &'a [u8],
    rows: &[u64],
    count: usize,
    node: Node,
    d: usize,
    out: &mut [u8],
) -> Result<usize, Refusal>
    ensures value { result ≡ written_told (node_line_call d rows.now count node.0 snapshot.now log.now out.old) }
    ensures out_after { out.new ≡ output_after out.old (node_line_call d rows.now count node.0 snapshot.now log.now out.old) }
{
    let part = views::view(Shown::Caption, snapshot, log, rows, count, node, d)?;
    let row = rows::row_at(rows, node);
    let caption = sources::cut(snapshot, log, part);
    state_line(node, row, caption, out)
}
