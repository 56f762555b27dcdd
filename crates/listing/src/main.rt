// The listing: what snapshot.bin and wal.bin of the folder at hand hold, a line for each node, or why they are refused.
// A file that cannot be opened or read, or that exceeds its room, is refused by 35, before anything else.
// The text is made by the calls of `listing_text`; here files are read and lines written out. The contracts say what is lent: room and
// rows as document 01 bounds them, and a line that holds the longest. With that the lines, one after the other, are the listing of the two
// files (crate listing_theorems, specs/ListingFiles). And they say, as far as the kit lets them, that each line is the right one
// (specs/Shown): a file is read to its own half of the room, and a line is shown only as the call over the recovery of these two files
// made it. What a read finds and what a write leaves no contract says.
#![tactic(auto)]

ghost use Rattle.std.specs.Prelude.{◌≡◌, ◌+◌, ◌*◌, ◌≤◌, length, IfSome, Ok};
ghost use Rattle.listing_text.specs.Files.{listing_file_limit, listing_rows, longest_line};
ghost use Rattle.listing_text.specs.Listing.{refusal_line_call, answer_line_call, node_line_call};
ghost use Rattle.listing_text.specs.declared.Stopped.TheVariants.{File};
ghost use Rattle.listing.specs.Shown.{log_at, name_at, file_in, Recovers, Made, nodes_listed, Listed};

use listing_text::Stopped;
use recovery::{NotRecovered, RecoveryInfo};
use refusal::Refusal;
use rows::Node;
use std::fs;
use std::io::Read;
use std::rt::Files;

const FILE_LIMIT: usize = 65536;

// A file as it was found: the byte of the room that it stands from on, and its length.
#[derive(Clone, Copy)]
struct Found {
    at: usize,
    bytes: usize,
}

// One room holds both files: the snapshot from its first byte on, the log from its second half on.
fn main(rt: HostRuntime) {
    let mut room = [0u8; 131072];
    let mut rows = [0u64; 8192];
    let mut active = [0u32; 4096];
    let mut line = [0u8; 65536];
    list(&rt, &mut room, &mut rows, &mut active, &mut line);
}

fn list(
    rt: &(impl Files + Print),
    room: &mut [u8],
    rows: &mut [u64],
    active: &mut [u32],
    line: &mut [u8],
)
    requires room_len { length room.old ≡ 2 * listing_file_limit }
    requires rows_len { length rows.old ≡ 2 * listing_rows }
    requires active_len { length active.old ≡ listing_rows }
    requires longest_line_in_bounds { longest_line ≤ length line.old }
{
    // The log first: a store in use writes its snapshot and then empties its log, and an old snapshot beside an emptied log would miss
    // changes without a sign.
    let log = read(rt, "wal.bin", room, FILE_LIMIT);
    let snapshot = read(rt, "snapshot.bin", room, 0);
    let (Some(snapshot), Some(log)) = (snapshot, log) else {
        refuse_file(rt, line);
        return;
    };
    list_store(rt, room, snapshot, log, rows, active, line);
}

// `None` where it cannot be opened or read, or does not fit.
fn read(rt: &impl Files, name: &str, room: &mut [u8], at: usize) -> Option<Found>
    requires name_value { name.now ≡ name_at at }
    requires listing_file_limit_in_bounds { at + listing_file_limit ≤ length room.old }
    ensures at_value { IfSome result (λ found. found.at ≡ at) }
    ensures bytes_bound { IfSome result (λ found. found.bytes ≤ listing_file_limit) }
    ensures room_len_unchanged { length room.new ≡ length room.old }
{
    let bytes = read_to(rt, name, room, at)?;
    Some(Found { at, bytes })
}

fn read_to(rt: &impl Files, name: &str, room: &mut [u8], at: usize) -> Option<usize>
    requires name_value { name.now ≡ name_at at }
    requires listing_file_limit_in_bounds { at + listing_file_limit ≤ length room.old }
    ensures bound { IfSome result (λ n. n ≤ listing_file_limit) }
    ensures room_len_unchanged { length room.new ≡ length room.old }
{
    let Ok(mut file) = fs::open(rt, name) else {
        return None;
    };
    let n = read_full(&mut file, &mut room[at..at + FILE_LIMIT]);
    if ended(&mut file) { Some(n) } else { None }
}

// Reads until the room is full, the file ends or a read fails; how many bytes it put there.
fn read_full(file: &mut impl Read, room: &mut [u8]) -> usize
    ensures { result ≤ length room.old }
{
    let mut done = 0;
    while done < room.len() {
        match file.read(&mut room[done..]) {
            Ok(0) => return done,
            Ok(n) => done += n,
            Err(_) => return done,
        }
    }
    done
}

// Whether a read finds the file at its end.
fn ended(file: &mut impl Read) -> bool {
    let mut more = [0u8; 1];
    matches!(file.read(&mut more), Ok(0))
}

fn list_store(
    rt: &impl Print,
    room: &[u8],
    snapshot: Found,
    log: Found,
    rows: &mut [u64],
    active: &mut [u32],
    line: &mut [u8],
) -> usize
    requires room_len { length room.now ≡ 2 * listing_file_limit }
    requires at_value { snapshot.at ≡ 0 }
    requires at_value_2 { log.at ≡ log_at }
    requires bytes_le_listing_file_limit { snapshot.bytes ≤ listing_file_limit }
    requires bytes_le_listing_file_limit_2 { log.bytes ≤ listing_file_limit }
    requires rows_len { length rows.old ≡ 2 * listing_rows }
    requires active_len { length active.old ≡ listing_rows }
    requires longest_line_in_bounds { longest_line ≤ length line.old }
    ensures { Listed (file_in snapshot room.now) (file_in log room.now) result }
{
    let a = snapshot.bytes;
    let b = log.bytes;
    let of_snapshot = &room[0..a];
    let of_log = &room[FILE_LIMIT..FILE_LIMIT + b];
    let answer = recovery::recover(of_snapshot, of_log, rows, active);
    let written = listing_text::answer_line(answer, line);
    let next = show_answer(rt, room, snapshot, log, answer, rows, written, line);
    match answer {
        Ok(info) => list_nodes(rt, of_snapshot, of_log, info, rows, next, line),
        Err(_) => next,
    }
}

// Each node from the first on; the node that would come next. No more than the rows lent: beyond them every node is refused by 30.
fn list_nodes<'a>(
    rt: &impl Print,
    snapshot: &'a [u8],
    log: &'a [u8],
    info: RecoveryInfo,
    rows: &[u64],
    first: usize,
    line: &mut [u8],
) -> usize
    requires recovers { Recovers snapshot.now log.now (Ok info) rows.now }
    requires first_value { first ≡ 0 }
    requires longest_line_in_bounds { longest_line ≤ length line.old }
    ensures { result ≡ nodes_listed info.records rows.now }
{
    if rows::rows_lent_plain(rows) < info.records {
        return first;
    }
    let mut i = first;
    while i < info.records {
        let node = Node(i as u32);
        let written = listing_text::node_line(
            snapshot,
            log,
            rows,
            info.records,
            node,
            info.config.dimensions,
            line,
        );
        i = show_node(rt, snapshot, log, info, rows, node, written, line);
    }
    i
}

fn refuse_file(rt: &impl Print, line: &mut [u8])
    requires { longest_line ≤ length line.old }
{
    let written = listing_text::refusal_line(Stopped::File, line);
    show_file(rt, written, line);
}

// ---- what may be shown; each answers the node that comes next
fn show_file(rt: &impl Print, written: Result<usize, Refusal>, line: &[u8])
    requires { Made (refusal_line_call File) written line.now }
{
    show(rt, written, line);
}

fn show_answer(
    rt: &impl Print,
    room: &[u8],
    snapshot: Found,
    log: Found,
    answer: Result<RecoveryInfo, NotRecovered>,
    rows: &[u64],
    written: Result<usize, Refusal>,
    line: &[u8],
) -> usize
    requires recovers { Recovers (file_in snapshot room.now) (file_in log room.now) answer rows.now }
    requires made { Made (answer_line_call answer) written line.now }
    ensures { result ≡ 0 }
{
    show(rt, written, line);
    0
}

fn show_node(
    rt: &impl Print,
    snapshot: &[u8],
    log: &[u8],
    info: RecoveryInfo,
    rows: &[u64],
    node: Node,
    written: Result<usize, Refusal>,
    line: &[u8],
) -> usize
    requires recovers { Recovers snapshot.now log.now (Ok info) rows.now }
    requires made { Made (node_line_call info.config.dimensions rows.now info.records node.0 snapshot.now log.now) written line.now }
    ensures { result ≡ node.0 + 1 }
{
    show(rt, written, line);
    node.0 as usize + 1
}

// The bytes that a call wrote at the front of the line. A write that fails is not seen here: whoever runs the program sees it
// (the script `list`).
fn show(rt: &impl Print, written: Result<usize, Refusal>, line: &[u8]) {
    if let Ok(n) = written {
        show_front(rt, line, n);
    }
}

fn show_front(rt: &impl Print, line: &[u8], n: usize) {
    if n <= line.len() {
        let _ = rt.write_all(&line[0..n]);
    }
}
