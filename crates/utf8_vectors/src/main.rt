// Runs is_utf8 and valid_front over published boundary cases, one to a line of standard input, in hexadecimal, and writes for each y or n
// and the length of the valid front. `vectors.py` beside this folder makes the cases from the tables of RFC 3629 and of the Unicode
// standard, and what is expected by Python's own bytes.decode, not by this code.
#![tactic(auto)]

ghost use Rattle.std.specs.Prelude.{◌+◌, ◌<◌, ◌≤◌, length};

use std::io;
use std::io::Read;

// No more of the input is read than there is room for.
fn main(rt: HostRuntime) -> io::Result<()> {
    let mut room = [0u8; 65536];
    let n = read_full(&mut rt.reader(), &mut room);
    lines(&rt, &room[..n])
}

// Reads until the room is full, the input ends or a read fails; how many bytes it put there.
fn read_full(input: &mut impl Read, room: &mut [u8]) -> usize
    ensures { result ≤ length room.new }
{
    let mut done = 0;
    while done < room.len() {
        match input.read(&mut room[done..]) {
            Ok(0) => return done,
            Ok(n) => done += n,
            Err(_) => return done,
        }
    }
    done
}

fn lines(rt: &impl Print, s: &[u8]) -> io::Result<()> {
    let mut bytes = [0u8; 128];
    let mut at: usize = 0;
    while at < s.len() {
        let e = line_end(s, at);
        let n = decode(&s[at..e], &mut bytes);
        answer(rt, &bytes[..n])?;
        at = e + 1;
    }
    Ok(())
}

fn answer(rt: &impl Print, s: &[u8]) -> io::Result<()> {
    if utf8::is_utf8(s) {
        print!(rt; "y ")?;
    } else {
        print!(rt; "n ")?;
    }
    let front = utf8::valid_front(s);
    println!(rt; "{front}")
}

// Where the line that begins at `at` ends.
fn line_end(s: &[u8], at: usize) -> usize
    requires { at < length s.now }
    ensures { (at ≤ result) × (result ≤ length s.now) }
{
    for i in at..s.len() {
        if s[i] == b'\n' {
            return i;
        }
    }
    s.len()
}

// The bytes that s has in hexadecimal, as many as there is room for.
fn decode(s: &[u8], out: &mut [u8]) -> usize
    ensures { result ≤ length out.old }
{
    let n = out.len().min(s.len() / 2);
    for i in 0..n {
        out[i] = digit(s[2 * i]) * 16 + digit(s[2 * i + 1]);
    }
    n
}

fn digit(b: u8) -> u8
    ensures { result < 16 }
{
    match b {
        b'0'..=b'9' => b - b'0',
        b'A'..=b'F' => b - b'A' + 10,
        _ => 0,
    }
}
