// The text of an answer, written into lent memory. A cursor is taken and given back by value: where the text ends, or `None`
// once it has met the end of the memory; the answer's length is then 0.
ghost use Rattle.std.specs.Prelude.{◌≤◌, ◌<◌, length};

use refusal::Refusal;

pub type Cursor = Option<usize>;

pub fn start() -> Cursor {
    Some(0)
}

// For a call that was lent too little.
pub fn too_little() -> Cursor {
    None
}

pub fn bad_request(answer: &mut [u8]) -> Cursor {
    line(answer, start(), b"bad request")
}

pub fn refused(answer: &mut [u8], name: &[u8], refusal: Refusal) -> Cursor {
    number_line(answer, start(), name, refusal.number() as u64)
}

// What a call answers that only tests.
pub fn checked(answer: &mut [u8], checked: Result<(), Refusal>) -> Cursor {
    match checked {
        Ok(()) => line(answer, start(), b"valid"),
        Err(refusal) => refused(answer, b"refused ", refusal),
    }
}

pub fn utf8(answer: &mut [u8], yes: bool) -> Cursor {
    if yes {
        line(answer, start(), b"utf8 yes")
    } else {
        line(answer, start(), b"utf8 no")
    }
}

// The length of the text before the cursor.
pub fn length(answer: &[u8], c: Cursor) -> usize
    ensures { result ≤ length answer.now }
{
    c.filter(|at| *at <= answer.len()).unwrap_or(0)
}

pub fn byte(answer: &mut [u8], c: Cursor, b: u8) -> Cursor {
    let at = c?;
    *answer.get_mut(at)? = b;
    Some(at + 1)
}

// What fits of it is written. Where that is not all, the text has met the end of the memory.
pub fn put(answer: &mut [u8], c: Cursor, s: &[u8]) -> Cursor {
    let mut at = c;
    for b in s {
        at = byte(answer, at, *b);
    }
    at
}

pub fn line(answer: &mut [u8], c: Cursor, s: &[u8]) -> Cursor {
    let at = put(answer, c, s);
    byte(answer, at, b'\n')
}

// `name` ends in a space.
pub fn number_line(answer: &mut [u8], c: Cursor, name: &[u8], n: u64) -> Cursor {
    let at = named(answer, c, name, n);
    byte(answer, at, b'\n')
}

// As `number_line`, within a line.
pub fn named(answer: &mut [u8], c: Cursor, name: &[u8], n: u64) -> Cursor {
    let at = put(answer, c, name);
    decimal(answer, at, n)
}

pub fn decimal(answer: &mut [u8], c: Cursor, n: u64) -> Cursor {
    let at = if n < 10 {
        c
    } else {
        decimal(answer, c, n / 10)
    };
    byte(answer, at, digit((n % 10) as u8))
}

// Two digits, lower case.
pub fn hex(answer: &mut [u8], c: Cursor, b: u8) -> Cursor {
    let at = byte(answer, c, digit(b / 16));
    byte(answer, at, digit(b % 16))
}

fn digit(n: u8) -> u8
    requires { n < 16 }
{
    if n < 10 { b'0' + n } else { b'a' + (n - 10) }
}
