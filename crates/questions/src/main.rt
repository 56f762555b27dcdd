// Answers the requests of standard input on standard output until the input ends. The format, and what may be asked here, is
// in docs/QUESTIONS.md; what is more is answered by `too large`, and ends the run, as does a request that is cut short.
#![tactic(auto)]

use std::io;
use std::io::{ErrorKind, Read};

fn main(rt: HostRuntime) -> io::Result<()> {
    let mut request = [0u8; 65536];
    let mut words = [0u64; 12288];
    let mut coordinates = [0u32; 16384];
    let mut output = [0u8; 65536];
    let mut answer = [0u8; 262144];
    answer_all(
        &rt,
        &mut request,
        &mut words,
        &mut coordinates,
        &mut output,
        &mut answer,
    )
}

// Nothing says that the input ends, so the turns are counted, up to a number that no run uses up.
fn answer_all(
    rt: &(impl Input + Print),
    request: &mut [u8],
    words: &mut [u64],
    coordinates: &mut [u32],
    output: &mut [u8],
    answer: &mut [u8],
) -> io::Result<()> {
    let mut input = rt.reader();
    for _ in 0..u64::MAX {
        if !answer_next(rt, &mut input, request, words, coordinates, output, answer)? {
            return Ok(());
        }
    }
    Ok(())
}

// Whether to go on.
fn answer_next(
    rt: &impl Print,
    input: &mut impl Read,
    request: &mut [u8],
    words: &mut [u64],
    coordinates: &mut [u32],
    output: &mut [u8],
    answer: &mut [u8],
) -> io::Result<bool> {
    let Some(n) = next_length(input)? else {
        return Ok(false);
    };
    if request.len() < n {
        return too_large(rt);
    }
    if !read_full(input, &mut request[0..n])? {
        return Ok(false);
    }
    let text = answers::answer_request(&request[0..n], words, coordinates, output, answer);
    if text == 0 {
        return too_large(rt);
    }
    rt.write_all(&answer[0..text])?;
    Ok(true)
}

fn too_large(rt: &impl Print) -> io::Result<bool> {
    print!(rt; "too large\n.\n")?;
    Ok(false)
}

// The next request's length, or `None` where the input ends.
fn next_length(input: &mut impl Read) -> io::Result<Option<usize>> {
    let mut head = [0u8; 4];
    if !read_full(input, &mut head)? {
        return Ok(None);
    }
    let low = wide(head[0]) + wide(head[1]) * 256;
    let high = wide(head[2]) + wide(head[3]) * 256;
    Ok(Some(low + high * 65536))
}

// Whether the input had as many bytes.
fn read_full(input: &mut impl Read, buf: &mut [u8]) -> io::Result<bool> {
    match input.read_exact(buf) {
        Ok(()) => Ok(true),
        Err(e) if e.kind() == ErrorKind::UnexpectedEof => Ok(false),
        Err(e) => Err(e),
    }
}

fn wide(b: u8) -> usize
    ensures { result < 256 }
{
    b as usize
}

ghost use Rattle.std.specs.Prelude.{◌<◌};
