// The cache's reading and its view behind C names, for bench/ to time and to compare.
#![tactic(auto)]

use config::{Config, Metric};
use rows::Node;

// `refused` is 0, or the refusal, and then the rest is 0. No entry is all ones.
#[repr(C)]
#[derive(Clone, Copy)]
pub struct Told {
    pub refused: u64,
    pub nodes: u64,
    pub entry: u64,
    pub rng_state: u64,
}

fn entry_number(entry: Option<Node>) -> u64 {
    entry.map_or(u64::MAX, |node| u64::from(node.0))
}

#[unsafe(no_mangle)]
pub extern "C" fn measure_read_cache(
    bytes: &[u8],
    d: usize,
    m: usize,
    ef: usize,
    seed: u64,
    crc: u32,
    sequence: u64,
    count: usize,
    starts: &mut [u64],
) -> Told {
    let config = Config {
        dimensions: d,
        m,
        ef_construction: ef,
        seed,
        metric: Metric::SquaredL2,
    };
    match graph::read_cache(bytes, config, crc, sequence, count, starts) {
        Ok(info) => Told {
            refused: 0,
            nodes: info.nodes as u64,
            entry: entry_number(info.entry),
            rng_state: info.rng_state,
        },
        Err(why) => Told {
            refused: why.number() as u64,
            nodes: 0,
            entry: 0,
            rng_state: 0,
        },
    }
}

// The number that the view's call tells.
#[unsafe(no_mangle)]
pub extern "C" fn measure_neighbours_number(
    cache: &[u8],
    starts: &[u64],
    count: usize,
    node: u32,
    level: usize,
) -> u32 {
    graph::neighbours_number(cache, starts, count, Node(node), level)
}

// The part that the view gives, copied to the front of `out`; its length, or all ones where `out` is too short.
#[unsafe(no_mangle)]
pub extern "C" fn measure_neighbours(
    cache: &[u8],
    starts: &[u64],
    count: usize,
    node: u32,
    level: usize,
    out: &mut [u8],
) -> usize {
    let part = graph::neighbours(cache, starts, count, Node(node), level);
    if out.len() < part.len() {
        return usize::MAX;
    }
    fields::copy(out, part);
    part.len()
}
