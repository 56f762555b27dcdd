// The snapshot's reading and writing behind C names, for bench/ to time.
#![tactic(auto)]

use config::Config;

// `refused` is 0, or the refusal, and then the rest is 0.
#[repr(C)]
#[derive(Clone, Copy)]
pub struct Told {
    pub refused: u64,
    pub sequence: u64,
    pub crc: u64,
    pub records: u64,
    pub active: u64,
    pub size: u64,
}

#[unsafe(no_mangle)]
pub extern "C" fn measure_read_snapshot(
    bytes: &[u8],
    rows: &mut [u64],
    active: &mut [u32],
) -> Told {
    match snapshot::read_snapshot(bytes, rows, active) {
        Ok(info) => Told {
            refused: 0,
            sequence: info.sequence,
            crc: info.crc as u64,
            records: info.records as u64,
            active: info.active as u64,
            size: info.size as u64,
        },
        Err(why) => Told {
            refused: why.number() as u64,
            sequence: 0,
            crc: 0,
            records: 0,
            active: 0,
            size: 0,
        },
    }
}

// The length, with the settings that `Config::new` gives. A refusal has the highest bit.
#[unsafe(no_mangle)]
pub extern "C" fn measure_write_snapshot<'a>(
    d: usize,
    sequence: u64,
    rows: &[u64],
    count: usize,
    snapshot: &'a [u8],
    log: &'a [u8],
    out: &mut [u8],
) -> u64 {
    match writer::write_snapshot(Config::new(d), sequence, rows, count, snapshot, log, out) {
        Ok(n) => n as u64,
        Err(why) => 9_223_372_036_854_775_808 + (why.number() as u64),
    }
}
