// Recovery behind a C name, for bench/ to time.
#![tactic(auto)]

use recovery::NotRecovered;
use refusal::Refusal;

// `refused` is 0, or the refusal, and then the rest is 0.
#[repr(C)]
#[derive(Clone, Copy)]
pub struct Told {
    pub refused: u64,
    pub sequence: u64,
    pub crc: u64,
    pub records: u64,
    pub active: u64,
    pub replayed: u64,
    pub skipped: u64,
    pub keep: u64,
    pub tail: u64,
    pub size: u64,
}

#[unsafe(no_mangle)]
pub extern "C" fn measure_recover(
    snapshot: &[u8],
    log: &[u8],
    rows: &mut [u64],
    active: &mut [u32],
) -> Told {
    match recovery::recover(snapshot, log, rows, active) {
        Ok(info) => Told {
            refused: 0,
            sequence: info.sequence,
            crc: info.crc as u64,
            records: info.records as u64,
            active: info.active as u64,
            replayed: info.replayed as u64,
            skipped: info.skipped as u64,
            keep: info.keep as u64,
            tail: info.tail as u64,
            size: info.size as u64,
        },
        Err(NotRecovered::Snapshot(why) | NotRecovered::Log(why, _)) => refused(why),
    }
}

fn refused(why: Refusal) -> Told {
    Told {
        refused: why.number() as u64,
        sequence: 0,
        crc: 0,
        records: 0,
        active: 0,
        replayed: 0,
        skipped: 0,
        keep: 0,
        tail: 0,
        size: 0,
    }
}
