// The answers of docs/QUESTIONS.md to calls that recover a store: 8, 14, 15. A tool for tests: proved to be safe and to end.
#![tactic(auto)]

use answers_store::records;
use exchange::text::Cursor;
use exchange::{atoms, request, text};
use recovery::{NotRecovered, RecoveryInfo};
use refusal::Refusal;

// The lines of the answer, without the last. What is lent is as long as the request has it, and filled.
pub fn lines(
    call: u8,
    request: &[u8],
    rows: &mut [u64],
    active: &mut [u32],
    output: &mut [u8],
    answer: &mut [u8],
) -> Cursor {
    let snapshot = request::part(request, 0);
    let log = request::part(request, 1);
    let told = recovery::recover(snapshot, log, rows, active);
    if call == 8 {
        return recovered(told, snapshot, log, rows, active, answer);
    }
    let at = rewritten(call, told, snapshot, log, rows, output, answer);
    atoms::bytes_line(answer, at, b"output ", output)
}

fn recovered<'a>(
    told: Result<RecoveryInfo, NotRecovered>,
    snapshot: &'a [u8],
    log: &'a [u8],
    rows: &[u64],
    active: &[u32],
    answer: &mut [u8],
) -> Cursor {
    match told {
        Ok(info) => accepted(info, snapshot, log, rows, active, answer),
        Err(NotRecovered::Snapshot(why)) => {
            let at = refused_snapshot(answer, why);
            records::tables(answer, at, rows, active)
        }
        Err(NotRecovered::Log(why, byte)) => {
            let at = refused_log(answer, why, byte);
            records::tables(answer, at, rows, active)
        }
    }
}

fn accepted<'a>(
    info: RecoveryInfo,
    snapshot: &'a [u8],
    log: &'a [u8],
    rows: &[u64],
    active: &[u32],
    answer: &mut [u8],
) -> Cursor {
    let config = info.config;
    let a = records::heading(answer, config, info.crc, info.sequence);
    let b = counts(answer, a, info);
    let c = lengths(answer, b, info);
    let e = records::tables(answer, c, rows, active);
    records::lines(
        answer,
        e,
        rows,
        info.records,
        snapshot,
        log,
        config.dimensions,
    )
}

fn counts(answer: &mut [u8], c: Cursor, info: RecoveryInfo) -> Cursor {
    let a = text::named(answer, c, b" records ", info.records as u64);
    let b = text::named(answer, a, b" active ", info.active as u64);
    let e = text::named(answer, b, b" replayed ", info.replayed as u64);
    text::named(answer, e, b" skipped ", info.skipped as u64)
}

fn lengths(answer: &mut [u8], c: Cursor, info: RecoveryInfo) -> Cursor {
    let a = text::named(answer, c, b" keep ", info.keep as u64);
    let b = text::named(answer, a, b" tail ", info.tail as u64);
    text::number_line(answer, b, b" size ", info.size as u64)
}

fn refused_snapshot(answer: &mut [u8], why: Refusal) -> Cursor {
    text::refused(answer, b"refused snapshot ", why)
}

fn refused_log(answer: &mut [u8], why: Refusal, byte: usize) -> Cursor {
    let a = text::put(answer, text::start(), b"refused log ");
    let b = text::decimal(answer, a, why.number() as u64);
    text::number_line(answer, b, b" at ", byte as u64)
}

// Recovered, then written: recovery's refusal or the writer's line.
fn rewritten<'a>(
    call: u8,
    told: Result<RecoveryInfo, NotRecovered>,
    snapshot: &'a [u8],
    log: &'a [u8],
    rows: &[u64],
    output: &mut [u8],
    answer: &mut [u8],
) -> Cursor {
    match told {
        Ok(info) => answers_written::written(
            answer,
            write(call, info, snapshot, log, rows, output),
        ),
        Err(NotRecovered::Snapshot(why)) => refused_snapshot(answer, why),
        Err(NotRecovered::Log(why, byte)) => refused_log(answer, why, byte),
    }
}

fn write<'a>(
    call: u8,
    info: RecoveryInfo,
    snapshot: &'a [u8],
    log: &'a [u8],
    rows: &[u64],
    output: &mut [u8],
) -> Result<usize, Refusal> {
    let config = info.config;
    let sequence = info.sequence;
    let count = info.records;
    if call == 15 {
        return writer::write_compacted_snapshot(
            config, sequence, rows, count, snapshot, log, output,
        );
    }
    writer::write_snapshot(config, sequence, rows, count, snapshot, log, output)
}
