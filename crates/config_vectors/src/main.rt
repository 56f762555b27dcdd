// Writes what the settings, the packed words and the generator give at their edges; `stdout` was worked out apart from this code.
#![tactic(auto)]

use config::{Config, Metric};
use rows::{Id, Node, Operation, Row};
use std::io;

fn show(rt: &impl Print, n: u64) -> io::Result<()> {
    println!(rt; "{n}")
}

fn show_validity(rt: &impl Print, d: usize, m: usize, ef: usize) -> io::Result<()> {
    let c = Config::new(d).with_m(m).with_ef_construction(ef);
    match c.validate() {
        Ok(()) => show(rt, 0),
        Err(why) => show(rt, why.number() as u64),
    }
}

// Every field, after those that are named were set.
fn show_settings(rt: &impl Print, seed: u64, metric: Metric) -> io::Result<()> {
    let c = Config::new(3)
        .with_m(5)
        .with_ef_construction(7)
        .with_seed(seed)
        .with_metric(metric);
    let k = c.metric;
    show(rt, c.dimensions as u64)?;
    show(rt, c.m as u64)?;
    show(rt, c.ef_construction as u64)?;
    show(rt, c.seed)?;
    show(rt, k.number() as u64)
}

fn show_metric(rt: &impl Print, v: u32) -> io::Result<()> {
    match Metric::from_u32(v) {
        Ok(k) => show(rt, k.number() as u64),
        Err(why) => show(rt, why.number() as u64),
    }
}

fn settings(rt: &impl Print) -> io::Result<()> {
    show_validity(rt, 0, 1, 0)?;
    show_validity(rt, 1, 2, 2)?;
    show_validity(rt, 4096, 64, 4096)?;
    show_validity(rt, 4097, 65, 4097)?;
    show_validity(rt, 1, 1, 0)?;
    show_validity(rt, 1, 65, 0)?;
    show_validity(rt, 1, 64, 63)?;
    show_validity(rt, 1, 64, 4097)?;
    show_settings(rt, 0, Metric::SquaredL2)?;
    show_settings(rt, 18_446_744_073_709_551_615, Metric::Cosine)?;
    show_settings(rt, 11, Metric::InnerProduct)
}

fn metrics(rt: &impl Print) -> io::Result<()> {
    show_metric(rt, 0)?;
    show_metric(rt, 1)?;
    show_metric(rt, 2)?;
    show_metric(rt, 3)?;
    show_metric(rt, 4_294_967_295)
}

fn show_row(rt: &impl Print, word: u64) -> io::Result<()> {
    let r = Row::unpack(Id(7), word);
    show(rt, u64::from(r.deleted))?;
    show(rt, u64::from(r.from_log))?;
    show(rt, r.caption_length as u64)?;
    show(rt, r.at as u64)
}

fn show_operation(rt: &impl Print, word: u64) -> io::Result<()> {
    let o = Operation::unpack(Id(7), word);
    show(rt, u64::from(o.put))?;
    show(rt, o.caption_length as u64)?;
    show(rt, o.at as u64)
}

fn operations(rt: &impl Print) -> io::Result<()> {
    let most = Operation {
        id: Id(7),
        put: true,
        caption_length: 32_767,
        at: 281_474_976_710_655,
    };
    show(rt, most.pack())?;
    let bare = Operation {
        id: Id(7),
        put: true,
        caption_length: 0,
        at: 0,
    };
    show(rt, bare.pack())?;
    let delete = Operation {
        id: Id(7),
        put: false,
        caption_length: 0,
        at: 0,
    };
    show(rt, delete.pack())
}

fn words(rt: &impl Print) -> io::Result<()> {
    let p12 = Row {
        id: Id(7),
        deleted: false,
        from_log: true,
        caption_length: 2,
        at: 64,
    };
    show(rt, p12.pack())?;
    let full = Row {
        id: Id(7),
        deleted: true,
        from_log: true,
        caption_length: 32_767,
        at: 140_737_488_355_327,
    };
    show(rt, full.pack())?;
    let put = Operation {
        id: Id(7),
        put: true,
        caption_length: 2,
        at: 5,
    };
    show(rt, put.pack())?;
    show_row(rt, 4_611_967_493_404_098_624)?;
    show_row(rt, 9_223_372_036_854_775_809)?;
    show_operation(rt, 9_223_934_986_808_197_125)
}

fn tables(rt: &impl Print) -> io::Result<()> {
    let mut rows = [0u64; 9];
    let active = [0u32; 3];
    show(rt, rows::rows_lent(&rows, &active) as u64)?;
    show(rt, rows::rows_lent_plain(&rows) as u64)?;
    let gone = Row {
        id: Id(7),
        deleted: true,
        from_log: false,
        caption_length: 0,
        at: 61,
    };
    rows::set_row(&mut rows, Node(1), gone);
    let back = rows::row_at(&rows, Node(1));
    let id = back.id;
    show(rt, id.0)?;
    show(rt, back.at as u64)?;
    show(rt, rows[3])?;
    show(rt, rows[4])
}

fn states(rt: &impl Print) -> io::Result<()> {
    show(rt, rng::rng_state(42, 0))?;
    show(rt, rng::rng_state(42, 1))?;
    show(rt, rng::rng_state(42, 2))?;
    show(rt, rng::rng_state(42, 100_000))?;
    show(
        rt,
        rng::rng_state(18_446_744_073_709_551_615, 18_446_744_073_709_551_615),
    )?;
    show(
        rt,
        rng::wrapping_mul(18_446_744_073_709_551_615, 18_446_744_073_709_551_615),
    )?;
    show(
        rt,
        rng::wrapping_mul(4_294_967_297, 12_345_678_901_234_567_890),
    )
}

fn main(rt: HostRuntime) -> io::Result<()> {
    settings(&rt)?;
    metrics(&rt)?;
    words(&rt)?;
    operations(&rt)?;
    tables(&rt)?;
    states(&rt)
}
