// Snapshots, written: Full with every row below the count, or Compacted with the live ones.
// Nothing is written before everything has been tested. The definitions are those of `meaning` (Writer, File, Calls);
// specs/RowsWritten.antt has what the steps are told and say on the way.
#![tactic(auto)]

ghost use Rattle.std.specs.Prelude.{◌≡◌, cond, map, ◌+◌, ◌*◌, ◌≤◌, ◌<◌, length, take};
ghost use Rattle.refusal.specs.Refusal.{written_told};
ghost use Rattle.crc32.specs.Crc.{crc_of};
ghost use Rattle.config.specs.Limits.{max_dimensions, max_records};
ghost use Rattle.config.specs.Settings.{Bounded};
ghost use Rattle.layout.specs.Layout.{header_length, record_length, snapshot_length};
ghost use Rattle.layout.specs.declared.Version.TheVariants.{Two};
ghost use Rattle.layout.specs.declared.Extent.TheVariants.{Full, Compacted};
ghost use Rattle.fields.specs.Placed.{placed};
ghost use Rattle.rows.specs.Lent.{rows_lent_plain};
ghost use Rattle.rows.specs.Rows.{RowFits};
ghost use Rattle.sources.specs.Sources.{bytes_of, Inside, shown_part};
ghost use Rattle.meaning.specs.Records.{seen};
ghost use Rattle.meaning.specs.Tables.{rows_in};
ghost use Rattle.meaning.specs.File.{record_bytes, header_bytes, file_of};
ghost use Rattle.meaning.specs.Writer.{misfit, any_misfit, written, file_of_rows, write_valid};
ghost use Rattle.meaning.specs.Calls.{write_call, output_after};
ghost use Rattle.writer.specs.RowsWritten.{Tested, Copyable, keeps, row_bytes, rows_bytes, TotalsOf, most_of_a_row, settings_bytes};

use config::Config;
use layout::Extent;
use refusal::Refusal;
use rows::{Node, Row};
use sources::Shown;

// What is to be written: how many records, and how many bytes they take.
#[derive(Clone, Copy)]
struct Totals {
    records: usize,
    bytes: usize,
}

// 31 of one row.
fn misfits(config: Config, snapshot: &[u8], log: &[u8], row: Row) -> bool
    requires dimensions_le_max_dimensions { config.dimensions ≤ max_dimensions }
    requires row_fits { RowFits row }
    ensures { result ≡ misfit config snapshot.now log.now row }
{
    let n = row.caption_length;
    let caption = sources::shown_part(Shown::Caption, config.dimensions, row);
    sources::outside(snapshot, log, caption) || row.deleted && n != 0 || config.caption_limit() < n
}

// 31 of any row below the count, written or not.
#[tactic(auto, using(crate::proofs::WrittenLaws::first_misfits, crate::proofs::WrittenLaws::first_passed, crate::proofs::WrittenLaws::none_misfits, meaning::proofs::TableSteps::fits_at))]
fn any_misfits(config: Config, rows: &[u64], count: usize, snapshot: &[u8], log: &[u8]) -> bool
    requires dimensions_le_max_dimensions { config.dimensions ≤ max_dimensions }
    requires count_bound { count ≤ rows_lent_plain rows.now }
    ensures { result ≡ any_misfit config snapshot.now log.now (rows_in count rows.now) }
{
    for i in 0..count {
        if misfits(config, snapshot, log, rows::row_at(rows, Node(i as u32))) {
            return true;
        }
    }
    false
}

fn is_written(extent: Extent, deleted: bool) -> bool
    ensures { result ≡ keeps extent deleted }
{
    match extent {
        Extent::Full => true,
        Extent::Compacted => !deleted,
    }
}

// With one row more, if it is written.
fn counted(totals: Totals, extent: Extent, d: usize, row: Row) -> Totals
    requires d_le_max_dimensions { d ≤ max_dimensions }
    requires row_fits { RowFits row }
    requires records_lt_max_records { totals.records < max_records }
    requires bytes_bound { totals.bytes < most_of_a_row * max_records }
    ensures records_value { result.records ≡ totals.records + cond (keeps extent row.deleted) 1 0 }
    ensures bytes_value { result.bytes ≡ totals.bytes + cond (keeps extent row.deleted) (record_length d row.caption_length) 0 }
{
    if !is_written(extent, row.deleted) {
        return totals;
    }
    Totals {
        records: totals.records + 1,
        bytes: totals.bytes + layout::record_length(d, row.caption_length),
    }
}

#[tactic(auto, using(crate::proofs::WrittenLaws::length_next, crate::proofs::WrittenLaws::size_next, crate::proofs::WrittenLaws::length_none, crate::proofs::WrittenLaws::size_none, meaning::proofs::TableSteps::fits_at))]
fn written_totals(extent: Extent, d: usize, rows: &[u64], count: usize) -> Totals
    requires d_le_max_dimensions { d ≤ max_dimensions }
    requires count_bound { count ≤ rows_lent_plain rows.now }
    ensures totals_of { TotalsOf extent d (rows_in count rows.now) result }
    ensures bytes_bound { result.bytes ≤ most_of_a_row * count }
{
    let mut totals = Totals {
        records: 0,
        bytes: 0,
    };
    for i in 0..count {
        totals = counted(totals, extent, d, rows::row_at(rows, Node(i as u32)));
    }
    totals
}

// The first 28 bytes: magic, version 2, d, M, ef, metric.
fn write_settings(config: Config, out: &mut [u8])
    requires bounded { Bounded config }
    requires header_length_in_bounds { header_length Two ≤ length out.old }
    ensures { out.new ≡ placed 0 (settings_bytes config) out.old }
{
    let metric = config.metric;
    fields::put_u64(out, 0, layout::SNAPSHOT_MAGIC);
    fields::put_u32(out, 8, 2);
    fields::put_u32(out, 12, config.dimensions as u32);
    fields::put_u32(out, 16, config.m as u32);
    fields::put_u32(out, 20, config.ef_construction as u32);
    fields::put_u32(out, 24, metric.number());
}

fn write_header(config: Config, sequence: u64, records: usize, out: &mut [u8])
    requires bounded { Bounded config }
    requires header_length_in_bounds { header_length Two ≤ length out.old }
    ensures { out.new ≡ placed 0 (header_bytes config sequence records) out.old }
{
    write_settings(config, out);
    fields::put_u64(out, 28, config.seed);
    fields::put_u64(out, 36, sequence);
    fields::put_u64(out, 44, records as u64);
}

// A row's caption or vector, copied to `at`.
#[tactic(auto, using(fields::proofs::PlacedLaws::placed_copied, fields::proofs::PlacedLaws::placed_front))]
fn copy_shown<'a>(
    shown: Shown,
    d: usize,
    row: Row,
    snapshot: &'a [u8],
    log: &'a [u8],
    out: &mut [u8],
    at: usize,
)
    requires d_le_max_dimensions { d ≤ max_dimensions }
    requires row_fits { RowFits row }
    requires inside { Inside snapshot.now log.now (shown_part shown d row) }
    requires row_in_bounds { at + (shown_part shown d row).count ≤ length out.old }
    ensures { out.new ≡ placed at (bytes_of snapshot.now log.now (shown_part shown d row)) out.old }
{
    let part = sources::shown_part(shown, d, row);
    fields::copy(&mut out[at..], sources::cut(snapshot, log, part));
}

// One record at `at`, in the file's order; the cursor behind it.
fn write_record<'a>(
    d: usize,
    row: Row,
    snapshot: &'a [u8],
    log: &'a [u8],
    out: &mut [u8],
    at: usize,
) -> usize
    requires copyable { Copyable d snapshot.now log.now row }
    requires caption_length_in_bounds { at + record_length d row.caption_length ≤ length out.old }
    ensures value { result ≡ at + record_length d row.caption_length }
    ensures out_after { out.new ≡ placed at (record_bytes (seen d snapshot.now log.now row)) out.old }
{
    let id = row.id;
    let n = row.caption_length;
    let end = at + layout::record_length(d, n);
    let vector = at + layout::RECORD_HEAD;
    let length = vector + 4 * d;
    fields::put_u64(out, at, id.0);
    fields::put_u8(out, at + 8, u8::from(row.deleted));
    copy_shown(Shown::Vector, d, row, snapshot, log, out, vector);
    fields::put_u32(out, length, n as u32);
    copy_shown(Shown::Caption, d, row, snapshot, log, out, length + 4);
    end
}

#[tactic(auto, using(fields::proofs::PlacedLaws::placed_none, crate::proofs::WrittenLaws::length_record))]
fn write_row<'a>(
    extent: Extent,
    d: usize,
    row: Row,
    snapshot: &'a [u8],
    log: &'a [u8],
    out: &mut [u8],
    at: usize,
) -> usize
    requires copyable { Copyable d snapshot.now log.now row }
    requires row_in_bounds { at + length (row_bytes extent d snapshot.now log.now row) ≤ length out.old }
    ensures value { result ≡ at + length (row_bytes extent d snapshot.now log.now row) }
    ensures out_after { out.new ≡ placed at (row_bytes extent d snapshot.now log.now row) out.old }
{
    if !is_written(extent, row.deleted) {
        return at;
    }
    write_record(d, row, snapshot, log, out, at)
}

// The CRC of the header and the records is taken along, a piece when it is written.
#[tactic(auto, using(crate::proofs::WrittenLaws::first_row, crate::proofs::WrittenLaws::bytes_none, crate::proofs::Stands::sums_placed, fields::proofs::PlacedLaws::placed_behind, fields::proofs::PlacedLaws::placed_none))]
fn write_records<'a>(
    extent: Extent,
    config: Config,
    rows: &[u64],
    count: usize,
    snapshot: &'a [u8],
    log: &'a [u8],
    out: &mut [u8],
) -> u32
    requires tested { Tested config rows.now count snapshot.now log.now }
    requires rows_in_bounds { header_length Two + length (rows_bytes extent config.dimensions snapshot.now log.now (rows_in count rows.now)) ≤ length out.old }
    ensures out_after { out.new ≡ placed (header_length Two) (rows_bytes extent config.dimensions snapshot.now log.now (rows_in count rows.now)) out.old }
    ensures value { result ≡ crc_of (take (header_length Two + length (rows_bytes extent config.dimensions snapshot.now log.now (rows_in count rows.now))) out.new) }
{
    let mut sum = pieces::none();
    let mut at: usize = layout::HEADER_LENGTH;
    for i in 0..count {
        let row = rows::row_at(rows, Node(i as u32));
        at = write_row(extent, config.dimensions, row, snapshot, log, out, at);
        sum = pieces::behind(sum, out, at);
    }
    pieces::finish(sum, out, at)
}

// The output has room.
#[tactic(auto, using(crate::proofs::WrittenLaws::length_rows_bytes))]
fn write_file<'a>(
    extent: Extent,
    config: Config,
    sequence: u64,
    totals: Totals,
    rows: &[u64],
    count: usize,
    snapshot: &'a [u8],
    log: &'a [u8],
    out: &mut [u8],
)
    requires tested { Tested config rows.now count snapshot.now log.now }
    requires totals_of { TotalsOf extent config.dimensions (rows_in count rows.now) totals }
    requires bytes_in_bounds { snapshot_length totals.bytes ≤ length out.old }
    ensures { out.new ≡ placed 0 (file_of config sequence (map (seen config.dimensions snapshot.now log.now) (written extent (rows_in count rows.now)))) out.old }
{
    write_header(config, sequence, totals.records, out);
    let crc = write_records(extent, config, rows, count, snapshot, log, out);
    fields::put_u32(out, layout::HEADER_LENGTH + totals.bytes, crc);
}

// 34, then 32.
#[tactic(auto, using(crate::proofs::FileLaws::length_file), unfolding(meaning::specs::Writer::file_of_rows))]
fn write_fitted<'a>(
    extent: Extent,
    config: Config,
    sequence: u64,
    rows: &[u64],
    count: usize,
    snapshot: &'a [u8],
    log: &'a [u8],
    out: &mut [u8],
) -> Result<usize, Refusal>
    requires { Tested config rows.now count snapshot.now log.now }
    ensures value { result ≡ written_told (file_of_rows config sequence snapshot.now log.now (length out.old) (written extent (rows_in count rows.now))) }
    ensures out_after { out.new ≡ output_after out.old (file_of_rows config sequence snapshot.now log.now (length out.old) (written extent (rows_in count rows.now))) }
{
    let d = config.dimensions;
    let totals = written_totals(extent, d, rows, count);
    let n = layout::HEADER_LENGTH + totals.bytes + layout::CRC_LENGTH;
    if Config::MAX_SNAPSHOT_BYTES < n {
        return Err(Refusal::TooLarge);
    }
    if out.len() < n {
        return Err(Refusal::OutputTooShort);
    }
    write_file(
        extent, config, sequence, totals, rows, count, snapshot, log, out,
    );
    Ok(n)
}

// 30, then 31.
#[tactic(auto, unfolding(meaning::specs::Writer::write_valid, meaning::specs::Writer::state_rows))]
fn write_valid<'a>(
    extent: Extent,
    config: Config,
    sequence: u64,
    rows: &[u64],
    count: usize,
    snapshot: &'a [u8],
    log: &'a [u8],
    out: &mut [u8],
) -> Result<usize, Refusal>
    requires { Bounded config }
    ensures value { result ≡ written_told (write_valid extent config sequence rows.now count snapshot.now log.now (length out.old)) }
    ensures out_after { out.new ≡ output_after out.old (write_valid extent config sequence rows.now count snapshot.now log.now (length out.old)) }
{
    if rows::rows_lent_plain(rows) < count {
        return Err(Refusal::NoSuchNode);
    }
    if any_misfits(config, rows, count, snapshot, log) {
        return Err(Refusal::RowDoesNotFit);
    }
    write_fitted(extent, config, sequence, rows, count, snapshot, log, out)
}

#[tactic(auto, using(config::proofs::Laws::bounded_of_valid), unfolding(meaning::specs::Writer::write))]
fn write_rows<'a>(
    extent: Extent,
    config: Config,
    sequence: u64,
    rows: &[u64],
    count: usize,
    snapshot: &'a [u8],
    log: &'a [u8],
    out: &mut [u8],
) -> Result<usize, Refusal>
    ensures value { result ≡ written_told (write_call extent config sequence rows.now count snapshot.now log.now out.old) }
    ensures out_after { out.new ≡ output_after out.old (write_call extent config sequence rows.now count snapshot.now log.now out.old) }
{
    config.validate()?;
    write_valid(extent, config, sequence, rows, count, snapshot, log, out)
}

// Every row below the count, deleted ones too.
pub fn write_snapshot<'a>(
    config: Config,
    sequence: u64,
    rows: &[u64],
    count: usize,
    snapshot: &'a [u8],
    log: &'a [u8],
    out: &mut [u8],
) -> Result<usize, Refusal>
    ensures value { result ≡ written_told (write_call Full config sequence rows.now count snapshot.now log.now out.old) }
    ensures out_after { out.new ≡ output_after out.old (write_call Full config sequence rows.now count snapshot.now log.now out.old) }
{
    write_rows(
        Extent::Full,
        config,
        sequence,
        rows,
        count,
        snapshot,
        log,
        out,
    )
}

// The live rows below the count.
pub fn write_compacted_snapshot<'a>(
    config: Config,
    sequence: u64,
    rows: &[u64],
    count: usize,
    snapshot: &'a [u8],
    log: &'a [u8],
    out: &mut [u8],
) -> Result<usize, Refusal>
    ensures value { result ≡ written_told (write_call Compacted config sequence rows.now count snapshot.now log.now out.old) }
    ensures out_after { out.new ≡ output_after out.old (write_call Compacted config sequence rows.now count snapshot.now log.now out.old) }
{
    write_rows(
        Extent::Compacted,
        config,
        sequence,
        rows,
        count,
        snapshot,
        log,
        out,
    )
}
