// Snapshots, read: the header, the records, a row for each, the active nodes.
// The tests stand in document 01's order. The definitions are those of `meaning`, specs/Snapshot.antt; specs/Told.antt says how an
// answer tells them.
#![tactic(auto)]

ghost use Rattle.std.specs.Prelude.{◌≡◌, ◌+◌, ◌*◌, ◌≤◌, ◌++◌, cond, length, take, drop, Ok, Err};
ghost use Rattle.crc32.specs.Crc.{crc_of};
ghost use Rattle.config.specs.Limits.{max_dimensions, max_records, min_snapshot_bytes, max_snapshot_bytes};
ghost use Rattle.layout.specs.Layout.{crc_length};
ghost use Rattle.meaning.specs.Calls.{read_call, read_tables};
ghost use Rattle.meaning.specs.Snapshot.{header_metric, header_config, header_sequence, header_count, over_sequence, counted_header, header_for, read_header, record_at, ReadRows, records_at, Snapshot, read_body, read_parts};
ghost use Rattle.meaning.specs.Tables.{row_words};
ghost use Rattle.refusal.specs.Refusal.{told};
ghost use Rattle.snapshot.specs.Told.{info_of, header_told, record_told, records_told, meant_header, parts_told, read_told};

use config::{Config, Metric};
use layout::Version;
use refusal::Refusal;
use rows::{Id, Node, Row};

// `first` is where the records begin.
#[derive(Clone, Copy)]
pub struct Header {
    pub config: Config,
    pub sequence: u64,
    pub count: usize,
    pub first: usize,
}

// Where the records end, their encoded size, and the CRC of all bytes but its own.
#[derive(Clone, Copy)]
struct Records {
    next: usize,
    size: usize,
    crc: u32,
}

// What a snapshot says, its active nodes apart.
#[derive(Clone, Copy)]
struct Parts {
    config: Config,
    crc: u32,
    sequence: u64,
    records: usize,
    size: usize,
}

#[derive(Clone, Copy)]
pub struct SnapshotInfo {
    pub config: Config,
    pub crc: u32,
    pub sequence: u64,
    pub records: usize,
    pub active: usize,
    pub size: usize,
}

// Version 1 means squared L2.
fn metric_of(s: &[u8], version: Version) -> Result<Metric, Refusal>
    requires { min_snapshot_bytes ≤ length s.now }
    ensures { result ≡ header_metric version s.now }
{
    match version {
        Version::One => Ok(Metric::SquaredL2),
        Version::Two => Metric::from_u32(fields::get_u32(s, 24)),
    }
}

fn config_of(s: &[u8], version: Version, metric: Metric) -> Config
    requires { min_snapshot_bytes ≤ length s.now }
    ensures { result ≡ header_config version s.now metric }
{
    let dimensions = fields::get_u32(s, 12) as usize;
    let m = fields::get_u32(s, 16) as usize;
    let ef_construction = fields::get_u32(s, 20) as usize;
    let seed = fields::get_u64(s, 24 + version.metric_length());
    Config {
        dimensions,
        m,
        ef_construction,
        seed,
        metric,
    }
}

fn sequence_of(s: &[u8], version: Version) -> u64
    requires { min_snapshot_bytes ≤ length s.now }
    ensures { result ≡ header_sequence version s.now }
{
    fields::get_u64(s, 32 + version.metric_length())
}

fn count_of(s: &[u8], version: Version) -> u64
    requires { min_snapshot_bytes ≤ length s.now }
    ensures { result ≡ header_count version s.now }
{
    fields::get_u64(s, 40 + version.metric_length())
}

// Version 1: a count over the sequence is refused too.
fn over_sequence(version: Version, sequence: u64, count: u64) -> bool
    ensures { result ≡ over_sequence version sequence count }
{
    match version {
        Version::One => sequence < count,
        Version::Two => false,
    }
}

// What follows once the settings are valid: 4 at the count, and 9.
#[tactic(auto, unfolding(meaning::specs::Snapshot::counted_header))]
fn counted(s: &[u8], version: Version, config: Config) -> Result<Header, Refusal>
    requires min_snapshot_bytes_in_bounds { min_snapshot_bytes ≤ length s.now }
    requires dimensions_le_max_dimensions { config.dimensions ≤ max_dimensions }
    ensures { result ≡ header_told (counted_header s.now version config) }
{
    let body = s.len() - layout::CRC_LENGTH;
    let first = version.header_length();
    if body < first {
        return Err(Refusal::PastTheEnd);
    }
    let sequence = sequence_of(s, version);
    let count = count_of(s, version);
    if (Config::MAX_RECORDS as u64) < count {
        return Err(Refusal::WrongCount);
    }
    let d = config.dimensions;
    let least = layout::record_length(d, 0);
    if (((body - first) / least) as u64) < count {
        return Err(Refusal::WrongCount);
    }
    if over_sequence(version, sequence, count) {
        return Err(Refusal::WrongCount);
    }
    Ok(Header {
        config,
        sequence,
        count: count as usize,
        first,
    })
}

#[tactic(auto, using(config::proofs::Laws::bounded_of_valid), unfolding(meaning::specs::Snapshot::header_for))]
fn header_for(s: &[u8], version: Version) -> Result<Header, Refusal>
    requires { min_snapshot_bytes ≤ length s.now }
    ensures { result ≡ header_told (header_for s.now version) }
{
    let metric = metric_of(s, version)?;
    let config = config_of(s, version, metric);
    config.validate()?;
    counted(s, version, config)
}

#[tactic(auto, using(crate::proofs::HeaderLaws::magic_number_lem), unfolding(meaning::specs::Snapshot::read_header))]
pub fn read_header(s: &[u8]) -> Result<Header, Refusal>
    ensures { result ≡ header_told (read_header s.now) }
{
    if s.len() < Config::MIN_SNAPSHOT_BYTES {
        return Err(Refusal::LengthOutOfBounds);
    }
    if Config::MAX_SNAPSHOT_BYTES < s.len() {
        return Err(Refusal::LengthOutOfBounds);
    }
    if fields::get_u64(s, 0) != layout::SNAPSHOT_MAGIC {
        return Err(Refusal::WrongMagic);
    }
    match fields::get_u32(s, 8) {
        1 => header_for(s, Version::One),
        2 => header_for(s, Version::Two),
        _ => Err(Refusal::WrongVersion),
    }
}

// A deleted record is read with an empty caption.
fn kept(deleted: bool, n: usize) -> usize
    ensures { result ≡ cond deleted 0 n }
{
    if deleted { 0 } else { n }
}

// A row, and where the next record begins.
#[tactic(auto, using(fields::proofs::Numbers::num_one), unfolding(meaning::specs::Snapshot::record_at))]
fn read_record(config: Config, s: &[u8], end: usize, at: usize) -> Result<(Row, usize), Refusal>
    requires dimensions_le_max_dimensions { config.dimensions ≤ max_dimensions }
    requires end_in_bounds { end ≤ length s.now }
    requires at_le_end { at ≤ end }
    ensures { result ≡ record_told (record_at config s.now end at) }
{
    let start = at + layout::RECORD_HEAD;
    if end < start {
        return Err(Refusal::PastTheEnd);
    }
    let flag = s[at + 8];
    if 1 < flag {
        return Err(Refusal::WrongFlag);
    }
    let n = items::check_item(Refusal::VectorPastTheEnd, config, s, end, start)?;
    let d = config.dimensions;
    let deleted = flag == 1;
    let id = Id(fields::get_u64(s, at));
    let caption_length = kept(deleted, n);
    let row = Row {
        id,
        deleted,
        from_log: false,
        caption_length,
        at: start,
    };
    Ok((row, at + layout::record_length(d, n)))
}

// A row for each record, at the front of the table. Where a record is refused, the rows before it are written.
// The CRC is taken along, a piece before its records are read.
#[tactic(auto, using(crate::proofs::Reading::reading_none, crate::proofs::RecordLaws::record_packs))]
fn read_records(
    config: Config,
    s: &[u8],
    end: usize,
    first: usize,
    count: usize,
    rows: &mut [u64],
) -> Result<Records, Refusal>
    requires dimensions_le_max_dimensions { config.dimensions ≤ max_dimensions }
    requires end_in_bounds { end ≤ length s.now }
    requires end_le_max_snapshot_bytes { end ≤ max_snapshot_bytes }
    requires first_le_end { first ≤ end }
    requires count_le_max_records { count ≤ max_records }
    requires count_in_bounds { 2 * count ≤ length rows.old }
    ensures value { result ≡ records_told config.dimensions (crc_of (take end s.now)) (records_at count config s.now end first) }
    ensures rows_after { (x : ReadRows) → records_at count config s.now end first ≡ Ok x → rows.new ≡ row_words x.rows ++ drop (2 * count) rows.old }
{
    let d = config.dimensions;
    let mut sum = pieces::none();
    let mut at = first;
    let mut size: usize = 0;
    for i in 0..count {
        sum = pieces::ahead(sum, s, end, at);
        let (row, next) = read_record(config, s, end, at)?;
        rows::set_row(rows, Node(i as u32), row);
        size += layout::record_length(d, row.caption_length);
        at = next;
    }
    Ok(Records {
        next: at,
        size,
        crc: pieces::finish(sum, s, end),
    })
}

// What follows the header: the records, then 16 and 17.
#[tactic(auto, using(crate::proofs::BodyLaws::rows_read_facts), unfolding(meaning::specs::Snapshot::read_body))]
fn read_body(s: &[u8], header: Header, rows: &mut [u64]) -> Result<Parts, Refusal>
    requires dimensions_le_max_dimensions { header.config.dimensions ≤ max_dimensions }
    requires crc_length_in_bounds { header.first + crc_length ≤ length s.now }
    requires s_len_bound { length s.now ≤ max_snapshot_bytes }
    requires count_le_max_records { header.count ≤ max_records }
    requires count_in_bounds { 2 * header.count ≤ length rows.old }
    ensures value { result ≡ parts_told (read_body s.now (meant_header header)) }
    ensures rows_after { (x : Snapshot) → read_body s.now (meant_header header) ≡ Ok x → rows.new ≡ row_words x.rows ++ drop (2 * length x.rows) rows.old }
{
    let config = header.config;
    let first = header.first;
    let count = header.count;
    let sequence = header.sequence;
    let end = s.len() - layout::CRC_LENGTH;
    let found = read_records(config, s, end, first, count, rows)?;
    if found.next != end {
        return Err(Refusal::BytesLeftOver);
    }
    let crc = fields::get_u32(s, end);
    if found.crc != crc {
        return Err(Refusal::WrongFileCrc);
    }
    Ok(Parts {
        config,
        crc,
        sequence,
        records: count,
        size: found.size,
    })
}

// The file up to and with its CRC: all but 18.
#[tactic(auto, using(crate::proofs::HeaderLaws::header_within), unfolding(meaning::specs::Snapshot::read_parts))]
fn read_parts(s: &[u8], rows: &mut [u64], lent: usize) -> Result<Parts, Refusal>
    requires { 2 * lent ≤ length rows.old }
    ensures value { result ≡ parts_told (read_parts lent s.now) }
    ensures rows_after { (x : Snapshot) → read_parts lent s.now ≡ Ok x → rows.new ≡ row_words x.rows ++ drop (2 * length x.rows) rows.old }
{
    let header = read_header(s)?;
    let count = header.count;
    if lent < count {
        return Err(Refusal::TooFewRows);
    }
    read_body(s, header, rows)
}

// What they come to, once the active nodes are counted.
fn accepted(parts: Parts, live: Result<usize, Refusal>) -> Result<SnapshotInfo, Refusal>
    ensures { result ≡ told (λ n. Ok (info_of parts n)) (λ why. Err why) live }
{
    let n = live?;
    Ok(SnapshotInfo {
        config: parts.config,
        crc: parts.crc,
        sequence: parts.sequence,
        records: parts.records,
        active: n,
        size: parts.size,
    })
}

// Reads a snapshot into two lent tables: two words for each record, and an entry for each live one.
#[tactic(auto, using(crate::proofs::Ending::ends_rows, crate::proofs::Ending::ends_active))]
pub fn read_snapshot(
    bytes: &[u8],
    rows: &mut [u64],
    active: &mut [u32],
) -> Result<SnapshotInfo, Refusal>
    ensures value { result ≡ read_told (read_call rows.old active.old bytes.now) }
    ensures rows_after { rows.new ≡ (read_tables rows.old active.old (read_call rows.old active.old bytes.now)).rows }
    ensures active_after { active.new ≡ (read_tables rows.old active.old (read_call rows.old active.old bytes.now)).active }
{
    let lent = rows::rows_lent(rows, active);
    let parts = match read_parts(bytes, rows, lent) {
        Ok(p) => p,
        Err(why) => {
            active::clear(rows, active);
            return Err(why);
        }
    };
    accepted(parts, active::activate(rows, parts.records, active))
}
