// Recovery of a snapshot and the log beside it, without repair: what the store holds, or why it is refused and where.
//
// 20 comes before everything, the snapshot next, the log last. Frames at or below the snapshot's sequence are a front of the log:
// they are decoded in full and counted. Where nothing follows them that could be a later frame, the tables stay as the snapshot's
// reading left them; otherwise the tree of `tree` is made over the rows, what follows is replayed, and the tree is taken out again.
// The definitions are those of `meaning` (Recovery, Calls); specs/Told.antt says how an answer tells them.
#![tactic(auto)]

ghost use Rattle.std.specs.Prelude.{◌≡◌, cond, false, List, ◌+◌, ◌*◌, ◌≤◌, ltb, leb, length};
ghost use Rattle.crc32.specs.Steps.{Rows};
ghost use Rattle.config.specs.Limits.{max_dimensions, max_log_bytes};
ghost use Rattle.fields.specs.Fields.{num};
ghost use Rattle.layout.specs.Layout.{frame_head};
ghost use Rattle.rows.specs.Lent.{rows_lent};
ghost use Rattle.rows.specs.declared.Row.{Row};
ghost use Rattle.meaning.specs.Calls.{recover_call, recover_tables};
ghost use Rattle.meaning.specs.Records.{row_kind};
ghost use Rattle.meaning.specs.Recovery.{bounds_for, ended, replay_log};
ghost use Rattle.meaning.specs.Replay.{Frame as MeantFrame, Bounds, step as step_of};
ghost use Rattle.store_log.specs.Stored.{IsFrame, FrameThere};
ghost use Rattle.replay.specs.Stands.{TableStands, Kept};
ghost use Rattle.recovery.specs.Told.{recovery_answer, recovered_told};
ghost use Rattle.recovery.specs.Run.{run_from, skipped_only, SkipsTo, state_of, Steps, Reaches, Left, SomeLeft, snapshot_read, ends_in, RecoversAs};

use config::Config;
use refusal::Refusal;
use replay::Table;
use snapshot::SnapshotInfo;
use store_log::Frame;

// `keep` is the first byte of the tail, `tail` its length, `size` the encoded size of all records.
#[derive(Clone, Copy)]
pub struct RecoveryInfo {
    pub config: Config,
    pub crc: u32,
    pub sequence: u64,
    pub records: usize,
    pub active: usize,
    pub replayed: usize,
    pub skipped: usize,
    pub keep: usize,
    pub tail: usize,
    pub size: usize,
}

// Why no store is recovered. A refusal in the log names its frame's first byte.
#[derive(Clone, Copy)]
pub enum NotRecovered {
    Snapshot(Refusal),
    Log(Refusal, usize),
}

// A refusal in the log, and its frame's first byte.
#[derive(Clone, Copy)]
struct RefusedFrame(Refusal, usize);

// A byte of the log, the sequence of the frame before it or 0 where there is none, and how many frames were skipped before it.
#[derive(Clone, Copy)]
struct Place {
    previous: u64,
    at: usize,
    skipped: usize,
}

// What the front of the log comes to: a frame may follow the snapshot's; or a tail is reached, with how many frames before it.
#[derive(Clone, Copy)]
enum Skipped {
    More(Place),
    Ended(usize, usize),
}

// `keep` is the first byte of the tail.
#[derive(Clone, Copy)]
struct Reached {
    table: Table,
    sequence: u64,
    replayed: usize,
    skipped: usize,
    keep: usize,
}

// Whether the bytes at `at` would be a frame that follows the snapshot's: it is left to replay, so that no frame is decoded twice.
fn follows(log: &[u8], at: usize, sequence: u64) -> bool
    requires frame_head_in_bounds { at + frame_head ≤ length log.now }
    requires log_len_bound { length log.now ≤ max_log_bytes }
    ensures { result ≡ cond (leb (at + 17) (length log.now)) (ltb sequence (num log.now (at + 9) 8)) false }
{
    if at + 17 <= log.len() {
        return sequence < fields::get_u64(log, at + 9);
    }
    false
}

// Frames at or below the snapshot's sequence, from the log's first byte on.
fn skip_frames(
    tables: &[u32; 4096],
    config: Config,
    log: &[u8],
    sequence: u64,
) -> Result<Skipped, RefusedFrame>
    requires rows { Rows 16 tables.now }
    requires dimensions_le_max_dimensions { config.dimensions ≤ max_dimensions }
    requires log_len_bound { length log.now ≤ max_log_bytes }
    ensures { (bounds : Bounds) (rows : List Row) → SkipsTo config log.now sequence bounds rows result }
{
    let mut previous: u64 = 0;
    let mut at: usize = 0;
    let mut skipped: usize = 0;
    while at + layout::FRAME_HEAD <= log.len() {
        if follows(log, at, sequence) {
            return Ok(Skipped::More(Place {
                previous,
                at,
                skipped,
            }));
        }
        match store_log::read_frame(tables, config, log, previous, at) {
            Ok(None) => {
                return Ok(Skipped::Ended(at, skipped));
            }
            Ok(Some(frame)) => {
                // `follows` has left every such frame: tested so that no proof rests on it
                if sequence < frame.sequence {
                    return Ok(Skipped::More(Place {
                        previous,
                        at,
                        skipped,
                    }));
                }
                previous = frame.sequence;
                at = frame.next;
                skipped += 1;
            }
            Err(why) => {
                return Err(RefusedFrame(why, at));
            }
        }
    }
    Ok(Skipped::Ended(at, skipped))
}

// One frame: skipped where the snapshot has it, otherwise 27, then its operations.
fn step(
    config: Config,
    log: &[u8],
    lent: usize,
    snapshot: u64,
    frame: Frame,
    words: &mut [u64],
    entries: &mut [u32],
    reached: Reached,
) -> Result<Reached, RefusedFrame>
    requires dimensions_le_max_dimensions { config.dimensions ≤ max_dimensions }
    requires log_len_bound { length log.now ≤ max_log_bytes }
    requires lent_in_bounds { 2 * lent ≤ length words.old }
    requires lent_in_bounds_2 { lent ≤ length entries.old }
    requires frame_there { FrameThere config log.now frame }
    requires skipped_bound { reached.replayed + reached.skipped ≤ frame.start }
    requires kept { Kept config.dimensions words.old entries.old reached.table }
    ensures { (f : MeantFrame Row) (rows : List Row) → IsFrame config log.now frame f → TableStands config.dimensions words.old entries.old reached.table rows → Steps config.dimensions frame.next frame.start (step_of (row_kind config.dimensions) (bounds_for lent) snapshot f (state_of reached rows)) result words.new entries.new }
{
    let table = reached.table;
    if frame.sequence <= snapshot {
        return Ok(Reached {
            table,
            sequence: reached.sequence,
            replayed: reached.replayed,
            skipped: reached.skipped + 1,
            keep: frame.next,
        });
    }
    if frame.sequence - 1 != reached.sequence {
        return Err(RefusedFrame(Refusal::GapAfterSnapshot, frame.start));
    }
    match replay::apply_frame(config, log, lent, frame, words, entries, table) {
        Ok(table) => Ok(Reached {
            table,
            sequence: frame.sequence,
            replayed: reached.replayed + 1,
            skipped: reached.skipped,
            keep: frame.next,
        }),
        Err(why) => Err(RefusedFrame(why, frame.start)),
    }
}

// The frames from a place on, replayed over the rows that stand in the tables.
fn replay_frames(
    tables: &[u32; 4096],
    config: Config,
    log: &[u8],
    lent: usize,
    snapshot: u64,
    place: Place,
    words: &mut [u64],
    entries: &mut [u32],
    table: Table,
) -> Result<Reached, RefusedFrame>
    requires rows { Rows 16 tables.now }
    requires dimensions_le_max_dimensions { config.dimensions ≤ max_dimensions }
    requires log_len_bound { length log.now ≤ max_log_bytes }
    requires at_in_bounds { place.at ≤ length log.now }
    requires skipped_le_at { place.skipped ≤ place.at }
    requires lent_in_bounds { 2 * lent ≤ length words.old }
    requires lent_in_bounds_2 { lent ≤ length entries.old }
    requires kept { Kept config.dimensions words.old entries.old table }
    ensures { (rows : List Row) → TableStands config.dimensions words.old entries.old table rows → Reaches config.dimensions (run_from config log.now (bounds_for lent) snapshot place.previous place.at (skipped_only snapshot rows place.skipped)) result words.new entries.new }
{
    let mut reached = Reached {
        table,
        sequence: snapshot,
        replayed: 0,
        skipped: place.skipped,
        keep: place.at,
    };
    let mut previous = place.previous;
    while reached.keep + layout::FRAME_HEAD <= log.len() {
        match store_log::read_frame(tables, config, log, previous, reached.keep) {
            Ok(None) => {
                return Ok(reached);
            }
            Ok(Some(frame)) => {
                reached = step(config, log, lent, snapshot, frame, words, entries, reached)?;
                previous = frame.sequence;
            }
            Err(why) => {
                return Err(RefusedFrame(why, reached.keep));
            }
        }
    }
    Ok(reached)
}

// What an accepted recovery answers.
fn recovered(info: SnapshotInfo, log: usize, active: usize, reached: Reached) -> RecoveryInfo
    requires { reached.keep ≤ log }
    ensures { result ≡ recovered_told info log active reached }
{
    let config = info.config;
    let table = reached.table;
    let tree = table.tree;
    RecoveryInfo {
        config,
        crc: info.crc,
        sequence: reached.sequence,
        records: tree.count,
        active,
        replayed: reached.replayed,
        skipped: reached.skipped,
        keep: reached.keep,
        tail: log - reached.keep,
        size: table.size,
    }
}

// The tree is taken out of the rows again, and the active nodes are put in their place.
fn finish(
    info: SnapshotInfo,
    log: &[u8],
    rows: &mut [u64],
    active: &mut [u32],
    reached: Reached,
) -> Result<RecoveryInfo, NotRecovered>
    requires keep_in_bounds { reached.keep ≤ length log.now }
    requires kept { Kept info.config.dimensions rows.old active.old reached.table }
    ensures { (records : List Row) → TableStands info.config.dimensions rows.old active.old reached.table records → RecoversAs log.now rows.old active.old (ends_in info (state_of reached records) reached.keep) result rows.new active.new }
{
    let table = reached.table;
    let tree = table.tree;
    tree::finish(rows, tree);
    match active::activate(rows, tree.count, active) {
        Ok(n) => Ok(recovered(info, log.len(), n, reached)),
        // no ID is live twice in a table with its tree, so this does not come about
        Err(why) => Err(NotRecovered::Log(why, reached.keep)),
    }
}

// Frames follow those that the snapshot has.
fn replay_rest(
    tables: &[u32; 4096],
    info: SnapshotInfo,
    log: &[u8],
    place: Place,
    rows: &mut [u64],
    active: &mut [u32],
) -> Result<RecoveryInfo, NotRecovered>
    requires rows { Rows 16 tables.now }
    requires log_len_bound { length log.now ≤ max_log_bytes }
    requires at_in_bounds { place.at ≤ length log.now }
    requires skipped_le_at { place.skipped ≤ place.at }
    requires some_left { SomeLeft info rows.old active.old }
    ensures { (records : List Row) → Left info rows.old active.old records → RecoversAs log.now rows.old active.old (ended (snapshot_read info records) (run_from info.config log.now (bounds_for (rows_lent rows.old active.old)) info.sequence place.previous place.at (skipped_only info.sequence records place.skipped))) result rows.new active.new }
{
    let lent = rows::rows_lent(rows, active);
    let tree = tree::begin(rows, active, info.records);
    let table = Table {
        tree,
        size: info.size,
    };
    match replay_frames(
        tables,
        info.config,
        log,
        lent,
        info.sequence,
        place,
        rows,
        active,
        table,
    ) {
        Ok(reached) => finish(info, log, rows, active, reached),
        Err(RefusedFrame(why, at)) => {
            active::clear(rows, active);
            Err(NotRecovered::Log(why, at))
        }
    }
}

// The log, over the rows that the snapshot's reading left.
fn recover_log(
    info: SnapshotInfo,
    log: &[u8],
    rows: &mut [u64],
    active: &mut [u32],
) -> Result<RecoveryInfo, NotRecovered>
    requires log_len_bound { length log.now ≤ max_log_bytes }
    requires some_left { SomeLeft info rows.old active.old }
    ensures { (records : List Row) → Left info rows.old active.old records → RecoversAs log.now rows.old active.old (replay_log (rows_lent rows.old active.old) log.now (snapshot_read info records)) result rows.new active.new }
{
    let tables = crc32::tables();
    let config = info.config;
    match skip_frames(&tables, config, log, info.sequence) {
        Ok(Skipped::More(place)) => replay_rest(&tables, info, log, place, rows, active),
        Ok(Skipped::Ended(keep, skipped)) => Ok(RecoveryInfo {
            config,
            crc: info.crc,
            sequence: info.sequence,
            records: info.records,
            active: info.active,
            replayed: 0,
            skipped,
            keep,
            tail: log.len() - keep,
            size: info.size,
        }),
        Err(RefusedFrame(why, at)) => {
            active::clear(rows, active);
            Err(NotRecovered::Log(why, at))
        }
    }
}

// Recovers a store into two lent tables: two words for each record, and an entry for each live one.
pub fn recover(
    snapshot: &[u8],
    log: &[u8],
    rows: &mut [u64],
    active: &mut [u32],
) -> Result<RecoveryInfo, NotRecovered>
    ensures value { result ≡ recovery_answer log.now (recover_call rows.old active.old snapshot.now log.now) }
    ensures rows_after { rows.new ≡ (recover_tables rows.old active.old (recover_call rows.old active.old snapshot.now log.now)).rows }
    ensures active_after { active.new ≡ (recover_tables rows.old active.old (recover_call rows.old active.old snapshot.now log.now)).active }
{
    if Config::MAX_LOG_BYTES < log.len() {
        active::clear(rows, active);
        return Err(NotRecovered::Log(Refusal::LogTooLong, 0));
    }
    match snapshot::read_snapshot(snapshot, rows, active) {
        Ok(info) => recover_log(info, log, rows, active),
        Err(why) => Err(NotRecovered::Snapshot(why)),
    }
}
