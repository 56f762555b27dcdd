// The graph cache, read: believed only where it belongs to the snapshot beside it. And one level's neighbours, as a part of it.
// Definitions: specs/Graph.antt for what is asked of a graph, specs/Layout.antt for its bytes, specs/Cache.antt for reading,
// specs/Neighbours.antt for the view; specs/Told.antt says how an answer tells them.
#![tactic(auto)]

ghost use Rattle.std.specs.Prelude.{◌≡◌, [], ◌++◌, ℕ, ◌+◌, ◌*◌, ◌-◌, ◌≤◌, ◌<◌, ltb, length, get_or, take, drop, replicate, Ok, IsOk};
ghost use Rattle.fields.specs.Fields.{num};
ghost use Rattle.config.specs.Limits.{min_cache_bytes, max_records, max_m};
ghost use Rattle.refusal.specs.Refusal.{number_told};
ghost use Rattle.graph.specs.Graph.{Graph, degree_limit, any_of, lost_at, lost_from, edge_lost, entry_of, linked_test};
ghost use Rattle.graph.specs.Layout.{first_node, node_length, graph_length, starts_from};
ghost use Rattle.graph.specs.Cache.{numbers_at, links_at, several, read_neighbour, read_level, read_node, read_nodes, head_test, room_test, read_header as header_of, read_body, read_graph, read_cache as cache_of};
ghost use Rattle.graph.specs.Decoded.{graph_at, height_at, Laid, EntryIn};
ghost use Rattle.graph.specs.Neighbours.{level_part, level_above, neighbours as neighbours_of, part_given, part_of};
ghost use Rattle.graph.specs.Marks.{Under, Walks};
ghost use Rattle.graph.specs.Told.{next_told, pass_told, cache_told, starts_after, part_start};

use config::Config;
use refusal::Refusal;
use rows::Node;

// The entry is where a search begins.
#[derive(Clone, Copy)]
pub struct CacheHeader {
    pub entry: Option<Node>,
    pub rng_state: u64,
}

#[derive(Clone, Copy)]
pub struct CacheInfo {
    pub nodes: usize,
    pub entry: Option<Node>,
    pub rng_state: u64,
}

// A part of the cache: its first byte, its length.
#[derive(Clone, Copy)]
pub struct CachePart {
    pub at: usize,
    pub size: usize,
}

// "VECGRAPH", as its 8 bytes are read.
const MAGIC: u64 = 5_210_736_590_506_378_582;

const VERSION: u32 = 1;

const NO_ENTRY: u64 = 0xffff_ffff_ffff_ffff;

const VERSION_PLACE: usize = 8;

const SNAPSHOT_CRC_PLACE: usize = 12;

const SEQUENCE_PLACE: usize = 16;

const NODES_PLACE: usize = 24;

const ENTRY_PLACE: usize = 32;

const RNG_PLACE: usize = 40;

const FIRST_NODE: usize = 48;

const MIN_LEVELS: usize = 1;

const MAX_LEVELS: usize = 33;

// ---- the header

// 1, 40, 41.
#[tactic(auto, using(crate::proofs::Head::magic_is), unfolding(crate::specs::Cache::head_test))]
fn check_head(s: &[u8], crc: u32, sequence: u64, count: usize) -> Result<(), Refusal>
    ensures { result ≡ head_test crc sequence count s.now }
{
    if s.len() < Config::MIN_CACHE_BYTES {
        return Err(Refusal::LengthOutOfBounds);
    }
    if Config::MAX_CACHE_BYTES < s.len() {
        return Err(Refusal::LengthOutOfBounds);
    }
    if fields::get_u64(s, 0) != MAGIC {
        return Err(Refusal::StaleCache);
    }
    if fields::get_u32(s, VERSION_PLACE) != VERSION {
        return Err(Refusal::StaleCache);
    }
    if fields::get_u32(s, SNAPSHOT_CRC_PLACE) != crc {
        return Err(Refusal::StaleCache);
    }
    if fields::get_u64(s, SEQUENCE_PLACE) != sequence {
        return Err(Refusal::StaleCache);
    }
    if fields::get_u64(s, NODES_PLACE) != (count as u64) {
        return Err(Refusal::WrongNodeCount);
    }
    if Config::MAX_RECORDS < count {
        return Err(Refusal::WrongNodeCount);
    }
    Ok(())
}

// 42, 43.
#[tactic(auto, unfolding(crate::specs::Graph::entry_of))]
fn read_entry(count: usize, n: u64) -> Result<Option<Node>, Refusal>
    requires { count ≤ max_records }
    ensures { result ≡ entry_of count n }
{
    if n == NO_ENTRY {
        if 0 < count {
            return Err(Refusal::MissingEntry);
        }
        return Ok(None);
    }
    if (count as u64) <= n {
        return Err(Refusal::WrongEntry);
    }
    Ok(Some(Node(n as u32)))
}

// 44, 45, 51.
#[tactic(auto, unfolding(crate::specs::Cache::room_test))]
fn check_room(s: &[u8], seed: u64, count: usize, lent: usize) -> Result<(), Refusal>
    requires { min_cache_bytes ≤ length s.now }
    ensures { result ≡ room_test seed count lent s.now }
{
    if fields::get_u64(s, RNG_PLACE) != rng::rng_state(seed, count as u64) {
        return Err(Refusal::WrongRngState);
    }
    if (s.len() - layout::CRC_LENGTH - FIRST_NODE) / 5 < count {
        return Err(Refusal::CountOverBytes);
    }
    if lent < count {
        return Err(Refusal::TooFewStarts);
    }
    Ok(())
}

// 6, 7, 8, 1, 40 to 45, 51.
#[tactic(auto, using(crate::proofs::Head::head_passed), unfolding(crate::specs::Cache::read_header))]
fn read_header(
    s: &[u8],
    config: Config,
    crc: u32,
    sequence: u64,
    count: usize,
    lent: usize,
) -> Result<CacheHeader, Refusal>
    ensures { result ≡ header_of config crc sequence count lent s.now }
{
    config.validate()?;
    check_head(s, crc, sequence, count)?;
    let entry = read_entry(count, fields::get_u64(s, ENTRY_PLACE))?;
    check_room(s, config.seed, count, lent)?;
    let rng_state = fields::get_u64(s, RNG_PLACE);
    Ok(CacheHeader { entry, rng_state })
}

// ---- nodes in order

// A list of neighbours. Each is marked with where the list begins, so one that stood before in this list, and in no other, bears that mark.
#[tactic(auto, using(crate::proofs::Listing::listing_past, crate::proofs::Listing::listing_self, crate::proofs::Listing::listing_done))]
fn check_neighbours(
    s: &[u8],
    end: usize,
    count: usize,
    node: usize,
    degree: usize,
    first: usize,
    marks: &mut [u64],
) -> Result<usize, Refusal>
    requires end_in_bounds { end ≤ length s.now }
    requires first_le_end { first ≤ end }
    requires count_in_bounds { count ≤ length marks.old }
    requires under { Under marks.old first }
    ensures value { result ≡ next_told (several (read_neighbour count s.now end node first) degree 0 first) }
    ensures under_2 { Under marks.new (first + 1) }
{
    let mark = first as u64;
    let mut at = first;
    for _ in 0..degree {
        if end - at < 4 {
            return Err(Refusal::PastTheEnd);
        }
        let x = fields::get_u32(s, at) as usize;
        if count <= x {
            return Err(Refusal::WrongNeighbour);
        }
        if x == node {
            return Err(Refusal::WrongNeighbour);
        }
        if marks[x] == mark {
            return Err(Refusal::WrongNeighbour);
        }
        marks[x] = mark;
        at += 4;
    }
    Ok(at)
}

// 2M at level 0, M above.
#[tactic(auto, unfolding(crate::specs::Graph::degree_limit))]
fn degree_limit(m: usize, level: usize) -> usize
    requires { m ≤ max_m }
    ensures { result ≡ degree_limit m level }
{
    if level == 0 {
        return 2 * m;
    }
    m
}

#[tactic(auto, unfolding(crate::specs::Cache::read_level, crate::specs::Graph::degree_test))]
fn check_level(
    s: &[u8],
    end: usize,
    m: usize,
    count: usize,
    node: usize,
    level: usize,
    at: usize,
    marks: &mut [u64],
) -> Result<usize, Refusal>
    requires { Walks s.now end m count marks.old at }
    ensures value { result ≡ next_told (read_level m count s.now end node level at) }
    ensures under { Under marks.new (at + 5) }
{
    if end - at < 4 {
        return Err(Refusal::PastTheEnd);
    }
    let degree = fields::get_u32(s, at) as usize;
    if degree_limit(m, level) < degree {
        return Err(Refusal::WrongDegree);
    }
    check_neighbours(s, end, count, node, degree, at + 4, marks)
}

fn check_levels(
    s: &[u8],
    end: usize,
    m: usize,
    count: usize,
    node: usize,
    levels: usize,
    first: usize,
    marks: &mut [u64],
) -> Result<usize, Refusal>
    requires { Walks s.now end m count marks.old first }
    ensures value { result ≡ next_told (several (read_level m count s.now end node) levels 0 first) }
    ensures by_index { (next : ℕ) → result ≡ Ok next → Under marks.new (next + 1) }
{
    let mut at = first;
    for level in 0..levels {
        at = check_level(s, end, m, count, node, level, at, marks)?;
    }
    Ok(at)
}

#[tactic(auto, using(fields::proofs::Numbers::num_one), unfolding(crate::specs::Cache::read_node, crate::specs::Graph::levels_test))]
fn check_node(
    s: &[u8],
    end: usize,
    m: usize,
    count: usize,
    node: usize,
    at: usize,
    marks: &mut [u64],
) -> Result<usize, Refusal>
    requires { Walks s.now end m count marks.old at }
    ensures value { result ≡ next_told (read_node m count s.now end node at) }
    ensures by_index { (next : ℕ) → result ≡ Ok next → Under marks.new (next + 1) }
{
    if end - at < 1 {
        return Err(Refusal::PastTheEnd);
    }
    let levels = wide(s[at]);
    if !config::in_range(levels, MIN_LEVELS, MAX_LEVELS) {
        return Err(Refusal::WrongLevels);
    }
    check_levels(s, end, m, count, node, levels, at + 1, marks)
}

fn wide(x: u8) -> usize
    ensures { (result ≡ x) × (result < 256) }
{
    x as usize
}

// The lent starts bear the marks meanwhile.
#[tactic(auto, using(crate::proofs::Listing::running_done), unfolding(crate::specs::Cache::read_nodes))]
fn check_nodes(s: &[u8], m: usize, count: usize, marks: &mut [u64]) -> Result<usize, Refusal>
    requires min_cache_bytes_in_bounds { min_cache_bytes ≤ length s.now }
    requires m_le_max_m { m ≤ max_m }
    requires count_in_bounds { count ≤ length marks.old }
    requires under { Under marks.old 1 }
    ensures { result ≡ next_told (read_nodes m count s.now) }
{
    let end = s.len() - layout::CRC_LENGTH;
    let mut at = FIRST_NODE;
    for node in 0..count {
        at = check_node(s, end, m, count, node, at, marks)?;
    }
    Ok(at)
}

// ---- starts

// Internal: the levels lie in the cache. Where the node that begins at `at` ends.
#[tactic(auto, using(crate::proofs::Walk::links_begin, crate::proofs::Walk::links_on))]
fn node_end(s: &[u8], at: usize) -> usize
    requires { at + node_length (links_at s.now at) ≤ length s.now }
    ensures { result ≡ at + node_length (links_at s.now at) }
{
    let levels = wide(s[at]);
    let mut next = at + 1;
    for _ in 0..levels {
        next += 4 + 4 * (fields::get_u32(s, next) as usize);
    }
    next
}

#[tactic(auto, using(crate::proofs::Starts::filling_done))]
fn fill_starts(s: &[u8], count: usize, starts: &mut [u64])
    requires count_in_bounds { count ≤ length starts.old }
    requires first_node_in_bounds { first_node + graph_length (graph_at count s.now first_node) ≤ length s.now }
    ensures { starts.new ≡ starts_from first_node (graph_at count s.now first_node) ++ drop count starts.old }
{
    let mut at = FIRST_NODE;
    for i in 0..count {
        starts[i] = at as u64;
        at = node_end(s, at);
    }
}

// Zeros from `at` on.
fn zeros_from(words: &mut [u64], at: usize)
    requires { at ≤ length words.old }
    ensures { words.new ≡ take at words.old ++ replicate (length words.old - at) 0 }
{
    fields::fill_zero64(&mut words[at..]);
}

// ---- 49, 50

// Internal: the neighbours lie in the cache, and each has a start that lies there. Whether one of them lacks the level.
#[tactic(auto, using(crate::proofs::Decode::length_numbers, crate::proofs::Walk::walking_over))]
fn lost_at(s: &[u8], starts: &[u64], level: usize, degree: usize, first: usize) -> bool
    requires degree_in_bounds { first + 4 * degree ≤ length s.now }
    requires by_index { (i : ℕ) → get_or (numbers_at degree s.now first) i 0 < length starts.now }
    requires by_index_2 { (x : ℕ) → get_or starts.now x 0 < length s.now }
    ensures { result ≡ lost_at (height_at s.now starts.now) level (numbers_at degree s.now first) }
{
    for i in 0..degree {
        let x = fields::get_u32(s, first + 4 * i) as usize;
        let start = starts[x] as usize;
        if wide(s[start]) <= level {
            return true;
        }
    }
    false
}

// Internal: as `lost_at`, for the levels of the node that begins at `start`. Level 0 is left out: every node has it.
fn lost_above(s: &[u8], starts: &[u64], start: usize) -> bool
    requires start_in_bounds { start + node_length (links_at s.now start) ≤ length s.now }
    requires bound { 1 ≤ num s.now start 1 }
    requires by_index { (level i : ℕ) → get_or (get_or (links_at s.now start) level []) i 0 < length starts.now }
    requires by_index_2 { (x : ℕ) → get_or starts.now x 0 < length s.now }
    ensures { result ≡ lost_from (height_at s.now starts.now) 1 (drop 1 (links_at s.now start)) }
{
    let levels = wide(s[start]);
    let mut at = start + 5 + 4 * (fields::get_u32(s, start + 1) as usize);
    for level in 1..levels {
        let degree = fields::get_u32(s, at) as usize;
        if lost_at(s, starts, level, degree, at + 4) {
            return true;
        }
        at += 4 + 4 * degree;
    }
    false
}

// Internal: the starts are those of a graph that passed 46 to 48.
#[tactic(auto, using(crate::proofs::Body::laid_lost, crate::proofs::Walk::walking, crate::proofs::Decode::length_graph))]
fn edge_lost(s: &[u8], starts: &[u64], count: usize) -> bool
    requires { Laid s.now starts.now count }
    ensures { result ≡ edge_lost (height_at s.now starts.now) (graph_at count s.now first_node) }
{
    for i in 0..count {
        if lost_above(s, starts, starts[i] as usize) {
            return true;
        }
    }
    false
}

// Internal: as `edge_lost`. Whether a node has more levels than that.
#[tactic(auto, using(crate::proofs::Walk::height_is, crate::proofs::Body::laid_height, crate::proofs::Walk::walking, crate::proofs::Decode::length_graph))]
fn taller(s: &[u8], starts: &[u64], count: usize, height: usize) -> bool
    requires { Laid s.now starts.now count }
    ensures { result ≡ any_of (λ links. ltb height (length links)) (graph_at count s.now first_node) }
{
    for i in 0..count {
        let start = starts[i] as usize;
        if height < wide(s[start]) {
            return true;
        }
    }
    false
}

// 49, 50.
#[tactic(auto, using(crate::proofs::Body::laid_edges), unfolding(crate::specs::Graph::linked_test))]
fn check_links(s: &[u8], starts: &[u64], count: usize, entry: Option<Node>) -> Result<(), Refusal>
    requires laid { Laid s.now starts.now count }
    requires entry_in { EntryIn count entry }
    ensures { result ≡ linked_test entry (graph_at count s.now first_node) }
{
    if edge_lost(s, starts, count) {
        return Err(Refusal::EdgeToMissingLevel);
    }
    let Some(n) = entry else {
        return Ok(());
    };
    let start = starts[n.0 as usize] as usize;
    if taller(s, starts, count, wide(s[start])) {
        return Err(Refusal::EntryBelowHighest);
    }
    Ok(())
}

// ---- the whole

// Nodes in order, 16, 17.
#[tactic(auto, unfolding(crate::specs::Cache::read_body))]
fn check_body(s: &[u8], m: usize, count: usize, marks: &mut [u64]) -> Result<(), Refusal>
    requires min_cache_bytes_in_bounds { min_cache_bytes ≤ length s.now }
    requires m_le_max_m { m ≤ max_m }
    requires count_in_bounds { count ≤ length marks.old }
    requires under { Under marks.old 1 }
    ensures { result ≡ pass_told (read_body m count s.now) }
{
    let end = s.len() - layout::CRC_LENGTH;
    let next = check_nodes(s, m, count, marks)?;
    if next != end {
        return Err(Refusal::BytesLeftOver);
    }
    if crc32::crc32(&s[..end]) != fields::get_u32(s, end) {
        return Err(Refusal::WrongFileCrc);
    }
    Ok(())
}

// All behind the header. While the nodes are tested the starts bear marks.
#[tactic(auto, using(crate::proofs::Body::answered, crate::proofs::Body::laid_body, crate::proofs::Starts::then_zeros), unfolding(crate::specs::Cache::read_graph))]
fn check_graph(
    s: &[u8],
    m: usize,
    count: usize,
    entry: Option<Node>,
    starts: &mut [u64],
) -> Result<(), Refusal>
    requires min_cache_bytes_in_bounds { min_cache_bytes ≤ length s.now }
    requires m_le_max_m { m ≤ max_m }
    requires count_in_bounds { count ≤ length starts.old }
    requires entry_in { EntryIn count entry }
    ensures value { result ≡ pass_told (read_graph m count entry s.now) }
    ensures starts_after { (g : Graph) → read_graph m count entry s.now ≡ Ok g → starts.new ≡ starts_from first_node g ++ replicate (length starts.old - length g) 0 }
{
    fields::fill_zero64(starts);
    check_body(s, m, count, starts)?;
    fill_starts(s, count, starts);
    zeros_from(starts, count);
    check_links(s, starts, count, entry)
}

// Reads the cache of a snapshot with these settings, this CRC, sequence and number of records.
pub fn read_cache(
    bytes: &[u8],
    config: Config,
    crc: u32,
    sequence: u64,
    count: usize,
    starts: &mut [u64],
) -> Result<CacheInfo, Refusal>
    ensures value { result ≡ cache_told (cache_of config crc sequence count (length starts.old) bytes.now) }
    ensures starts_after { starts.new ≡ starts_after (length starts.old) (cache_of config crc sequence count (length starts.old) bytes.now) }
{
    let read = read_whole(bytes, config, crc, sequence, count, starts);
    if read.is_err() {
        fields::fill_zero64(starts);
    }
    read
}

// As `read_cache`; but where it refuses, the starts bear what the reading left there.
#[tactic(auto, using(crate::proofs::Head::header_read), unfolding(crate::specs::Cache::read_cache))]
fn read_whole(
    bytes: &[u8],
    config: Config,
    crc: u32,
    sequence: u64,
    count: usize,
    starts: &mut [u64],
) -> Result<CacheInfo, Refusal>
    ensures value { result ≡ cache_told (cache_of config crc sequence count (length starts.old) bytes.now) }
    ensures starts_after { IsOk result → starts.new ≡ starts_after (length starts.old) (cache_of config crc sequence count (length starts.old) bytes.now) }
{
    let header = read_header(bytes, config, crc, sequence, count, starts.len())?;
    check_graph(bytes, config.m, count, header.entry, starts)?;
    Ok(CacheInfo {
        nodes: count,
        entry: header.entry,
        rng_state: header.rng_state,
    })
}

// ---- one level's neighbours

#[tactic(auto, unfolding(crate::specs::Neighbours::level_part))]
fn level_part(s: &[u8], at: usize) -> Result<CachePart, Refusal>
    requires { at ≤ length s.now }
    ensures { result ≡ level_part s.now at }
{
    if s.len() - at < 4 {
        return Err(Refusal::RowDoesNotFit);
    }
    let size = 4 * (fields::get_u32(s, at) as usize);
    if s.len() - at - 4 < size {
        return Err(Refusal::RowDoesNotFit);
    }
    Ok(CachePart { at: at + 4, size })
}

#[tactic(auto, using(crate::proofs::Shows::above_turn, crate::proofs::Shows::part_inside))]
fn level_above(s: &[u8], level: usize, first: usize) -> Result<CachePart, Refusal>
    requires { first ≤ length s.now }
    ensures { result ≡ level_above level s.now first }
{
    let mut at = first;
    for _ in 0..level {
        let below = level_part(s, at)?;
        at = below.at + below.size;
    }
    level_part(s, at)
}

// Where they lie: for a caller that cannot be handed a slice, and for the view below.
#[tactic(auto, unfolding(crate::specs::Neighbours::neighbours))]
pub fn neighbours_part(
    cache: &[u8],
    starts: &[u64],
    count: usize,
    node: Node,
    level: usize,
) -> Result<CachePart, Refusal>
    ensures { result ≡ neighbours_of cache.now starts.now count node.0 level }
{
    let n = node.0 as usize;
    if count <= n {
        return Err(Refusal::NoSuchNode);
    }
    if starts.len() < count {
        return Err(Refusal::NoSuchNode);
    }
    let start = starts[n] as usize;
    if cache.len() <= start {
        return Err(Refusal::RowDoesNotFit);
    }
    if wide(cache[start]) <= level {
        return Err(Refusal::NoSuchNode);
    }
    level_above(cache, level, start + 1)
}

// The neighbours' bytes where they lie, 4 for each; where it refuses, the empty part at the cache's start. `neighbours_number` tells the number.
#[tactic(auto, using(crate::proofs::Shows::shown_inside))]
pub fn neighbours<'a>(
    cache: &'a [u8],
    starts: &[u64],
    count: usize,
    node: Node,
    level: usize,
) -> &'a [u8]
    ensures result_value { result.now ≡ part_of cache.now (part_given (neighbours_of cache.now starts.now count node.0 level)) }
    ensures ref_ptr_value { result.ref_ptr ≡ part_start cache.entry.ref_ptr (part_given (neighbours_of cache.now starts.now count node.0 level)) }
{
    match neighbours_part(cache, starts, count, node, level) {
        Ok(part) => {
            let end = part.at + part.size;
            &cache[part.at..end]
        }
        Err(_) => &cache[..0],
    }
}

// 0 where nothing is refused.
pub fn neighbours_number(
    cache: &[u8],
    starts: &[u64],
    count: usize,
    node: Node,
    level: usize,
) -> u32
    ensures { result ≡ number_told (neighbours_of cache.now starts.now count node.0 level) }
{
    match neighbours_part(cache, starts, count, node, level) {
        Ok(_) => 0,
        Err(why) => why.number(),
    }
}
