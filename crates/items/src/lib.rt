// A record's coordinates and caption, as a snapshot and a log have them. The definitions are those of `meaning`, specs/Item.antt.
#![tactic(auto)]

ghost use Rattle.std.specs.Prelude.{◌≡◌, ◌≤◌, length};
ghost use Rattle.config.specs.Limits.{max_dimensions};
ghost use Rattle.meaning.specs.Item.{caption_at, item_at};

use config::Config;
use refusal::Refusal;

// Internal: `at` is not past `end`, nor `end` past the slice's end.
// The caption whose length stands at `at`.
#[tactic(auto, unfolding(meaning::specs::Item::caption_at))]
pub fn check_caption(config: Config, s: &[u8], end: usize, at: usize) -> Result<usize, Refusal>
    requires end_in_bounds { end ≤ length s.now }
    requires at_le_end { at ≤ end }
    ensures { result ≡ caption_at config s.now end at }
{
    let start = at + 4;
    if end < start {
        return Err(Refusal::PastTheEnd);
    }
    let n = fields::get_u32(s, at) as usize;
    if config.caption_limit() < n {
        return Err(Refusal::CaptionTooLong);
    }
    let stop = start + n;
    if end < stop {
        return Err(Refusal::PastTheEnd);
    }
    if !utf8::is_utf8(&s[start..stop]) {
        return Err(Refusal::NotUtf8);
    }
    Ok(n)
}

// Internal: as `check_caption`, and the settings are valid.
// Coordinates and caption; `short` refuses coordinates that run past the end, by 11 in a snapshot and by 4 in a log.
#[tactic(auto, unfolding(meaning::specs::Item::item_at))]
pub fn check_item(
    short: Refusal,
    config: Config,
    s: &[u8],
    end: usize,
    at: usize,
) -> Result<usize, Refusal>
    requires dimensions_le_max_dimensions { config.dimensions ≤ max_dimensions }
    requires end_in_bounds { end ≤ length s.now }
    requires at_le_end { at ≤ end }
    ensures { result ≡ item_at short config s.now end at }
{
    let d = config.dimensions;
    let metric = config.metric;
    let after = at + 4 * d;
    if end < after {
        return Err(short);
    }
    coordinates::check_coordinates(s, at, d, metric.is_cosine())?;
    check_caption(config, s, end, after)
}
