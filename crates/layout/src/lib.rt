// The layouts of document 01 as numbers: where a snapshot's and a frame's parts stand and how long they are. Nothing else spells them.
// Definitions: specs/Layout.antt.
#![tactic(auto)]

ghost use Rattle.std.specs.Prelude.{◌≡◌, ◌≤◌, ◌<◌};
ghost use Rattle.config.specs.Limits.{max_dimensions};
ghost use Rattle.layout.specs.Layout.{metric_length, header_length, item_length, record_length, caption_offset};

// A snapshot's version.
#[derive(Clone, Copy)]
pub enum Version {
    One,
    Two,
}

// What a written snapshot has: every record, or the live ones.
#[derive(Clone, Copy)]
pub enum Extent {
    Full,
    Compacted,
}

// What a frame's payload is: one operation, or a batch.
#[derive(Clone, Copy)]
pub enum Shape {
    Single,
    Batch,
}

// "VECTORS1", as its 8 bytes are read.
pub const SNAPSHOT_MAGIC: u64 = 3_554_275_031_595_042_134;

// A file's CRC, at its end.
pub const CRC_LENGTH: usize = 4;

// The header of a snapshot as it is written.
pub const HEADER_LENGTH: usize = 52;

// A record's ID and flag, before its coordinates.
pub const RECORD_HEAD: usize = 9;

// A frame's length and the CRC of it, before the payload; with the payload's CRC behind it.
pub const FRAME_HEAD: usize = 8;

pub const FRAME_AROUND: usize = 12;

// An opcode and a sequence, at a payload's front.
pub const OPCODE_AND_SEQUENCE: usize = 9;

// The sequence alone, and what a batch has before its operations: opcode, sequence, count.
pub const SEQUENCE_LENGTH: usize = 8;

pub const BATCH_HEAD: usize = 13;

// An operation's ID, and a delete as it stands in a batch: its tag and its ID.
pub const ID_LENGTH: usize = 8;

pub const DELETE_LENGTH: usize = 9;

// A frame of one delete.
pub const DELETE_FRAME: usize = 29;

impl Version {
    // Version 2 has the metric before the seed.
    pub fn metric_length(self) -> usize
        ensures { (result ≡ metric_length self) × (result ≤ 4) }
    {
        match self {
            Version::One => 0,
            Version::Two => 4,
        }
    }

    pub fn header_length(self) -> usize
        ensures { (result ≡ header_length self) × (result ≤ 52) }
    {
        match self {
            Version::One => 48,
            Version::Two => HEADER_LENGTH,
        }
    }
}

// Internal: d is a valid number of coordinates.
// From the first coordinate byte to the caption's first.
pub fn caption_offset(d: usize) -> usize
    requires { d ≤ max_dimensions }
    ensures { result ≡ caption_offset d }
{
    4 * d + 4
}

// Internal: as `caption_offset`, and n, a caption's length, has 32 bits.
// Coordinates, caption length and caption.
pub fn item_length(d: usize, n: usize) -> usize
    requires d_le_max_dimensions { d ≤ max_dimensions }
    requires n_bound { n < 4294967296 }
    ensures { result ≡ item_length d n }
{
    caption_offset(d) + n
}

// Internal: as `item_length`.
pub fn record_length(d: usize, n: usize) -> usize
    requires d_le_max_dimensions { d ≤ max_dimensions }
    requires n_bound { n < 4294967296 }
    ensures { result ≡ record_length d n }
{
    RECORD_HEAD + item_length(d, n)
}
