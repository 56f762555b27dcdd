// The test of a vector's coordinates, by their bits alone: no coordinate enters a float operation.
// The definitions are in specs/Coordinates.antt.
#![tactic(auto)]

ghost use Rattle.std.specs.Prelude.{◌≡◌, ◌+◌, ◌*◌, ◌≤◌, length};
ghost use Rattle.fields.specs.Fields.{part};
ghost use Rattle.coordinates.specs.Coordinates.{vector_of, coordinates_of, patterns};
ghost use Rattle.coordinates.specs.Largest.{largest, judged};

use refusal::Refusal;

// Internal: the caller knows the room, since a vector that runs past the end is refusal 11 in a snapshot and 4 in a log.
// The d coordinates of 4 bytes each from `at` on.
#[tactic(auto, using(crate::proofs::Gathered::judged_largest))]
pub fn check_coordinates(s: &[u8], at: usize, d: usize, cosine: bool) -> Result<(), Refusal>
    requires { at + 4 * d ≤ length s.now }
    ensures { result ≡ coordinates_of cosine d (part s.now at (4 * d)) }
{
    judge(largest_at(s, at, d), cosine)
}

// The same of coordinates that are lent as bit patterns.
#[tactic(auto, using(crate::proofs::Gathered::judged_largest))]
pub fn check_bits(c: &[u32], cosine: bool) -> Result<(), Refusal>
    ensures { result ≡ vector_of cosine c.now }
{
    judge(largest_of(c), cosine)
}

#[tactic(auto, using(crate::proofs::Gathered::bytes_turn, crate::proofs::Gathered::bytes_end, crate::proofs::Patterns::patterns_take))]
fn largest_at(s: &[u8], at: usize, d: usize) -> u32
    requires { at + 4 * d ≤ length s.now }
    ensures { result ≡ largest 0 (patterns d (part s.now at (4 * d))) }
{
    let mut most: u32 = 0;
    for i in 0..d {
        let b = fields::get_u32(s, at + 4 * i);
        most = most.max(b % 2147483648);
    }
    most
}

#[tactic(auto, using(crate::proofs::Gathered::bits_turn, crate::proofs::Gathered::bits_end))]
fn largest_of(c: &[u32]) -> u32
    ensures { result ≡ largest 0 c.now }
{
    let mut most: u32 = 0;
    for &w in c {
        most = most.max(w % 2147483648);
    }
    most
}

fn judge(most: u32, cosine: bool) -> Result<(), Refusal>
    ensures { result ≡ judged cosine most }
{
    if 2139095040 <= most {
        return Err(Refusal::NotFinite);
    }
    if 0 < most {
        return Ok(());
    }
    if cosine {
        return Err(Refusal::VectorAllZero);
    }
    Ok(())
}
