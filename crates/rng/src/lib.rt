// The state of the level generator, as the graph cache stores it.
// Definition: specs/Rng.antt.
#![tactic(auto)]

ghost use Rattle.std.specs.Prelude.{◌≡◌, ◌*◌, ◌%◌, ◌^◌};
ghost use Rattle.rng.specs.Rng.{rng_state};

const RNG_STEP: u64 = 0x9e37_79b9_7f4a_7c15;

pub fn wrapping_mul(a: u64, b: u64) -> u64
    ensures { result ≡ a * b % 2 ^ 64 }
{
    a.wrapping_mul(b)
}

#[tactic(auto, unfolding(crate::specs::Rng::rng_state))]
pub fn rng_state(seed: u64, count: u64) -> u64
    ensures { result ≡ rng_state seed count }
{
    seed.wrapping_add(wrapping_mul(count, RNG_STEP))
}
