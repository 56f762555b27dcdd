// The encoders behind C names, for bench/ to time, with the settings that `Config::new` gives.
#![tactic(auto)]

use config::Config;
use refusal::Refusal;

// A refusal has the highest bit.
fn told(w: Result<usize, Refusal>) -> u64 {
    match w {
        Ok(n) => n as u64,
        Err(r) => 9_223_372_036_854_775_808 + (r.number() as u64),
    }
}

#[unsafe(no_mangle)]
pub extern "C" fn measure_encode_frame(
    d: usize,
    sequence: u64,
    operations: &[u64],
    coordinates: &[u32],
    captions: &[u8],
    out: &mut [u8],
) -> u64 {
    told(encoder::encode_frame(
        Config::new(d),
        sequence,
        operations,
        coordinates,
        captions,
        out,
    ))
}

#[unsafe(no_mangle)]
pub extern "C" fn measure_encode_batch(
    d: usize,
    sequence: u64,
    operations: &[u64],
    coordinates: &[u32],
    captions: &[u8],
    out: &mut [u8],
) -> u64 {
    told(encoder::encode_batch(
        Config::new(d),
        sequence,
        operations,
        coordinates,
        captions,
        out,
    ))
}
