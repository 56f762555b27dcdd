// The CRC behind C names, for bench/ to time.
#![tactic(auto)]

ghost use Rattle.std.specs.Prelude.{◌≡◌, ◌<◌};
ghost use Rattle.crc32.specs.Crc.{all_ones, bytes_in, crc_of};
ghost use Rattle.crc32.specs.Steps.{Rows};

#[unsafe(no_mangle)]
pub extern "C" fn measure_crc(bytes: &[u8]) -> u32
    ensures { result ≡ crc_of bytes.now }
{
    crc32::crc32(bytes)
}

// The same from parts of `size` bytes, as a caller has it that reads a file piece by piece.
#[tactic(auto, unfolding(crc32::specs::Crc::crc_of))]
#[unsafe(no_mangle)]
pub extern "C" fn measure_crc_parts(bytes: &[u8], size: usize) -> u32
    ensures { result ≡ crc_of bytes.now }
{
    if size == 0 {
        return crc32::crc32(bytes);
    }
    crc32::finish(parts(bytes, size))
}

#[tactic(auto, using(crc32::proofs::Bytes::bytes_in_append), unfolding(crc32::specs::Crc::bytes_in))]
fn parts(bytes: &[u8], size: usize) -> u32
    requires { 0 < size }
    ensures { result ≡ bytes_in all_ones bytes.now }
{
    let mut c = crc32::start();
    for part in bytes.chunks(size) {
        c = crc32::part(c, part);
    }
    c
}

// The xor of the CRCs of all whole runs of `size` bytes, with the tables made once: what a caller with many frames pays.
#[unsafe(no_mangle)]
pub extern "C" fn measure_crc_runs(bytes: &[u8], size: usize) -> u32 {
    if size == 0 {
        return 0;
    }
    let t = crc32::tables();
    runs(&t, bytes, size)
}

fn runs(t: &[u32; 4096], bytes: &[u8], size: usize) -> u32
    requires rows { Rows 16 t.now }
    requires size_nonzero { 0 < size }
{
    let mut sum: u32 = 0;
    for run in bytes.chunks_exact(size) {
        sum ^= crc32::crc32_with(t, run);
    }
    sum
}
