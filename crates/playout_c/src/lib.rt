// The playout host's three calls under their C names, for an archive: each hands on the call of the crate `playout` that has its name,
// and promises what that promises. host/playout.h has the C declarations. A C caller is checked by nothing, so no call has a `requires`.
#![tactic(auto)]

ghost use Rattle.std.specs.Prelude.{◌≡◌};
ghost use Rattle.crc32.specs.Crc.{crc_of};
ghost use Rattle.utf8.specs.Utf8.{is_utf8};
ghost use Rattle.meaning.specs.Calls.{delete_count, delete_output};

#[unsafe(no_mangle)]
pub extern "C" fn lambspool_crc32(bytes: &[u8]) -> u32
    ensures { result ≡ crc_of bytes.now }
{
    playout::lambspool_crc32(bytes)
}

#[unsafe(no_mangle)]
pub extern "C" fn lambspool_is_utf8(bytes: &[u8]) -> bool
    ensures { result ≡ is_utf8 bytes.now }
{
    playout::lambspool_is_utf8(bytes)
}

#[unsafe(no_mangle)]
pub extern "C" fn lambspool_delete_frame(sequence: u64, id: u64, out: &mut [u8]) -> usize
    ensures value { result ≡ delete_count sequence out.old }
    ensures out_after { out.new ≡ delete_output sequence id out.old }
{
    playout::lambspool_delete_frame(sequence, id, out)
}
