// Entries for the benchmark under bench/: a slice is passed as pointer and length. Nothing else uses them.
#![tactic(auto)]

ghost use Rattle.std.specs.Prelude.{◌≡◌};
ghost use Rattle.utf8.specs.Utf8.{is_utf8, valid_front};

#[unsafe(no_mangle)]
pub extern "C" fn measure_is_utf8(s: &[u8]) -> bool
    ensures { result ≡ is_utf8 s.now }
{
    utf8::is_utf8(s)
}

#[unsafe(no_mangle)]
pub extern "C" fn measure_valid_front(s: &[u8]) -> usize
    ensures { result ≡ valid_front s.now }
{
    utf8::valid_front(s)
}
