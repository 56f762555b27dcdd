// A long run of bytes made 2400 bytes that leave the register the same, at several bytes a cycle and with no table:
// every byte is xored into four places of the run behind it, whence it need not be looked at again.
// It serves any register that is a `Register` of specs/Elimination.antt; that the CRC's is one is proved in `crc32`.
#![tactic(auto)]

ghost use Rattle.std.specs.Prelude.{◌≡◌, ◌∷◌, ℕ, ◌+◌, ◌-◌, ◌≤◌, length, take, drop, replicate};
ghost use Rattle.elimination.specs.Elimination.{Started, Passed, Keeps, Clear, Last, Alike};

// Internal: the n bytes of s from `at` on are eliminated into v, behind the window, which is the 2400 bytes at its front.
// The distances are longer than the machine's vectors, so LLVM takes many turns at once.
fn block(v: &mut [u8; 10592], n: usize, s: &[u8], at: usize)
    requires v_len { length v.old ≡ 10592 }
    requires n_bound { n ≤ 8192 }
    requires n_in_bounds { at + n ≤ length s.now }
    ensures v_len_2 { length v.new ≡ 10592 }
    ensures passed { Passed n v.old (drop at s.now) v.new (drop (at + n) s.now) }
{
    for j in 0..n {
        v[2400 + j] = s[at + j] ^ (v[1240 + j] ^ (v[936 + j] ^ (v[712 + j] ^ v[j])));
    }
}

// Internal: the window moves on by n bytes.
fn keep(v: &mut [u8; 10592], n: usize)
    requires v_len { length v.old ≡ 10592 }
    requires n_bound { n ≤ 8192 }
    ensures v_len_2 { length v.new ≡ 10592 }
    ensures v_after { take 2400 v.new ≡ take 2400 (drop n v.old) }
{
    v.copy_within(n..n + 2400, 0);
}

// Internal: n bytes of s from `at` on are eliminated.
fn onward(v: &mut [u8; 10592], n: usize, s: &[u8], at: usize)
    requires v_len { length v.old ≡ 10592 }
    requires n_bound { n ≤ 8192 }
    requires n_in_bounds { at + n ≤ length s.now }
    ensures v_len_2 { length v.new ≡ 10592 }
    ensures keeps { Keeps v.old (drop at s.now) v.new (drop (at + n) s.now) }
{
    block(v, n, s, at);
    keep(v, n);
}

// Internal: all bytes but the first four and the last 2400 are eliminated.
fn most(v: &mut [u8; 10592], s: &[u8])
    requires v_len { length v.old ≡ 10592 }
    requires in_bounds { 2404 ≤ length s.now }
    ensures v_len_2 { length v.new ≡ 10592 }
    ensures keeps { Keeps v.old (drop 4 s.now) v.new (drop (length s.now - 2400) s.now) }
{
    let mut at: usize = 4;
    while 10592 <= s.len() - at {
        onward(v, 8192, s, at);
        at += 8192;
    }
    onward(v, s.len() - 2400 - at, s, at);
}

// Internal: the window is zero but for its last four bytes, as if zero bytes had come first, which leave the zero register zero.
fn start(v: &mut [u8; 10592], a: u8, b: u8, c: u8, d: u8)
    requires { v.old ≡ replicate {A = ℕ} 10592 0 }
    ensures v_len { length v.new ≡ 10592 }
    ensures started { Started a b c d v.new }
{
    v[2396] = a;
    v[2397] = b;
    v[2398] = c;
    v[2399] = d;
}

// Internal: zero bytes stand behind the window.
fn clear(v: &mut [u8; 10592])
    requires { length v.old ≡ 10592 }
    ensures v_len { length v.new ≡ 10592 }
    ensures v_unchanged { take 2400 v.new ≡ take 2400 v.old }
    ensures clear { Clear v.new }
{
    v[2400..4800].fill(0);
}

// Internal: what the last 2400 bytes, those of s from `at` on, have become when the window is eliminated too.
fn last(v: &[u8; 10592], s: &[u8], at: usize, out: &mut [u8; 2400])
    requires v_len { length v.now ≡ 10592 }
    requires at_in_bounds { at + 2400 ≤ length s.now }
    requires out_len { length out.old ≡ 2400 }
    ensures out_len_2 { length out.new ≡ 2400 }
    ensures last { Last v.now (drop at s.now) out.new }
{
    for j in 0..2400 {
        out[j] = s[at + j] ^ (v[1240 + j] ^ (v[936 + j] ^ (v[712 + j] ^ v[j])));
    }
}

// Internal: out leaves every register, from zero on, where a, b, c, d and the bytes of s from the fifth on leave it.
// (The first four bytes are handed in, since a caller whose register does not start at zero has it xored into them.)
pub fn eliminate(a: u8, b: u8, c: u8, d: u8, s: &[u8], out: &mut [u8; 2400])
    requires in_bounds { 2404 ≤ length s.now }
    requires out_len { length out.old ≡ 2400 }
    ensures out_len_2 { length out.new ≡ 2400 }
    ensures alike { Alike out.new (a ∷ b ∷ c ∷ d ∷ drop 4 s.now) }
{
    let mut v: [u8; 10592] = [0; 10592];
    start(&mut v, a, b, c, d);
    most(&mut v, s);
    clear(&mut v);
    last(&v, s, s.len() - 2400, out);
}
