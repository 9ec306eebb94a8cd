#![tactic(auto)]
// Extending the low bits of a word: immediates, loads and the extend instructions share these two functions.
ghost use Rattle.std.specs.Prelude.{◌≡◌, ◌^◌, ◌<◌, true, false};
ghost use Rattle.bits.specs.Word.{extend};

// 2^k.
fn power(k: u32) -> u32
    requires { k < 32 }
    ensures { result ≡ 2 ^ k }
{
    1 << k
}

// The k low bits of x, zero-extended.
pub fn zero_extend(x: u32, k: u32) -> u32
    requires { k < 32 }
    ensures { result ≡ extend false k x }
{
    x % power(k)
}

// The k low bits of x, sign-extended: moved up by half their range, cut to k bits, and moved back.
pub fn sign_extend(x: u32, k: u32) -> u32
    requires { (0 < k) × (k < 32) }
    ensures { result ≡ extend true k x }
{
    let half = power(k - 1);
    let moved = x.wrapping_add(half) % power(k);
    moved.wrapping_sub(half)
}
