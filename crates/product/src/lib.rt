#![tactic(auto)]
// Products, quotients, and the accumulator that products are added to.
ghost use Rattle.std.specs.Prelude.{◌≡◌, ◌<◌, SomeIff, pos};
ghost use Rattle.bits.specs.Word.{modulo};
ghost use Rattle.product.specs.Product.{product, product_unsigned, quotient, quotient_unsigned};
ghost use Rattle.product.specs.Accumulate.{number, holding, term, added, subtracted};

use arith::Flagged;

// MACHI and MACLO.
#[derive(Clone, Copy)]
pub struct Accumulator {
    pub high: u32,
    pub low: u32,
}

// Both registers as one number.
impl From<Accumulator> for u64 {
    ghost from_gives = { λ m n. n ≡ number m };

    fn from(m: Accumulator) -> u64 {
        (u64::from(m.high) << 32) | u64::from(m.low)
    }
}

impl From<u64> for Accumulator {
    ghost from_gives = { λ n m. m ≡ holding (pos n) };

    fn from(n: u64) -> Accumulator {
        Accumulator {
            high: (n >> 32) as u32,
            low: (n % 0x1_0000_0000) as u32,
        }
    }
}

#[tactic(auto, using(crate::proofs::Products::carried), unfolding(crate::specs::Product::product_unsigned))]
pub fn mul_unsigned(a: u32, b: u32) -> Flagged
    ensures { result ≡ product_unsigned a b }
{
    let (value, carry) = a.overflowing_mul(b);
    Flagged {
        value,
        carry,
        overflow: false,
    }
}

// The signed product: its low 32 bits and its carry are those of the unsigned one.
#[tactic(auto, using(crate::proofs::Products::multiplying), unfolding(crate::specs::Product::product, crate::specs::Product::product_unsigned))]
pub fn mul(a: u32, b: u32) -> Flagged
    ensures { result ≡ product a b }
{
    let (_, overflow) = a.cast_signed().overflowing_mul(b.cast_signed());
    Flagged {
        overflow,
        ..mul_unsigned(a, b)
    }
}

// The signed quotient, truncated toward 0. 80000000 by ffffffff is 2^31, whose word is 80000000.
pub fn div(a: u32, b: u32) -> u32
    requires { 0 < b }
    ensures { result ≡ quotient a b }
{
    let q = a.cast_signed().wrapping_div(b.cast_signed());
    q.cast_unsigned()
}

pub fn div_unsigned(a: u32, b: u32) -> u32
    requires { 0 < b }
    ensures { result ≡ quotient_unsigned a b }
{
    a / b
}

// The same quotients, and none by 0: for callers that do not know of a divisor. Those above cannot fail.
pub fn checked_div(a: u32, b: u32) -> Option<u32>
    ensures { SomeIff result (0 < b) (quotient a b) }
{
    if b == 0 {
        return None;
    }
    Some(div(a, b))
}

pub fn checked_div_unsigned(a: u32, b: u32) -> Option<u32>
    ensures { SomeIff result (0 < b) (quotient_unsigned a b) }
{
    a.checked_div(b)
}

// The low 32 bits of a product, sign-extended to 64.
#[tactic(auto, using(crate::proofs::Products::extending))]
fn term(a: u32, b: u32) -> u64
    ensures { result ≡ modulo 64 (term a b) }
{
    i64::from(a.wrapping_mul(b).cast_signed()).cast_unsigned()
}

impl Accumulator {
    // Such a term is added, modulo 2^64. This and subtract_product share the term and differ in one method: a closure
    // for it would be no plainer.
    #[tactic(auto, using(crate::proofs::Accumulated::held_sum), unfolding(crate::specs::Accumulate::added))]
    pub fn add_product(self, a: u32, b: u32) -> Accumulator
        ensures { result ≡ added self a b }
    {
        u64::from(self).wrapping_add(term(a, b)).into()
    }

    // Likewise subtracted.
    #[tactic(auto, using(crate::proofs::Accumulated::held_difference), unfolding(crate::specs::Accumulate::subtracted))]
    pub fn subtract_product(self, a: u32, b: u32) -> Accumulator
        ensures { result ≡ subtracted self a b }
    {
        u64::from(self).wrapping_sub(term(a, b)).into()
    }
}
