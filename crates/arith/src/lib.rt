#![tactic(auto)]
// Arithmetic on words, and the bits of SR.
ghost use Rattle.std.specs.Prelude.{◌≡◌, ◌^◌, ◌<◌, bit_and, bit_or, bit_xor, if◌then◌else◌};
ghost use Rattle.arith.specs.Bit.{is_set, set_bit};
ghost use Rattle.arith.specs.Status.{IEE, F, CY, OVE, allowed, aligned, set_carry_overflow, exception_sr};
ghost use Rattle.arith.specs.Sums.{sum, difference, address_sum, address_difference};
ghost use Rattle.arith.specs.Compare.{holds};
ghost use Rattle.arith.specs.Shift.{shift_left, shift_right, shift_right_signed, rotate_right, high_half};
ghost use Rattle.arith.specs.Place.{least, greatest};

// The places of the bits of SR, as the definitions name them: an enum or masks would need a map back to the places in
// every contract.
pub const SM: u32 = 0;

pub const TEE: u32 = 1;

pub const IEE: u32 = 2;

pub const F: u32 = 9;

pub const CY: u32 = 10;

pub const OV: u32 = 11;

pub const OVE: u32 = 12;

pub const DSX: u32 = 13;

// A result with its flags.
#[derive(Clone, Copy)]
pub struct Flagged {
    pub value: u32,
    pub carry: bool,
    pub overflow: bool,
}

// The bit of x at a place is 1.
fn is_set(x: u32, place: u32) -> bool
    requires { place < 32 }
    ensures { result ≡ is_set place x }
{
    (x >> place) % 2 == 1
}

// x with the bit at a place made v.
#[tactic(auto, using(crate::proofs::Bit::set_by_or, crate::proofs::Bit::cleared_by_and))]
fn set_bit(x: u32, place: u32, v: bool) -> u32
    requires { place < 32 }
    ensures { result ≡ set_bit place v x }
{
    if v { x | 1 << place } else { x & !(1 << place) }
}

// The four that read a bit are one call each: a public is_set would make callers name places and ask that they be below
// 32.

// F, the flag that compares set and branches read.
pub fn flag(sr: u32) -> bool
    ensures { result ≡ is_set F sr }
{
    is_set(sr, F)
}

pub fn set_flag(sr: u32, f: bool) -> u32
    ensures { result ≡ set_bit F f sr }
{
    set_bit(sr, F, f)
}

// CY, the carry in.
pub fn carry(sr: u32) -> bool
    ensures { result ≡ is_set CY sr }
{
    is_set(sr, CY)
}

// SR with CY and OV.
pub fn set_carry_overflow(sr: u32, cy: bool, ov: bool) -> u32
    ensures { result ≡ set_carry_overflow cy ov sr }
{
    set_bit(set_bit(sr, CY, cy), OV, ov)
}

// OVE: an overflow, and a division by 0, raise range.
pub fn overflow_enabled(sr: u32) -> bool
    ensures { result ≡ is_set OVE sr }
{
    is_set(sr, OVE)
}

// IEE: interrupts are taken.
pub fn interrupts_enabled(sr: u32) -> bool
    ensures { result ≡ is_set IEE sr }
{
    is_set(sr, IEE)
}

// What a write of x to SR or ESR leaves: bits 0 to 2 and 9 to 13 of x, and bit 15.
#[tactic(auto, using(crate::proofs::Status::allowed_fields))]
pub fn keep_allowed(x: u32) -> u32
    ensures { result ≡ allowed x }
{
    0x8000 + x / 512 % 32 * 512 + x % 8
}

// What a write of x to EPCR leaves.
pub fn align(x: u32) -> u32
    ensures { result ≡ aligned x }
{
    x / 4 * 4
}

// SR after an exception, in a delay slot or not.
#[tactic(auto, unfolding(crate::specs::Status::exception_sr))]
pub fn exception_sr(sr: u32, slot: bool) -> u32
    ensures { result ≡ exception_sr slot sr }
{
    let sr = set_bit(sr, DSX, slot);
    let sr = set_bit(sr, OVE, false);
    let sr = set_bit(sr, IEE, false);
    let sr = set_bit(sr, TEE, false);
    set_bit(sr, SM, true)
}

// a + b + c, where c is a carry. It overflows if a and b have one sign and the value has the other: two signed
// overflowing_add, of which one alone overflows, would be no plainer.
#[tactic(auto, using(crate::proofs::Sums::adding), unfolding(crate::specs::Sums::sum))]
pub fn add(a: u32, b: u32, c: bool) -> Flagged
    ensures { result ≡ sum a b c }
{
    let (s, first) = a.overflowing_add(b);
    let (value, second) = s.overflowing_add(u32::from(c));
    Flagged {
        value,
        carry: first || second,
        overflow: ((a ^ value) & (b ^ value)) >> 31 == 1,
    }
}

// a - b. It overflows if a and b have two signs and the value has not a's.
#[tactic(auto, using(crate::proofs::Sums::subtracting), unfolding(crate::specs::Sums::difference))]
pub fn sub(a: u32, b: u32) -> Flagged
    ensures { result ≡ difference a b }
{
    let (value, borrow) = a.overflowing_sub(b);
    Flagged {
        value,
        carry: borrow,
        overflow: ((a ^ b) & (a ^ value)) >> 31 == 1,
    }
}

// Address sums wrap.
pub fn address_add(a: u32, b: u32) -> u32
    ensures { result ≡ address_sum a b }
{
    a.wrapping_add(b)
}

#[tactic(auto, using(crate::proofs::Sums::word_sub), unfolding(crate::specs::Sums::address_difference))]
pub fn address_sub(a: u32, b: u32) -> u32
    ensures { result ≡ address_difference a b }
{
    a.wrapping_sub(b)
}

// The compare at place n of the set-flag order: a kind minus the first of its group, as in the definition `holds`, so
// that an enum would need a table from kinds.
#[tactic(auto, using(crate::proofs::Signed::cast_back), unfolding(crate::specs::Compare::holds))]
pub fn compare(n: u8, a: u32, b: u32) -> bool
    ensures { result ≡ holds n a b }
{
    match n {
        0 => a == b, // eq
        1 => a != b, // ne
        2 => b < a, // gtu
        3 => b <= a, // geu
        4 => a < b, // ltu
        5 => a <= b, // leu
        6 => b.cast_signed() < a.cast_signed(), // gts
        7 => b.cast_signed() <= a.cast_signed(), // ges
        8 => a.cast_signed() < b.cast_signed(), // lts
        9 => a.cast_signed() <= b.cast_signed(), // les
        _ => false,
    }
}

// Shifts are by the low five bits of n.
pub fn sll(x: u32, n: u32) -> u32
    ensures { result ≡ shift_left x n }
{
    x << (n % 32)
}

pub fn srl(x: u32, n: u32) -> u32
    ensures { result ≡ shift_right x n }
{
    x >> (n % 32)
}

// The sign comes in at the top.
#[tactic(auto, using(crate::proofs::Signed::shifted), unfolding(crate::specs::Shift::shift_right_signed))]
pub fn sra(x: u32, n: u32) -> u32
    ensures { result ≡ shift_right_signed x n }
{
    (x.cast_signed() >> (n % 32)).cast_unsigned()
}

#[tactic(auto, using(crate::proofs::Shift::ror_or))]
pub fn ror(x: u32, n: u32) -> u32
    ensures { result ≡ rotate_right x n }
{
    x.rotate_right(n)
}

// k in the upper half.
pub fn movhi(k: u32) -> u32
    ensures { result ≡ high_half k }
{
    k << 16
}

// These three, address_add, address_sub and cmov are one operator each: public functions that stand for a definition.
pub fn and(a: u32, b: u32) -> u32
    ensures { result ≡ bit_and a b }
{
    a & b
}

pub fn or(a: u32, b: u32) -> u32
    ensures { result ≡ bit_or a b }
{
    a | b
}

pub fn xor(a: u32, b: u32) -> u32
    ensures { result ≡ bit_xor a b }
{
    a ^ b
}

// a if f, else b.
pub fn cmov(f: bool, a: u32, b: u32) -> u32
    ensures { result ≡ (if f then a else b) }
{
    if f { a } else { b }
}

// The place of the lowest set bit of x, bit 0 being place 1; 0 if there is none.
#[tactic(auto, using(crate::proofs::Place::ff1_zero, crate::proofs::Place::ff1_trailing))]
pub fn ff1(x: u32) -> u32
    ensures { result ≡ least 32 x }
{
    if x == 0 {
        return 0;
    }
    x.trailing_zeros() + 1
}

// The place of the highest set bit of x, likewise.
#[tactic(auto, using(crate::proofs::Place::fl1_leading))]
pub fn fl1(x: u32) -> u32
    ensures { result ≡ greatest 32 x }
{
    32 - x.leading_zeros()
}
