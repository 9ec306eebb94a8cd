// From a word to its entry: the kind by the opcode, then the fields that the kind has.
ghost use Rattle.std.specs.Prelude.{◌≡◌, ◌≤◌, ◌<◌, ◌%◌, ◌^◌, eqb, if◌then◌else◌};
ghost use Rattle.isa.specs.Groups.{kinds};
ghost use Rattle.isa.specs.InstructionSet.{decode as decodeOf, immediate};
ghost use Rattle.isa.specs.Register.{Register, Registers};
ghost use Rattle.isa.specs.Inner.{kind_of, kind_in, compare_kind, form_of, gathered, fields_in};

use isa::entry::Fields;
use isa::groups;
use isa::kinds::{Form, Place, Shape};
use isa::register::{number, present};

// Opcode 08, by bits 25-16.
fn system_kind(x: u32) -> u8
    requires { x < 1024 }
    ensures { result ≡ kind_in 0x08 16 x }
{
    match x {
        0x000 => 8, // l.sys
        0x100 => 9, // l.trap
        0x200 => 10, // l.msync
        0x280 => 11, // l.psync
        0x300 => 12, // l.csync
        _ => 1,
    }
}

// Opcode 12, by the register that it names: l.jalr, which may not name r9.
fn jalr_kind(b: u8) -> u8
    requires { Register b }
    ensures { result ≡ kind_in 0x12 11 b }
{
    if b == 9 { 1 } else { 15 }
}

// Opcode 2e, by bits 7-6.
fn shift_kind(x: u32) -> u8
    requires { x < 4 }
    ensures { result ≡ kind_in 0x2e 6 x }
{
    29 + (x as u8) // l.slli, srli, srai, rori
}

// The compares, by bits 25-21: the group's kinds begin at `first`.
#[tactic(auto, unfolding(isa::specs::Inner::compare_kind))]
fn compare_kind(first: u8, x: u32) -> u8
    requires { first < kinds }
    ensures { result ≡ compare_kind first x }
{
    match x {
        0..=5 => first + (x as u8), // eq, ne, gtu, geu, ltu, leu
        10..=13 => first + (x as u8) - 4, // gts, ges, lts, les
        _ => 1,
    }
}

// Opcode 31, by bits 3-0.
fn accumulate_kind(x: u32) -> u8
    requires { x < 16 }
    ensures { result ≡ kind_in 0x31 0 x }
{
    match x {
        1 => 86, // l.mac
        2 => 87, // l.msb
        _ => 1,
    }
}

// Opcode 38 with bits 9-8 = 3, by bits 9-0, of which 3-0 count.
fn product_kind(x: u32) -> u8
    requires { (768 ≤ x) × (x < 1024) }
    ensures { result ≡ kind_in 0x38 0 x }
{
    match x % 16 {
        6 => 80, // l.mul
        9 => 83, // l.div
        10 => 84, // l.divu
        11 => 82, // l.mulu
        _ => 1,
    }
}

// Opcode 38, by bits 9-0, of which 9-6 and 3-0 count.
fn register_kind(x: u32) -> u8
    requires { x < 1024 }
    ensures { result ≡ kind_in 0x38 0 x }
{
    let high = (x / 64) as u8;
    let low = (x % 16) as u8;
    if 12 <= high {
        return product_kind(x);
    }
    if 8 <= high {
        return 1;
    }
    if 4 <= high {
        return if low == 15 { 66 } else { 1 }; // l.fl1
    }
    match low {
        0..=5 => 48 + low, // l.add, addc, sub, and, or, xor
        8 => 54 + high, // l.sll, srl, sra, ror
        12 => 58 + high, // l.exths, extbs, exthz, extbz
        13 => if high < 2 { 62 + high } else { 1 }, // l.extws, extwz
        14 => 64, // l.cmov
        15 => 65, // l.ff1
        _ => 1,
    }
}

// Opcode 3e, by bits 12-11.
fn cache_kind(x: u32) -> u8
    requires { x < 4 }
    ensures { result ≡ kind_in 0x3e 11 x }
{
    if x == 0 { 1 } else { 76 + (x as u8) } // p.cinvalidate, cwriteback, cflush
}

// The kind of a word: its top six bits choose the row.
fn kind_of(w: u32) -> u8
    ensures { (result ≡ kind_of w) × (result < kinds) }
{
    let opcode = w / 0x400_0000;
    match opcode {
        0x00 => 2, // l.j
        0x01 => 3, // l.jal
        0x03 => 4, // l.bnf
        0x04 => 5, // l.bf
        0x05 => if w / 0x100_0000 % 4 == 1 { 6 } else { 1 }, // l.nop
        0x06 => if w / 0x1_0000 % 2 == 0 { 7 } else { 88 }, // l.movhi, macrc
        0x08 => system_kind(w / 0x1_0000 % 1024),
        0x09 => 13, // l.rfe
        0x11 => 14, // l.jr
        0x12 => jalr_kind(number(w / 0x800)),
        0x13 => 85, // l.maci
        0x1b => 16, // l.lwa
        0x21..=0x26 => (opcode as u8) - 16, // l.lwz, lws, lbz, lbs, lhz, lhs
        0x27..=0x2b => (opcode as u8) - 16, // l.addi, addic, andi, ori, xori
        0x2c => 81, // l.muli
        0x2d => 28, // l.mfspr
        0x2e => shift_kind(w / 64 % 4),
        0x2f => compare_kind(groups::COMPARE_IMMEDIATE, w / 0x20_0000 % 32),
        0x30 => 43, // l.mtspr
        0x31 => accumulate_kind(w % 16),
        0x33 => 44, // l.swa
        0x35..=0x37 => (opcode as u8) - 8, // l.sw, sb, sh
        0x38 => register_kind(w % 1024),
        0x39 => compare_kind(groups::COMPARE, w / 0x20_0000 % 32),
        0x3e => cache_kind(w / 0x800 % 4),
        _ => 1,
    }
}

// The bits of the immediate, gathered from its place.
fn immediate_bits(place: Place, w: u32) -> u32
    ensures { (result ≡ gathered place w) × (result < 2 ^ 26) }
{
    match place {
        Place::None => 0,
        Place::Low5 => w % 32,
        Place::Low16 => w % 0x1_0000,
        Place::Low26 => w % 0x400_0000,
        Place::Split => w / 0x20_0000 % 32 * 2048 + w % 2048,
    }
}

// The immediate as execution uses it.
#[tactic(auto, using(isa::proofs::Immediates::jump_extend), unfolding(isa::specs::InstructionSet::immediate))]
fn extended(form: Form, n: u32) -> u32
    requires { n < 2 ^ 26 }
    ensures { result ≡ immediate (form_of form) n }
{
    match form {
        Form::Zext => n,
        Form::Sext => bits::sign_extend(n, 16),
        Form::Jump => bits::sign_extend(n * 4, 28),
    }
}

// The fields that a word has by its kind.
fn fields(shape: Shape, w: u32) -> Fields
    ensures { (result ≡ fields_in shape w) × Registers result }
{
    Fields {
        d: present(shape.d, number(w / 0x20_0000)),
        a: present(shape.a, number(w / 0x1_0000)),
        b: present(shape.b, number(w / 0x800)),
        immediate: extended(shape.form, immediate_bits(shape.place, w)),
    }
}

pub fn decode(w: u32) -> u64
    ensures { result ≡ decodeOf w }
{
    let k = kind_of(w);
    let (_, shape) = isa::kinds::parts_of(k);
    isa::entry::pack(k, fields(shape, w))
}
