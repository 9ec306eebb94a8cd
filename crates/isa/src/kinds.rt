// What a word of each kind is made of: the constant tables that the decoder and the encoder read.
ghost use Rattle.std.specs.Prelude.{◌≡◌, ◌<◌};
ghost use Rattle.isa.specs.Groups.{kinds};
ghost use Rattle.isa.specs.InstructionSet.{kind_row, word_for};
ghost use Rattle.isa.specs.Inner.{shape_in};

use crate::groups::KINDS;

// Where a word has its immediate.
#[derive(Clone, Copy)]
pub enum Place {
    None,
    Low5,
    Low16,
    Low26,
    // Bits 25-21, then bits 10-0.
    Split,
}

// How an entry keeps the immediate: zero-extended, sign-extended from 16 bits, or 4 times its signed 26 bits.
#[derive(Clone, Copy)]
pub enum Form {
    Zext,
    Sext,
    Jump,
}

// Which registers a word has, and its immediate.
#[derive(Clone, Copy)]
pub struct Shape {
    pub d: bool,
    pub a: bool,
    pub b: bool,
    pub place: Place,
    pub form: Form,
}

// The shapes that kinds have, by their registers and their immediate: 16 bits zero-extended (LOW), sign-extended
// (SIGNED) or in two parts (SPLIT), 5 bits, or the 26 of a jump (TARGET).
const NOTHING: Shape = Shape {
    d: false,
    a: false,
    b: false,
    place: Place::None,
    form: Form::Zext,
};

const TARGET: Shape = Shape {
    place: Place::Low26,
    form: Form::Jump,
    ..NOTHING
};

const LOW: Shape = Shape {
    place: Place::Low16,
    ..NOTHING
};

const D_LOW: Shape = Shape {
    d: true,
    place: Place::Low16,
    ..NOTHING
};

const B: Shape = Shape { b: true, ..NOTHING };

const D_A_SIGNED: Shape = Shape {
    d: true,
    a: true,
    place: Place::Low16,
    form: Form::Sext,
    ..NOTHING
};

const D_A_LOW: Shape = Shape {
    d: true,
    a: true,
    place: Place::Low16,
    ..NOTHING
};

const D_A_LOW5: Shape = Shape {
    d: true,
    a: true,
    place: Place::Low5,
    ..NOTHING
};

const A_SIGNED: Shape = Shape {
    a: true,
    place: Place::Low16,
    form: Form::Sext,
    ..NOTHING
};

const A_B_SPLIT: Shape = Shape {
    a: true,
    b: true,
    place: Place::Split,
    ..NOTHING
};

const A_B_SPLIT_SIGNED: Shape = Shape {
    a: true,
    b: true,
    place: Place::Split,
    form: Form::Sext,
    ..NOTHING
};

const D_A_B: Shape = Shape {
    d: true,
    a: true,
    b: true,
    ..NOTHING
};

const D_A: Shape = Shape {
    d: true,
    a: true,
    ..NOTHING
};

const A_B: Shape = Shape {
    a: true,
    b: true,
    ..NOTHING
};

const A_SPLIT_SIGNED: Shape = Shape {
    a: true,
    place: Place::Split,
    form: Form::Sext,
    ..NOTHING
};

const D: Shape = Shape { d: true, ..NOTHING };

// By kind, the word with every field 0, and its shape. 0, which is no kind, stands as kind 1 does.
// A static, since a constant array of structs is laid on the stack at each call.
static PARTS: [(u32, Shape); KINDS] = [
    (0xfc000000, NOTHING), // 0: no kind
    (0xfc000000, NOTHING), // 1 illegal
    (0x00000000, TARGET), // 2 l.j
    (0x04000000, TARGET), // 3 l.jal
    (0x0c000000, TARGET), // 4 l.bnf
    (0x10000000, TARGET), // 5 l.bf
    (0x15000000, LOW), // 6 l.nop
    (0x18000000, D_LOW), // 7 l.movhi
    (0x20000000, LOW), // 8 l.sys
    (0x21000000, LOW), // 9 l.trap
    (0x22000000, NOTHING), // 10 l.msync
    (0x22800000, NOTHING), // 11 l.psync
    (0x23000000, NOTHING), // 12 l.csync
    (0x24000000, NOTHING), // 13 l.rfe
    (0x44000000, B), // 14 l.jr
    (0x48000000, B), // 15 l.jalr
    (0x6c000000, D_A_SIGNED), // 16 l.lwa
    (0x84000000, D_A_SIGNED), // 17 l.lwz
    (0x88000000, D_A_SIGNED), // 18 l.lws
    (0x8c000000, D_A_SIGNED), // 19 l.lbz
    (0x90000000, D_A_SIGNED), // 20 l.lbs
    (0x94000000, D_A_SIGNED), // 21 l.lhz
    (0x98000000, D_A_SIGNED), // 22 l.lhs
    (0x9c000000, D_A_SIGNED), // 23 l.addi
    (0xa0000000, D_A_SIGNED), // 24 l.addic
    (0xa4000000, D_A_LOW), // 25 l.andi
    (0xa8000000, D_A_LOW), // 26 l.ori
    (0xac000000, D_A_SIGNED), // 27 l.xori
    (0xb4000000, D_A_LOW), // 28 l.mfspr
    (0xb8000000, D_A_LOW5), // 29 l.slli
    (0xb8000040, D_A_LOW5), // 30 l.srli
    (0xb8000080, D_A_LOW5), // 31 l.srai
    (0xb80000c0, D_A_LOW5), // 32 l.rori
    (0xbc000000, A_SIGNED), // 33 l.sfeqi
    (0xbc200000, A_SIGNED), // 34 l.sfnei
    (0xbc400000, A_SIGNED), // 35 l.sfgtui
    (0xbc600000, A_SIGNED), // 36 l.sfgeui
    (0xbc800000, A_SIGNED), // 37 l.sfltui
    (0xbca00000, A_SIGNED), // 38 l.sfleui
    (0xbd400000, A_SIGNED), // 39 l.sfgtsi
    (0xbd600000, A_SIGNED), // 40 l.sfgesi
    (0xbd800000, A_SIGNED), // 41 l.sfltsi
    (0xbda00000, A_SIGNED), // 42 l.sflesi
    (0xc0000000, A_B_SPLIT), // 43 l.mtspr
    (0xcc000000, A_B_SPLIT_SIGNED), // 44 l.swa
    (0xd4000000, A_B_SPLIT_SIGNED), // 45 l.sw
    (0xd8000000, A_B_SPLIT_SIGNED), // 46 l.sb
    (0xdc000000, A_B_SPLIT_SIGNED), // 47 l.sh
    (0xe0000000, D_A_B), // 48 l.add
    (0xe0000001, D_A_B), // 49 l.addc
    (0xe0000002, D_A_B), // 50 l.sub
    (0xe0000003, D_A_B), // 51 l.and
    (0xe0000004, D_A_B), // 52 l.or
    (0xe0000005, D_A_B), // 53 l.xor
    (0xe0000008, D_A_B), // 54 l.sll
    (0xe0000048, D_A_B), // 55 l.srl
    (0xe0000088, D_A_B), // 56 l.sra
    (0xe00000c8, D_A_B), // 57 l.ror
    (0xe000000c, D_A), // 58 l.exths
    (0xe000004c, D_A), // 59 l.extbs
    (0xe000008c, D_A), // 60 l.exthz
    (0xe00000cc, D_A), // 61 l.extbz
    (0xe000000d, D_A), // 62 l.extws
    (0xe000004d, D_A), // 63 l.extwz
    (0xe000000e, D_A_B), // 64 l.cmov
    (0xe000000f, D_A), // 65 l.ff1
    (0xe000010f, D_A), // 66 l.fl1
    (0xe4000000, A_B), // 67 l.sfeq
    (0xe4200000, A_B), // 68 l.sfne
    (0xe4400000, A_B), // 69 l.sfgtu
    (0xe4600000, A_B), // 70 l.sfgeu
    (0xe4800000, A_B), // 71 l.sfltu
    (0xe4a00000, A_B), // 72 l.sfleu
    (0xe5400000, A_B), // 73 l.sfgts
    (0xe5600000, A_B), // 74 l.sfges
    (0xe5800000, A_B), // 75 l.sflts
    (0xe5a00000, A_B), // 76 l.sfles
    (0xf8000800, A_SPLIT_SIGNED), // 77 p.cinvalidate
    (0xf8001000, A_SPLIT_SIGNED), // 78 p.cwriteback
    (0xf8001800, A_SPLIT_SIGNED), // 79 p.cflush
    (0xe0000306, D_A_B), // 80 l.mul
    (0xb0000000, D_A_SIGNED), // 81 l.muli
    (0xe000030b, D_A_B), // 82 l.mulu
    (0xe0000309, D_A_B), // 83 l.div
    (0xe000030a, D_A_B), // 84 l.divu
    (0x4c000000, A_SIGNED), // 85 l.maci
    (0xc4000001, A_B), // 86 l.mac
    (0xc4000002, A_B), // 87 l.msb
    (0x18010000, D), // 88 l.macrc
];

// The word of kind k with every field 0, and its shape.
pub fn parts_of(k: u8) -> (u32, Shape)
    requires { k < kinds }
    ensures { (result.0 ≡ word_for (kind_row k) 0) × (result.1 ≡ shape_in (kind_row k)) }
{
    PARTS[k as usize]
}
