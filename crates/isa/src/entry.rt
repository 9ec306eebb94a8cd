// The fields of an instruction, and the 64-bit entry that holds them.
ghost use Rattle.std.specs.Prelude.{◌≡◌};
ghost use Rattle.isa.specs.Entry.{fields_of};
ghost use Rattle.isa.specs.Register.{Registers};
ghost use Rattle.isa.specs.Inner.{packed};

// That each register is below 32 stands in contracts and not in a ghost field: the papers' definitions build Fields too
// (`fields_of`, `no_fields`), and each would carry its proof.
#[derive(Clone, Copy)]
pub struct Fields {
    pub d: u8,
    pub a: u8,
    pub b: u8,
    pub immediate: u32,
}

// The entry of kind k with these fields. Functions and no From: an entry holds a kind beside the fields, and pack asks
// for registers.
pub fn pack(k: u8, f: Fields) -> u64
    requires { Registers f }
    ensures { result ≡ packed k f }
{
    (k as u64) * 0x100_0000_0000_0000
        + (f.d as u64) * 0x400_0000_0000
        + (f.a as u64) * 0x20_0000_0000
        + (f.b as u64) * 0x1_0000_0000
        + (f.immediate as u64)
}

// The fields that an entry holds.
pub fn unpack(e: u64) -> Fields
    ensures { (result ≡ fields_of e) × Registers result }
{
    Fields {
        d: (e / 0x400_0000_0000 % 32) as u8,
        a: (e / 0x20_0000_0000 % 32) as u8,
        b: (e / 0x1_0000_0000 % 32) as u8,
        immediate: (e % 0x1_0000_0000) as u32,
    }
}
