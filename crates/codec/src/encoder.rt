// From an entry to a word that decodes to it, if there is one.
ghost use Rattle.std.specs.Prelude.{◌≡◌, ◌<◌, ◌^◌};
ghost use Rattle.isa.specs.InstructionSet.{immediate_bits, candidate};
ghost use Rattle.isa.specs.Register.{Registers};
ghost use Rattle.isa.specs.Inner.{form_of, scattered, bits_of};
ghost use Rattle.codec.specs.Encoding.{Encodes};

use isa::entry::Fields;
use isa::groups;
use isa::kinds::{Form, Place, Shape};
use isa::register::present;

// The bits of the field that an immediate comes from.
#[tactic(auto, unfolding(isa::specs::InstructionSet::immediate_bits))]
fn field_bits(form: Form, n: u32) -> u32
    ensures { result ≡ immediate_bits (form_of form) n }
{
    match form {
        Form::Zext | Form::Sext => n,
        Form::Jump => n / 4,
    }
}

// The immediate's bits, scattered to its place in the word.
fn placed(place: Place, n: u32) -> u32
    ensures { (result ≡ scattered place n) × (result < 2 ^ 26) }
{
    match place {
        Place::None => 0,
        Place::Low5 => n % 32,
        Place::Low16 => n % 0x1_0000,
        Place::Low26 => n % 0x400_0000,
        Place::Split => n / 2048 % 32 * 0x20_0000 + n % 2048,
    }
}

// The bits that these fields take in a word of that shape.
fn field_word(shape: Shape, f: Fields) -> u32
    requires { Registers f }
    ensures { result ≡ bits_of shape f }
{
    (present(shape.d, f.d) as u32) * 0x20_0000
        + (present(shape.a, f.a) as u32) * 0x1_0000
        + (present(shape.b, f.b) as u32) * 0x800
        + placed(shape.place, field_bits(shape.form, f.immediate))
}

// The word, if it decodes to the entry.
fn checked(e: u64, w: u32) -> Option<u32>
    requires { w ≡ candidate e }
    ensures { Encodes e result }
{
    (crate::decoder::decode(w) == e).then_some(w)
}

// None, where no 32-bit word decodes to the entry, is refusal 8.
pub fn encode(e: u64) -> Option<u32>
    ensures { Encodes e result }
{
    let k = (e / 0x100_0000_0000_0000) as u8;
    if groups::KINDS <= k as usize {
        return None;
    }
    let (word, shape) = isa::kinds::parts_of(k);
    let fields = field_word(shape, isa::entry::unpack(e));
    checked(e, word + fields)
}
