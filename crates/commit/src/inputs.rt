// What an instruction reads of its core's state.
ghost use Rattle.std.specs.Prelude.{◌≡◌};
ghost use Rattle.isa.specs.Register.{Register, Registers};
ghost use Rattle.commit.specs.Commit.{no_fields};
ghost use Rattle.commit.specs.Inner.{own_word, own_inputs, entry_inputs};

use effect::state;
use effect::types::{Flow, Inputs, Link};
use isa::entry::Fields;
use product::Accumulator;

// The value of a register.
fn register(own: &[u32; state::STATE_WORDS], n: u8) -> u32
    requires { Register n }
    ensures { result ≡ own_word own.now n }
{
    own[n as usize]
}

// What an instruction with the fields f reads of its core's own state.
fn inputs_of(own: &[u32; state::STATE_WORDS], core: u8, f: Fields) -> Inputs
    requires { Registers f }
    ensures { result ≡ own_inputs own.now core f }
{
    Inputs {
        core: core as u32,
        d: f.d as u32, // from here on a place of the state
        a: register(own, f.a),
        b: register(own, f.b),
        immediate: f.immediate,
        flow: Flow {
            pc: own[state::PC],
            delay: own[state::DELAY],
            target: own[state::TARGET],
        },
        sr: own[state::SR],
        epcr: own[state::EPCR],
        eear: own[state::EEAR],
        esr: own[state::ESR],
        link: Link {
            held: own[state::LINK],
            address: own[state::LINK_ADDRESS],
        },
        accumulator: Accumulator {
            high: own[state::MACHI],
            low: own[state::MACLO],
        },
        picmr: own[state::PICMR],
        picsr: own[state::PICSR],
    }
}

// The same for the instruction of an entry.
#[tactic(auto, unfolding(crate::specs::Inner::entry_inputs))]
pub fn inputs_at(own: &[u32; state::STATE_WORDS], core: u8, entry: u64) -> Inputs
    ensures { result ≡ entry_inputs own.now core entry }
{
    inputs_of(own, core, isa::entry::unpack(entry))
}

// What a core's state says by itself: the inputs of an instruction that has no fields.
pub fn state_at(own: &[u32; state::STATE_WORDS], core: u8) -> Inputs
    ensures { result ≡ own_inputs own.now core no_fields }
{
    inputs_of(own, core, no_fields())
}

fn no_fields() -> Fields
    ensures { (result ≡ no_fields) × Registers result }
{
    Fields {
        d: 0,
        a: 0,
        b: 0,
        immediate: 0,
    }
}
