// A core's state (document 01's sheet): 32 registers, then these places. Places and modes are numbers, since the words
// of a state are the C interface's.
ghost use Rattle.std.specs.Prelude.{◌≡◌, ◌+◌, ◌*◌, ◌≤◌, length};
ghost use Rattle.effect.specs.State.{state_words, own_words};

pub const STATE_WORDS: usize = 46;

pub const PC: usize = 32;

pub const DELAY: usize = 33;

pub const TARGET: usize = 34;

pub const SR: usize = 35;

pub const EPCR: usize = 36;

pub const EEAR: usize = 37;

pub const ESR: usize = 38;

pub const LINK: usize = 39;

pub const LINK_ADDRESS: usize = 40;

pub const MODE: usize = 41;

pub const MACHI: usize = 42;

pub const MACLO: usize = 43;

pub const PICMR: usize = 44;

pub const PICSR: usize = 45;

// The modes.
pub const HALTED: u32 = 0;

pub const LINKED: u32 = 1;

pub const RUNNING: u32 = 3;

// A core's own words among those of all. By two splits the compiler knows the length, and no test of it is left. There
// is no own_mut: the kit proves no lend of a part that starts at an index (tried a range, two splits, and a split and
// first_chunk_mut in one expression). So what writes goes by index, or splits where it stands. That a core's words lie
// in the states is a fact of a number and a slice together, so each contract says it.
pub fn own(states: &[u32], core: usize) -> &[u32; STATE_WORDS]
    requires { core * state_words + state_words ≤ length states.now }
    ensures { result.now ≡ own_words states.now core }
{
    let (_, rest) = states.split_at(core * STATE_WORDS);
    let (part, _) = rest.split_at(STATE_WORDS);
    part.as_array().unwrap()
}
