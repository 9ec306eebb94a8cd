// What a core executes next.
ghost use Rattle.std.specs.Prelude.{Bool, ◌≡◌, ◌%◌, ◌^◌, ◌<◌, ◌&&◌, eqb};
ghost use Rattle.std.specs.Option.{is_some};
ghost use Rattle.effect.specs.Board.{Board};
ghost use Rattle.effect.specs.State.{linked};
ghost use Rattle.decode_cache.specs.Inner.{Backed};
ghost use Rattle.steps.specs.Inner.{Taken};

use decode_cache::Fetched;
use effect::state;

// Whether a core in this mode executes what is given: it is linked, and something is.
pub fn is_given(mode: u32, given: Option<u64>) -> bool
    ensures { result ≡ (eqb mode linked && is_some given) }
{
    mode == state::LINKED && given.is_some()
}

// A form that is given, or else the one that is fetched.
pub fn next(memory: &[u8], cache: &mut [u64], pc: usize, given: Option<u64>) -> Option<Fetched>
    requires backed { Backed cache.old memory.now }
    requires word_address { (pc % 4 ≡ 0) × (pc < 2 ^ 32) }
    ensures { (board : Board) → Taken board memory.now cache.old pc given result cache.new }
{
    match given {
        Some(entry) => Some(Fetched {
            entry,
            reused: false,
        }),
        None => decode_cache::fetch(memory, cache, pc),
    }
}
