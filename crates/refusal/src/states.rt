// The rules on the states.
ghost use Rattle.std.specs.Prelude.{◌≡◌, ℕ, ◌+◌, ◌*◌, ◌≤◌, length, drop};
ghost use Rattle.effect.specs.State.{state_words, is_mode, all, rules};
ghost use Rattle.effect.specs.Board.{Board};
ghost use Rattle.commit.specs.Inner.{own_word};
ghost use Rattle.lawful.specs.Accepted.{accepted};
ghost use Rattle.refusal.specs.Refusal.{states_obey};
ghost use Rattle.refusal.specs.Inner.{unset_is_zero};

use effect::state;
use effect::state::STATE_WORDS;

// A target without delay, and a link address without link, are 0.
fn unset_is_zero(flag: u32, value: u32) -> bool
    ensures { result ≡ unset_is_zero flag value }
{
    flag != 0 || value == 0
}

// A core is halted or running; or linked, if it is not core 0.
fn is_mode(core: usize, mode: u32) -> bool
    ensures { result ≡ is_mode core mode }
{
    mode == state::HALTED || mode == state::RUNNING || mode == state::LINKED && 0 < core
}

// The rules on SR, ESR and PICMR, the last three.
fn status_obeys(own: &[u32; STATE_WORDS]) -> bool
    ensures { (board : Board) (core : ℕ) → result ≡ all (drop 10 (rules board core (own_word own.now))) }
{
    arith::keep_allowed(own[state::SR]) == own[state::SR]
        && arith::keep_allowed(own[state::ESR]) == own[state::ESR]
        && own[state::PICMR] % 4 == 3
}

// These, and the rules on addresses.
fn addresses_obey(own: &[u32; STATE_WORDS]) -> bool
    ensures { (board : Board) (core : ℕ) → result ≡ all (drop 4 (rules board core (own_word own.now))) }
{
    own[state::PC].is_multiple_of(4)
        && own[state::TARGET].is_multiple_of(4)
        && own[state::EPCR].is_multiple_of(4)
        && own[state::LINK_ADDRESS].is_multiple_of(4)
        && unset_is_zero(own[state::DELAY], own[state::TARGET])
        && unset_is_zero(own[state::LINK], own[state::LINK_ADDRESS])
        && status_obeys(own)
}

// All the rules on a state.
fn state_obeys(own: &[u32; STATE_WORDS], core: usize) -> bool
    ensures { (board : Board) → result ≡ all (rules board core (own_word own.now)) }
{
    own[state::DELAY] <= 1
        && own[state::LINK] <= 1
        && is_mode(core, own[state::MODE])
        && own[0] == 0
        && addresses_obey(own)
}

fn state_accepted(states: &[u32], core: usize) -> bool
    requires { core * state_words + state_words ≤ length states.now }
    ensures { (board : Board) → result ≡ accepted board states.now core }
{
    state_obeys(state::own(states, core), core)
}

// Not by `all` over the range: tried, and the law from std's list_all to `every_below` did not close.
pub fn states_accepted(states: &[u32]) -> bool
    ensures { (board : Board) → result ≡ states_obey board states.now }
{
    for core in 0..states.len() / STATE_WORDS {
        if !state_accepted(states, core) {
            return false;
        }
    }
    true
}
