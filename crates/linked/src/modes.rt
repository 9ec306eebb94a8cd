// Which cores are linked.
ghost use Rattle.std.specs.Prelude.{◌≡◌, ◌+◌, ◌*◌, ◌≤◌, length};
ghost use Rattle.effect.specs.State.{state_words, mode_at, halted};
ghost use Rattle.commit.specs.Commit.{put};
ghost use Rattle.linked.specs.Linked.{is_linked};
ghost use Rattle.linked.specs.Inner.{any_linked, relinked};

use effect::state;

#[tactic(auto, using(commit::proofs::Own::own_word_at))]
pub fn is_linked(states: &[u32], core: usize) -> bool
    requires { core * state_words + state_words ≤ length states.now }
    ensures { result ≡ is_linked states.now core }
{
    state::own(states, core)[state::MODE] == state::LINKED
}

#[tactic(auto, unfolding(crate::specs::Inner::any_linked))]
pub fn any_linked(states: &[u32]) -> bool
    ensures { result ≡ any_linked states.now }
{
    let cores = states.len() / state::STATE_WORDS;
    (0..cores).any(|core| is_linked(states, core))
}

// An instruction leaves its core halted or running: one that runs is linked again.
pub fn relink(states: &mut [u32], core: usize)
    requires { core * state_words + state_words ≤ length states.old }
    ensures { states.new ≡ relinked states.old core }
{
    let at = core * state::STATE_WORDS + state::MODE;
    if states[at] != state::HALTED {
        states[at] = state::LINKED;
    }
}

pub fn halt(states: &mut [u32], core: usize)
    requires { core * state_words + state_words ≤ length states.old }
    ensures { states.new ≡ put states.old core mode_at halted }
{
    states[core * state::STATE_WORDS + state::MODE] = state::HALTED;
}
