// A store clears every core's link to the word that it touches.
ghost use Rattle.std.specs.Prelude.{◌≡◌, ◌+◌, ◌*◌, ◌≤◌, length};
ghost use Rattle.effect.specs.State.{state_words};
ghost use Rattle.commit.specs.Commit.{clear_link, clear_links, core_count};

use effect::state;

// One core's link, if it is to the word at w. By index, since it writes: state::own only reads, so the words would be
// named in two ways.
#[tactic(auto, unfolding(crate::specs::Commit::clear_link))]
fn clear_link(states: &mut [u32], core: usize, w: u32)
    requires { core * state_words + state_words ≤ length states.old }
    ensures { states.new ≡ clear_link states.old core w }
{
    let base = core * state::STATE_WORDS;
    if states[base + state::LINK] == 1 && states[base + state::LINK_ADDRESS] == w {
        states[base + state::LINK] = 0;
        states[base + state::LINK_ADDRESS] = 0;
    }
}

// Every core's link to the word at w.
#[tactic(auto, unfolding(crate::specs::Commit::clear_links))]
pub fn clear_links(states: &mut [u32], w: u32)
    ensures { states.new ≡ clear_links (core_count states.old) states.old w }
{
    for core in 0..states.len() / state::STATE_WORDS {
        clear_link(states, core, w);
    }
}
