// A core's PC, delay and target. Functions and no methods, since Flow is the crate effect's and the states are lent as
// a slice.
ghost use Rattle.std.specs.Prelude.{◌≡◌, ◌+◌, ◌*◌, ◌≤◌, length};
ghost use Rattle.effect.specs.State.{state_words};
ghost use Rattle.linked.specs.Linked.{flow_at, with_flow};

use effect::state;
use effect::types::Flow;

#[tactic(auto, using(commit::proofs::Own::own_word_at))]
pub fn of_core(states: &[u32], core: usize) -> Flow
    requires { core * state_words + state_words ≤ length states.now }
    ensures { result ≡ flow_at states.now core }
{
    let own = state::own(states, core);
    Flow {
        pc: own[state::PC],
        delay: own[state::DELAY],
        target: own[state::TARGET],
    }
}

#[tactic(auto, unfolding(crate::specs::Linked::with_flow))]
pub fn put(states: &mut [u32], core: usize, flow: Flow)
    requires { core * state_words + state_words ≤ length states.old }
    ensures { states.new ≡ with_flow states.old core flow }
{
    let base = core * state::STATE_WORDS;
    states[base + state::PC] = flow.pc;
    states[base + state::DELAY] = flow.delay;
    states[base + state::TARGET] = flow.target;
}
