#![tactic(auto)]
// Runs with linked cores: what core 0 fetches and completes, they execute too.
ghost use Rattle.refusal.specs.Lent.{lent_by};
ghost use Rattle.steps.specs.Inner.{Runnable};
ghost use Rattle.linked.specs.Inner.{Finished};

use refusal::Plan;
use steps::counts::Counts;

pub mod flow;
pub mod follow;
pub mod led;
pub mod modes;

// The schedule's entries, in order. Without linked cores, which no run gains, each is its own core's alone.
pub fn run(memory: &mut [u8], states: &mut [u32], plan: Plan<'_>, cache: &mut [u64]) -> Counts
    requires { Runnable (lent_by memory.old states.old plan) cache.old }
    ensures { Finished (lent_by memory.old states.old plan.entry) cache.old memory.new states.new cache.new result }
{
    if modes::any_linked(states) {
        return led::entries(memory, states, plan, cache);
    }
    steps::run(memory, states, plan, cache)
}
