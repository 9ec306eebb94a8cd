// The entries of a schedule where cores are linked.
ghost use Rattle.std.specs.Prelude.{◌≡◌, ◌<◌, [], ◌∷◌};
ghost use Rattle.commit.specs.Commit.{core_count};
ghost use Rattle.refusal.specs.Lent.{lent, lent_by};
ghost use Rattle.steps.specs.Inner.{Runnable};
ghost use Rattle.linked.specs.Inner.{unscheduled, Leads, FollowedIf, AllFollowed, was_shared, Led, Finished};

use crate::follow::Lead;
use crate::{flow, follow, modes};
use effect::state;
use refusal::Plan;
use steps::counts::Counts;

// The core follows if it is linked.
fn follow_if_linked(
    memory: &mut [u8],
    states: &mut [u32],
    core: usize,
    plan: Plan<'_>,
    cache: &mut [u64],
    lead: Lead,
)
    requires runnable { Runnable (unscheduled memory.old states.old plan.limit plan.vectors.now) cache.old }
    requires leads { Leads lead }
    requires core_nonzero { (0 < core) × (core < core_count states.old) }
    ensures { FollowedIf (unscheduled memory.old states.old plan.entry.limit plan.entry.vectors.now) cache.old core lead memory.new states.new cache.new }
{
    if modes::is_linked(states, core) {
        follow::follow(memory, states, core, plan, cache, lead);
    }
}

// Every linked core follows, in rising order.
fn followers(memory: &mut [u8], states: &mut [u32], plan: Plan<'_>, cache: &mut [u64], lead: Lead)
    requires runnable { Runnable (unscheduled memory.old states.old plan.limit plan.vectors.now) cache.old }
    requires leads { Leads lead }
    ensures { AllFollowed (unscheduled memory.old states.old plan.entry.limit plan.entry.vectors.now) cache.old lead memory.new states.new cache.new }
{
    let cores = states.len() / state::STATE_WORDS;
    for core in 1..cores {
        follow_if_linked(memory, states, core, plan, cache, lead);
    }
}

// Whether an entry with these counts is a fetch that core 0 completed.
fn was_shared(core: u8, counts: Counts) -> bool
    ensures { result ≡ was_shared core counts }
{
    core == 0 && counts.executed == 1 && counts.raised == 0
}

// One entry: its own core, then, if the fetch is shared, the linked ones.
fn entry(
    memory: &mut [u8],
    states: &mut [u32],
    core: u8,
    lines: u32,
    plan: Plan<'_>,
    cache: &mut [u64],
) -> Counts
    requires { Runnable (lent memory.old states.old (core ∷ []) (lines ∷ []) plan.limit plan.vectors.now) cache.old }
    ensures { Led (lent memory.old states.old (core ∷ []) (lines ∷ []) plan.entry.limit plan.entry.vectors.now) cache.old (record { core = core; lines = lines }) memory.new states.new cache.new result }
{
    let once = Plan {
        schedule: &[core],
        levels: &[lines],
        ..plan
    };
    // Another core's entry is never shared, and nothing of core 0 is read for it.
    if core != 0 {
        return steps::run(memory, states, once, cache);
    }
    let before = flow::of_core(states, 0);
    let form = decode_cache::peek(memory, cache, before.pc as usize);
    let counts = steps::run(memory, states, once, cache);
    if !was_shared(core, counts) {
        return counts;
    }
    // What core 0 completed lies inside memory, so its form was found.
    let lead = Lead {
        form: form.unwrap(),
        before,
        after: flow::of_core(states, 0),
    };
    followers(memory, states, plan, cache, lead);
    counts
}

// The schedule's entries, in order, each with the linked cores. By index, as the loop of steps.
pub fn entries(memory: &mut [u8], states: &mut [u32], plan: Plan<'_>, cache: &mut [u64]) -> Counts
    requires { Runnable (lent_by memory.old states.old plan) cache.old }
    ensures { Finished (lent_by memory.old states.old plan.entry) cache.old memory.new states.new cache.new result }
{
    let mut counts = Counts::default();
    for i in 0..plan.schedule.len() {
        let more = entry(
            memory,
            states,
            plan.schedule[i],
            plan.levels[i],
            plan,
            cache,
        );
        counts = counts + more;
    }
    counts
}
