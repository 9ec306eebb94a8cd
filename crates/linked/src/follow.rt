// A linked core does what core 0 did.
ghost use Rattle.std.specs.Prelude.{◌≡◌, ◌+◌, ◌*◌, ◌≤◌, false, length};
ghost use Rattle.arith.specs.Sums.{address_sum};
ghost use Rattle.effect.specs.State.{state_words};
ghost use Rattle.commit.specs.Commit.{put};
ghost use Rattle.linked.specs.Linked.{with_flow, lead_kind};
ghost use Rattle.linked.specs.Inner.{unscheduled, reads_nothing, Follows, Followed};

use crate::{flow, modes};
use effect::state;
use effect::types::Flow;
use refusal::Plan;

// What core 0 hands to the linked cores: the form that it fetched and completed, and its flow before and after.
#[derive(Clone, Copy)]
pub struct Lead {
    pub form: u64,
    pub before: Flow,
    pub after: Flow,
}

// Copies the words of one part over those of another. By a loop, since copy_from_slice is a call of memcpy, which C's
// archive would need from outside.
fn copy(from: &[u32], to: &mut [u32])
    requires { length from.now ≡ length to.old }
    ensures { to.new ≡ from.now }
{
    for i in 0..from.len() {
        to[i] = from[i];
    }
}

// An instruction on the core's own registers, with core 0's flow lent. If it raises, the core has its words back and is
// halted.
#[tactic(auto, using(commit::proofs::Own::own_length))]
fn execute(
    memory: &mut [u8],
    states: &mut [u32],
    core: usize,
    plan: Plan<'_>,
    cache: &mut [u64],
    lead: Lead,
)
    requires follows { Follows (unscheduled memory.old states.old plan.limit plan.vectors.now) cache.old core lead }
    requires reads_state { reads_nothing (lead_kind lead) ≡ false }
    ensures { Followed (unscheduled memory.old states.old plan.entry.limit plan.entry.vectors.now) cache.old core lead memory.new states.new cache.new }
{
    let base = core * state::STATE_WORDS;
    let end = base + state::STATE_WORDS;
    let mut own = [0; state::STATE_WORDS];
    copy(&states[base..end], &mut own);
    flow::put(states, core, lead.before);
    if steps::execute_form(memory, states, core as u8, plan, cache, lead.form) {
        flow::put(states, core, lead.after);
        modes::relink(states, core);
        return;
    }
    copy(&own, &mut states[base..end]);
    modes::halt(states, core);
}

// Where l.jal and l.jalr put their link value.
const LINK_REGISTER: usize = 9;

// l.jalr: r9 gets core 0's link value.
fn call(states: &mut [u32], core: usize, lead: Lead)
    requires { core * state_words + state_words ≤ length states.old }
    ensures { states.new ≡ with_flow (put states.old core 9 (address_sum lead.before.pc 8)) core lead.after }
{
    states[core * state::STATE_WORDS + LINK_REGISTER] = lead.before.pc.wrapping_add(8);
    flow::put(states, core, lead.after);
}

// A linked core does what core 0 did. At l.rfe, l.jr and l.jalr it goes where core 0 goes, and nothing of its own is
// read.
pub fn follow(
    memory: &mut [u8],
    states: &mut [u32],
    core: usize,
    plan: Plan<'_>,
    cache: &mut [u64],
    lead: Lead,
)
    requires { Follows (unscheduled memory.old states.old plan.limit plan.vectors.now) cache.old core lead }
    ensures { Followed (unscheduled memory.old states.old plan.entry.limit plan.entry.vectors.now) cache.old core lead memory.new states.new cache.new }
{
    // By kind, as `lead_kind` has it: l.rfe, l.jr, l.jalr, and the others.
    match (lead.form / 0x100_0000_0000_0000) as u8 {
        13 => flow::put(states, core, lead.after),
        14 => flow::put(states, core, lead.after),
        15 => call(states, core, lead),
        _ => execute(memory, states, core, plan, cache, lead),
    }
}
