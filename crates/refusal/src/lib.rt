#![tactic(auto)]
// What a run is lent is tested before it runs, in the order of the documents' refusals.
ghost use Rattle.std.specs.Prelude.{◌≡◌};
ghost use Rattle.effect.specs.Board.{Board};
ghost use Rattle.refusal.specs.Lent.{lent_by};
ghost use Rattle.refusal.specs.Refusal.{memory_fits, states_fit, limit_fits, cache_rules, first_broken, plain_refusal, fast_refusal, verdict_number};

use crate::cause::Refusal;
use effect::state;

pub mod cache;
pub mod cause;
pub mod schedule;
pub mod states;

// What a run only reads of what it is lent: for each entry a core and the levels of the lines; the limit below which
// memory is read-only; the list of vectors. Memory, states and cache stay beside it: a struct with `&mut` would be lent
// anew at each call.
#[derive(Clone, Copy)]
pub struct Plan<'a> {
    pub schedule: &'a [u8],
    pub levels: &'a [u32],
    pub limit: u32,
    pub vectors: &'a [u32],
}

#[tactic(auto, unfolding(crate::specs::Refusal::memory_fits))]
fn memory_fits(len: usize) -> bool
    ensures { result ≡ memory_fits len }
{
    4096 <= len && len <= 0x10_0000 && len.is_multiple_of(4)
}

#[tactic(auto, unfolding(crate::specs::Refusal::states_fit))]
fn states_fit(len: usize) -> bool
    ensures { result ≡ states_fit len }
{
    let cores = len / state::STATE_WORDS;
    len.is_multiple_of(state::STATE_WORDS) && 1 <= cores && cores <= 4
}

// All of memory may be read-only.
#[tactic(auto, unfolding(crate::specs::Refusal::limit_fits))]
fn limit_fits(len: usize, limit: u32) -> bool
    ensures { result ≡ limit_fits len limit }
{
    limit.is_multiple_of(4) && limit as usize <= len
}

// Refusals 1 to 5 and 11 to 13, which both runs have.
#[tactic(auto, unfolding(crate::specs::Refusal::plain_refusal, crate::specs::Refusal::first_broken, crate::specs::Refusal::schedule_fits, crate::specs::Refusal::levels_fit))]
pub fn check(memory: &[u8], states: &[u32], plan: Plan<'_>) -> Result<(), Refusal>
    ensures { verdict_number result ≡ plain_refusal (lent_by memory.now states.now plan.entry) }
{
    if !memory_fits(memory.len()) {
        return Err(Refusal::MemoryLength);
    }
    if !states_fit(states.len()) {
        return Err(Refusal::StatesLength);
    }
    if !states::states_accepted(states) {
        return Err(Refusal::StateRule);
    }
    if 0x1_0000 < plan.schedule.len() {
        return Err(Refusal::ScheduleLength);
    }
    if !schedule::names_cores(plan.schedule, states.len() / state::STATE_WORDS) {
        return Err(Refusal::NoSuchCore);
    }
    if plan.levels.len() != plan.schedule.len() {
        return Err(Refusal::LevelsLength);
    }
    if !limit_fits(memory.len(), plan.limit) {
        return Err(Refusal::ReadOnlyLimit);
    }
    if !vector_list::fits(plan.vectors) {
        return Err(Refusal::VectorList);
    }
    Ok(())
}

// Refusals 6 and 7, on the decode cache.
#[tactic(auto, unfolding(crate::specs::Refusal::cache_fits, crate::specs::Refusal::first_broken))]
fn check_cache(memory: &[u8], cache: &[u64]) -> Result<(), Refusal>
    ensures { (board : Board) → verdict_number result ≡ first_broken (cache_rules board memory.now cache.now) }
{
    if cache.len() != memory.len() / 4 {
        return Err(Refusal::CacheLength);
    }
    if !cache::entries_right(memory, cache) {
        return Err(Refusal::CacheEntry);
    }
    Ok(())
}

// All of them.
pub fn check_fast(
    memory: &[u8],
    states: &[u32],
    plan: Plan<'_>,
    cache: &[u64],
) -> Result<(), Refusal>
    ensures { verdict_number result ≡ fast_refusal (lent_by memory.now states.now plan.entry) cache.now }
{
    check(memory, states, plan)?;
    check_cache(memory, cache)
}
