// The fast run, which keeps each word's form in the decode cache.
ghost use Rattle.refusal.specs.Lent.{lent, left};
ghost use Rattle.engine.specs.Answer.{FastAnswer};

use crate::answer::Answer;
use refusal::Plan;

// The fast run: answers its counts, or the first rule that is broken, and then nothing lent is written. Its
// parameters are the C interface's, and what is only read becomes a Plan here.
pub fn fast_run(
    memory: &mut [u8],
    states: &mut [u32],
    schedule: &[u8],
    levels: &[u32],
    limit: u32,
    vectors: &[u32],
    cache: &mut [u64],
) -> Answer
    ensures { FastAnswer (lent memory.old states.old schedule.now levels.now limit vectors.now) cache.old (left memory.new states.new) cache.new result }
{
    let plan = Plan {
        schedule,
        levels,
        limit,
        vectors,
    };
    refusal::check_fast(memory, states, plan, cache)?;
    Ok(linked::run(memory, states, plan, cache))
}
