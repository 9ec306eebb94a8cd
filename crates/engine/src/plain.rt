// The plain run, which decodes each word afresh: its decode cache is empty.
ghost use Rattle.refusal.specs.Lent.{lent, left};
ghost use Rattle.engine.specs.Answer.{PlainAnswer};

use crate::answer::Answer;
use refusal::Plan;

// The plain run: answers its counts, or the first rule that is broken, and then nothing lent is written. Its
// parameters are the C interface's, and what is only read becomes a Plan here.
pub fn plain_run(
    memory: &mut [u8],
    states: &mut [u32],
    schedule: &[u8],
    levels: &[u32],
    limit: u32,
    vectors: &[u32],
) -> Answer
    ensures { PlainAnswer (lent memory.old states.old schedule.now levels.now limit vectors.now) (left memory.new states.new) result }
{
    let plan = Plan {
        schedule,
        levels,
        limit,
        vectors,
    };
    refusal::check(memory, states, plan)?;
    Ok(linked::run(memory, states, plan, &mut []))
}
