// What a run answers.
ghost use Rattle.std.specs.Prelude.{◌≡◌};
ghost use Rattle.refusal.specs.Refusal.{max_schedule};
ghost use Rattle.steps.specs.Counts.{AtMost};
ghost use Rattle.engine.specs.Answer.{counts_of, packed_answer};

use refusal::cause::Refusal;
use steps::counts::Counts;

// What was counted, or why the run was refused.
pub type Answer = Result<Counts, Refusal>;

// The answer as one number, for a C host: bits 63-60 the refusal's number, 59-40 reused, 39-20 raised, 19-0 executed.
pub fn pack(answer: Answer) -> u64
    requires { AtMost max_schedule (counts_of answer) }
    ensures { result ≡ packed_answer answer }
{
    match answer {
        Ok(n) => n.reused as u64 * 0x100_0000_0000
            + n.raised as u64 * 0x10_0000
            + n.executed as u64,
        Err(cause) => u64::from(cause) * 0x1000_0000_0000_0000,
    }
}
